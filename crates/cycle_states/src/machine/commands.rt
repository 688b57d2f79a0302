//! The commands, each in a file of its own: why it is refused, what it is answered, and what it does. Here are all of them; an
//! answer of one line stands here, and what a change does in `changes`.

mod accept;
mod affirm;
mod begin;
mod cancel;
mod changes;
mod decline;
mod draft;
mod end;
mod fetch;
mod freeze;
mod hello;
mod hold;
mod limits;
mod nets;
mod next;
mod plan;
mod post;
mod proof;
mod statement;
mod tol;
mod trade;

ghost use Rattle.std.specs.Prelude.{◌≡◌, IfOk, IsOk, IsTrue, None, Some};
ghost use Rattle.std.specs.Result.{result_err};
ghost use Rattle.command_types.specs.Machine.{command_refusals, first_of, party_answer, refusals};
ghost use Rattle.command_types.specs.Told.{is_accept};
ghost use Rattle.cycle_states.specs.Begun.{AreCheckedBy};
ghost use Rattle.cycle_states.specs.Machine.{IsYoung};
ghost use Rattle.cycle_states.specs.Party.{IsCaller};

use super::Machine;
use super::party::Caller;
use super::terms::{DraftRow, Setting, Terms};
pub(crate) use changes::is_change;
use command_types::{Answer, Refusal, What};
use network_laws::Problem;
use std::alloc::AllocError;

impl Machine {
    // The first refusal of a command by a party of the roster.
    fn check_command(
        &self,
        caller: &Caller,
        what: &What,
        problems: &[Problem],
    ) -> Result<(), Refusal>
        requires problems { AreCheckedBy self.now.state what.now problems.now }
        requires caller { IsCaller self.now.state.roster caller.now }
        ensures { result_err result ≡ first_of (command_refusals self.now.state caller.now.name what.now) }
    {
        match what {
            What::Trade {
                seller,
                buyer,
                product,
                amount,
                day,
            } => {
                let terms = Terms {
                    seller: *seller,
                    buyer: *buyer,
                    product: *product,
                    amount: *amount,
                    day: *day,
                };
                self.check_trade(caller, &terms)
            }
            What::Affirm { trade } => self.check_affirm(caller, *trade),
            What::End { trade } => self.check_end(caller, *trade),
            What::Hold { trade } => self.check_hold(caller, *trade),
            What::Free { trade } => self.check_free(caller, *trade),
            What::Tol {
                other,
                product,
                side,
                floor,
                ceiling,
            } => {
                let setting = Setting {
                    other: *other,
                    product: *product,
                    side: *side,
                    floor: *floor,
                    ceiling: *ceiling,
                };
                self.check_tol(caller, &setting)
            }
            What::Nets { product } => self.check_nets(product),
            What::Statement => self.check_statement(caller),
            What::Freeze { .. } => self.check_freeze(caller),
            What::Begin { cycle, .. } => self.check_begin(caller, *cycle),
            What::Fetch { cycle, version } => self.check_fetch(caller, *cycle, *version),
            What::Limits { product } => self.check_limits(caller, product),
            What::Row {
                product,
                seller,
                buyer,
                size,
                sum,
                ..
            } => {
                let row = DraftRow {
                    product: *product,
                    seller: *seller,
                    buyer: *buyer,
                    size: *size,
                    sum: *sum,
                };
                self.check_row(caller, &row)
            }
            What::Pot {
                product,
                member,
                size,
                ..
            } => self.check_pot(caller, product, member, *size),
            What::Post {
                cycle,
                version,
                solutions,
            } => self.check_post(caller, *cycle, *version, problems, solutions.rows()),
            What::Next { .. } => self.check_next(caller),
            What::Plan { cycle } => self.check_plan(*cycle),
            What::Proof { cycle } => self.check_proof(caller, *cycle),
            What::Accept { cycle, version } => self.check_accept(caller, *cycle, *version),
            What::Decline { cycle, version } => self.check_decline(caller, *cycle, *version),
            What::Cancel { cycle } => self.check_cancel(caller, *cycle),
            What::Hello { .. } | What::Unreadable { .. } | What::Bye => Ok(()),
        }
    }

    // What a party's command is answered that is not refused. The only error is want of memory.
    fn party_answer(&self, caller: &Caller, what: &What) -> Result<Answer, AllocError>
        requires young { IsYoung self.now.state.cycle }
        requires caller { IsCaller self.now.state.roster caller.now }
        requires accepted { first_of (refusals self.now.state (Some caller.now.name) what.now) ≡ None }
        ensures told { IfOk result (λ answer. answer ≡ party_answer self.now.state caller.now.name what.now) }
        ensures vote { IsTrue (is_accept what.now) → IsOk result }
    {
        match what {
            What::Trade { .. } => Ok(Answer::Traded {
                trade: self.book.count() + 1,
            }),
            What::Affirm { trade } => Ok(Answer::Affirmed { trade: *trade }),
            What::End { trade } => Ok(self.end_answer(*trade)),
            What::Hold { trade } => Ok(Answer::Held { trade: *trade }),
            What::Free { trade } => Ok(Answer::Freed { trade: *trade }),
            What::Tol { .. } => Ok(Answer::Tolerance),
            What::Nets { product } => self.nets(caller, product),
            What::Statement => self.statement(caller),
            What::Freeze { day } => Ok(self.freezing(*day)),
            What::Begin { cycle, .. } => Ok(Answer::Begun {
                cycle: *cycle,
                version: 1 + self.cycle.version(),
            }),
            What::Fetch { .. } => self.fetched(),
            What::Limits { product } => self.limits(product),
            What::Row { size, .. } => Ok(Answer::Noted { size: *size }),
            What::Pot { size, .. } => Ok(Answer::Noted { size: *size }),
            What::Post { solutions, .. } => self.post_answer(solutions.rows()),
            What::Next { .. } => Ok(Answer::NoNext),
            What::Plan { .. } => self.plan_rows(caller),
            What::Proof { .. } => self.proof(caller),
            What::Accept { .. } => Ok(self.vote_answer(self.place_of(caller))),
            What::Decline { cycle, version } => Ok(Answer::Declined {
                cycle: *cycle,
                version: *version,
            }),
            What::Cancel { cycle } => Ok(Answer::Cancelled { cycle: *cycle }),
            _ => Ok(Answer::No(Refusal::NotGreeted)),
        }
    }
}
