//! What the accepted changes do, each made once with its answer. A POST and an ACCEPT are made in their own files.

ghost use Rattle.std.specs.Prelude.{◌≡◌, false, true, IfOk, IsOk, IsTrue, None, Some};
ghost use Rattle.command_types.specs.Machine.{changes, first_of, refusals, side_at, state_by_party};
ghost use Rattle.command_types.specs.Told.{is_accept};
ghost use Rattle.command_types.specs.Trades.{trade_numbered};
ghost use Rattle.cycle_states.specs.Ballot.{IsBallotIn};
ghost use Rattle.cycle_states.specs.Effects.{decides, effect_by, is_of_trade, MayApply};
ghost use Rattle.cycle_states.specs.Machine.{IsYoung};
ghost use Rattle.cycle_states.specs.Party.{IsCaller};
ghost use Rattle.cycle_states.specs.Ready.{IsMade};

use crate::machine::Machine;
use crate::machine::ballot::Ballot;
use crate::machine::effect::Effect;
use crate::machine::parties::{place_of_member, place_of_product};
use crate::machine::party::Caller;
use crate::machine::ready::Made;
use crate::machine::sides::side_of;
use command_types::{Side, ToleranceRow, What};
use std::alloc::AllocError;

/// Whether the command is of a kind that changes the machine where it is accepted.
pub(crate) fn is_change(what: &What) -> bool
    ensures { result ≡ changes what.now }
{
    matches!(
        what,
        What::Trade { .. }
            | What::Affirm { .. }
            | What::End { .. }
            | What::Hold { .. }
            | What::Free { .. }
            | What::Tol { .. }
            | What::Freeze { .. }
            | What::Begin { .. }
            | What::Post { .. }
            | What::Accept { .. }
            | What::Decline { .. }
            | What::Cancel { .. }
    )
}

impl Machine {
    // The side of the caller in the trade with this number.
    fn side_at(&self, caller: &Caller, trade: u64) -> Side
        requires { IsCaller self.now.state.roster caller.now }
        ensures { result ≡ side_at self.now.state caller.now.name (trade_numbered self.now.state.trades trade) }
    {
        match self.book.get(trade) {
            None => Side::Out,
            Some(row) => self.side_in(caller, row),
        }
    }

    // What an accepted command about a trade does.
    fn trade_effect(&self, caller: &Caller, what: &What) -> Effect
        requires of_trade { is_of_trade what.now ≡ true }
        requires caller { IsCaller self.now.state.roster caller.now }
        requires accepted { first_of (refusals self.now.state (Some caller.now.name) what.now) ≡ None }
        ensures does { result ≡ effect_by self.now.state caller.now.name what.now }
        ensures may { MayApply self.now.state result }
    {
        match what {
            What::Trade {
                seller,
                buyer,
                product,
                amount,
                day,
            } => Effect::Allege {
                seller: place_of_member(&self.roster, seller),
                buyer: place_of_member(&self.roster, buyer),
                product: place_of_product(&self.roster, product),
                amount: *amount,
                day: *day,
                submitter: side_of(&caller.name, seller),
            },
            What::Affirm { trade } => Effect::Affirm { trade: *trade },
            What::End { trade } => Effect::End {
                trade: *trade,
                side: self.side_at(caller, *trade),
            },
            What::Hold { trade } => Effect::Hold {
                trade: *trade,
                side: self.side_at(caller, *trade),
            },
            What::Free { trade } => Effect::Free {
                trade: *trade,
                side: self.side_at(caller, *trade),
            },
            _ => unreachable!(),
        }
    }

    // What a party's accepted change does that neither posts nor votes.
    fn effect(&self, caller: &Caller, what: &What) -> Effect
        requires plain { decides what.now ≡ false }
        requires change { changes what.now ≡ true }
        requires caller { IsCaller self.now.state.roster caller.now }
        requires accepted { first_of (refusals self.now.state (Some caller.now.name) what.now) ≡ None }
        ensures does { result ≡ effect_by self.now.state caller.now.name what.now }
        ensures may { MayApply self.now.state result }
    {
        match what {
            What::Tol {
                other,
                product,
                side,
                floor,
                ceiling,
            } => Effect::Set(ToleranceRow {
                member: self.place_of(caller),
                product: place_of_product(&self.roster, product),
                other: place_of_member(&self.roster, other),
                side: *side,
                floor: *floor,
                ceiling: *ceiling,
            }),
            What::Freeze { day } => Effect::Freeze { day: *day },
            What::Begin { mode, .. } => Effect::Begin { mode: *mode },
            What::Decline { .. } => Effect::Decline,
            What::Cancel { .. } => Effect::Cancel,
            _ => self.trade_effect(caller, what),
        }
    }

    // The ballot, which stays with any command that neither posts nor votes.
    fn same_ballot(&self, caller: &Caller, what: &What) -> Ballot
        requires { decides what.now ≡ false }
        ensures { IsBallotIn (state_by_party self.now.state caller.now.name what.now) result }
    {
        // What a book says of its trades is what the plan rests on.
        let _rows = self.book.rows();
        self.ballot.copy()
    }

    /// What a party's accepted change is answered, and what it does. The only error is want of memory, and it never comes for
    /// an ACCEPT.
    pub(in crate::machine) fn made_for(
        &self,
        caller: &Caller,
        what: &What,
    ) -> Result<Made, AllocError>
        requires young { IsYoung self.now.state.cycle }
        requires change { changes what.now ≡ true }
        requires caller { IsCaller self.now.state.roster caller.now }
        requires accepted { first_of (refusals self.now.state (Some caller.now.name) what.now) ≡ None }
        ensures made { IfOk result (λ made. IsMade self.now.state caller.now.name what.now made) }
        ensures vote { IsTrue (is_accept what.now) → IsOk result }
    {
        match what {
            What::Post { solutions, .. } => self.posting(solutions.rows()),
            What::Accept { .. } => Ok(self.vote(self.place_of(caller))),
            _ => {
                let answer = self.party_answer(caller, what)?;
                let effect = self.effect(caller, what);
                let ballot = self.same_ballot(caller, what);
                Ok(Made {
                    answer,
                    effect,
                    ballot,
                })
            }
        }
    }
}
