//! A machine that stands between two cycles answers as one that came there by commands.

ghost use Rattle.cycle_states.specs.Machine.{IsYoung};

use super::answers::Told::{
    Affirmed, Cancelled, Ended, Frozen, Marked, Market, No, Own, Tolerance, Traded, Trades,
};
use super::answers::{Told, is_told};
use super::commands::Said::{
    Affirm, Begin, Cancel, End, Freeze, Hold, Nets, Statement, Tol, Trade,
};
use super::sheets::{ALLEGED, Deal, EMPTY, LIVE, Sheet};
use super::standing::machine_of;
use super::words::Word::{A, B, C, Ops, P};
use super::{Row, ask_of, plays};
use crate::market::three_dealers;
use command_types::Mode::Conservative;
use command_types::{Ask, Phase, Refusal, Side, TradeState};
use cycle_states::Machine;
use std::alloc::{AllocError, Global};
use std::test::Fail;

// The way there: to three trades, to one setting of A, and to the end of the first cycle, which began no version.
const COMMANDS: [Row; 9] = [
    (A, Trade(A, B, 10), 1, Traded(1)),
    (B, Affirm(1), 2, Affirmed(1)),
    (A, End(1), 3, Marked(1)),
    (C, Trade(B, C, 7), 4, Traded(2)),
    (C, End(2), 5, Ended(2)),
    (C, Trade(C, A, 5), 6, Traded(3)),
    (A, Tol(B, 4), 7, Tolerance),
    (Ops, Freeze, 8, Frozen(1, 1)),
    (Ops, Cancel(1), 9, Cancelled(1)),
];

// The same as it stands: trade 1 is marked by A, trade 2 has ended, and trade 3 is alleged.
const REST: Sheet = Sheet {
    position: 9,
    cycle: 1,
    settings: &[(0, 0, 1, Side::Out, 4, None)],
    deals: &[
        Deal {
            mark: Some(Side::Out),
            ..LIVE
        },
        Deal {
            seller: 1,
            buyer: 2,
            amount: 7,
            state: TradeState::Ended,
            submitter: Some(Side::In),
            ..LIVE
        },
        Deal {
            seller: 2,
            buyer: 0,
            amount: 5,
            ..ALLEGED
        },
    ],
    ..EMPTY
};

const ENDED: Refusal = Refusal::WrongTradeState {
    state: TradeState::Ended,
};

const IS_LIVE: Refusal = Refusal::WrongTradeState {
    state: TradeState::Live,
};

const OTHER: Refusal = Refusal::WrongCycle { cycle: 1 };

const NONE: Refusal = Refusal::WrongPhase { phase: Phase::None };

// What each of these would be answered then, if it came first.
const NEXT: [Row; 15] = [
    (Ops, Nets(P), 9, Market(10, 10, 0, 10)),
    (A, Nets(P), 9, Own(10, 0, 10)),
    (C, Nets(P), 9, Own(0, 0, 0)),
    (A, Statement, 9, Trades(1, 3)),
    (C, Statement, 9, Trades(2, 3)),
    (A, Affirm(3), 10, Affirmed(3)),
    (C, Affirm(3), 9, No(Refusal::NotParty)),
    (B, Affirm(2), 9, No(ENDED)),
    (A, End(1), 9, No(IS_LIVE)),
    (B, End(1), 10, Ended(1)),
    (C, Hold(1), 9, No(Refusal::NotParty)),
    (A, Trade(A, C, 4), 10, Traded(4)),
    (Ops, Begin(1, Conservative), 9, No(NONE)),
    (Ops, Begin(2, Conservative), 9, No(OTHER)),
    (Ops, Freeze, 10, Frozen(2, 1)),
];

fn is_answered(machine: &Machine, ask: &Ask, told: Told) -> Result<bool, AllocError>
    requires { IsYoung machine.now.state.cycle }
{
    let answer = machine.answer(ask)?;
    Ok(is_told(&answer, told))
}

/// Whether the machine answers each of these so now.
pub fn answers(alloc: Global, machine: &Machine, rows: &[Row]) -> Result<bool, Fail>
    requires { IsYoung machine.now.state.cycle }
{
    for (by, said, _, told) in rows {
        if !is_answered(machine, &ask_of(alloc, *by, *said)?, *told)? {
            return Ok(false);
        }
    }
    Ok(true)
}

// Whether a machine of the three dealers that stands so answers each of these so.
fn answers_at_rest(alloc: Global, sheet: &Sheet, rows: &[Row]) -> Result<bool, Fail> {
    let machine = machine_of(alloc, three_dealers(alloc)?, sheet)?;
    answers(alloc, &machine, rows)
}

// Whether a desk that came there by commands answers each of these so, if it comes first.
fn answers_by_commands(alloc: Global, rows: &[Row]) -> Result<bool, Fail> {
    for row in rows {
        if !plays(alloc, &[&COMMANDS, &[*row]])? {
            return Ok(false);
        }
    }
    Ok(true)
}

#[test]
fn it_answers_as_one_that_came_there_by_commands(rt: HostRuntime) -> Result<(), Fail> {
    assert!(rt;
        answers_at_rest(rt.alloc(), &REST, &NEXT)? && answers_by_commands(rt.alloc(), &NEXT)?
    );
    Ok(())
}
