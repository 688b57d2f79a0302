//! A machine tells no base while a cycle is open, and behind it the trades as its plan left them.

ghost use Rattle.std.specs.Prelude.{◌<◌, ◌^◌, length, IfOk, OnOk};
ghost use Rattle.book_tests.specs.Changes.{LeadTo};
ghost use Rattle.cycle_states.specs.Machine.{IsYoung};
ghost use Rattle.cycle_states.specs.Replayed.{base_at, IsSmall};

use super::ask_of;
use super::commands::Said;
use super::commands::Said::{Accept, Begin, Cancel, Decline, End, Freeze, Post};
use super::sheets::{Deal, EMPTY, LIVE, Sheet};
use super::standing::{machine_of, stands_so};
use super::words::Word;
use super::words::Word::{A, B, C, Ops};
use crate::market::Posted::ShortChain;
use crate::market::three_dealers;
use command_types::Mode::Hybrid;
use command_types::{Entry, Side, TradeState};
use cycle_states::{Decision, Machine};
use std::alloc::{AllocError, Global};
use std::test::Fail;

// A owes B 10, and B owes C 7.
const CHAIN: Sheet = Sheet {
    position: 4,
    deals: &[
        LIVE,
        Deal {
            seller: 1,
            buyer: 2,
            amount: 7,
            ..LIVE
        },
    ],
    ..EMPTY
};

// Who asks, what it asks, and whether a cycle is open then.
type Turn = (Word, Said, bool);

// The chain is compressed in the second version.
const COMPRESSED: [Turn; 9] = [
    (Ops, Freeze, true),
    (Ops, Begin(1, Hybrid), true),
    (Ops, Post(1, ShortChain), true),
    (A, Decline(1, 1), true),
    (Ops, Begin(1, Hybrid), true),
    (Ops, Post(2, ShortChain), true),
    (A, Accept(1, 2), true),
    (B, Accept(1, 2), true),
    (C, Accept(1, 2), false),
];

/// What the compressed chain comes to.
pub const AFTER: Sheet = Sheet {
    position: 13,
    cycle: 1,
    version: 2,
    deals: &[
        Deal { amount: 3, ..LIVE },
        Deal {
            seller: 1,
            buyer: 2,
            amount: 7,
            state: TradeState::Ended,
            ..LIVE
        },
        Deal {
            buyer: 2,
            amount: 7,
            day: (2026, 3, 31),
            submitter: None,
            ..LIVE
        },
    ],
    ..EMPTY
};

// A frozen trade ends, and the cycle is cancelled.
const BROKEN: [Turn; 4] = [
    (Ops, Freeze, true),
    (A, End(1), true),
    (B, End(1), true),
    (Ops, Cancel(1), false),
];

const UNCHANGED: Sheet = Sheet {
    position: 8,
    cycle: 1,
    version: 0,
    deals: &[
        Deal {
            state: TradeState::Ended,
            mark: Some(Side::Out),
            ..LIVE
        },
        Deal {
            seller: 1,
            buyer: 2,
            amount: 7,
            ..LIVE
        },
    ],
    ..EMPTY
};

/// The command of this party, under seat 7.
pub fn entry_of(alloc: Global, by: Word, said: Said) -> Result<Entry, Fail> {
    let ask = ask_of(alloc, by, said)?;
    Ok(Entry { seat: 7, ask })
}

/// Has the machine make the change, and says whether it accepted it.
pub fn makes(machine: &mut Machine, entry: Entry) -> Result<bool, AllocError>
    requires { IsYoung machine.old.state.cycle }
    ensures { OnOk result (LeadTo 1 machine.old.state machine.new.state) }
{
    let decision = machine.decide(entry)?;
    match decision {
        Decision::Told(_) => Ok(false),
        Decision::Ready(ready) => {
            let _made = machine.commit(ready);
            Ok(true)
        }
    }
}

fn tells_none(alloc: Global, machine: &Machine) -> Result<bool, AllocError> {
    let base = machine.base(alloc, 0)?;
    Ok(base.is_none())
}

// Has the machine make the change, and says whether it accepted it and tells no base exactly while a cycle is open.
fn takes(alloc: Global, machine: &mut Machine, turn: Turn) -> Result<bool, Fail>
    requires { IsYoung machine.old.state.cycle }
    ensures { OnOk result (LeadTo 1 machine.old.state machine.new.state) }
{
    let (by, said, is_open) = turn;
    let entry = entry_of(alloc, by, said)?;
    let is_made = makes(machine, entry)?;
    let is_untold = tells_none(alloc, machine)?;
    Ok(is_made && is_untold == is_open)
}

fn goes(alloc: Global, machine: &mut Machine, turns: &[Turn]) -> Result<bool, Fail>
    requires few { length turns.now < 2 ^ 62 }
    requires small { IsSmall (base_at 0 machine.old.state) }
{
    for turn in turns {
        if !takes(alloc, machine, *turn)? {
            return Ok(false);
        }
    }
    Ok(true)
}

// Whether the machine comes by these changes to stand so.
fn ends_so(
    alloc: Global,
    machine: &mut Machine,
    turns: &[Turn],
    sheet: &Sheet,
) -> Result<bool, Fail>
    requires few { length turns.now < 2 ^ 62 }
    requires small { IsSmall (base_at 0 machine.old.state) }
{
    if !goes(alloc, machine, turns)? {
        return Ok(false);
    }
    Ok(stands_so(alloc, machine, sheet)?)
}

/// A machine over the chain.
pub fn chain(alloc: Global) -> Result<Machine, Fail>
    ensures { IfOk result (λ machine. IsSmall (base_at 0 machine.state)) }
{
    machine_of(alloc, three_dealers(alloc)?, &CHAIN)
}

// Whether the chain comes by them to stand so.
fn comes_to(alloc: Global, turns: &[Turn], sheet: &Sheet) -> Result<bool, Fail>
    requires { length turns.now < 2 ^ 62 }
{
    let mut machine = chain(alloc)?;
    ends_so(alloc, &mut machine, turns, sheet)
}

#[test]
fn no_base_is_told_while_a_cycle_is_open(rt: HostRuntime) -> Result<(), Fail> {
    assert!(rt; comes_to(rt.alloc(), &COMPRESSED, &AFTER)?);
    Ok(())
}

#[test]
fn none_is_told_while_a_broken_cycle_is_open(rt: HostRuntime) -> Result<(), Fail> {
    assert!(rt; comes_to(rt.alloc(), &BROKEN, &UNCHANGED)?);
    Ok(())
}
