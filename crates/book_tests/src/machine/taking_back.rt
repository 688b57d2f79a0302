//! Changes that are taken back: the machine stands as it stood before them.

ghost use Rattle.std.specs.Prelude.{◌≡◌, ◌<◌, ◌^◌, length, OnOk};
ghost use Rattle.book_tests.specs.Changes.{LeadTo};
ghost use Rattle.cycle_states.specs.Machine.{IsYoung};
ghost use Rattle.cycle_states.specs.Replayed.{base_at, IsSmall};

use super::Row;
use super::answers::Told::{Market, Own};
use super::bases::MIXED;
use super::commands::Said;
use super::commands::Said::{
    Accept, Affirm, Begin, Decline, End, Free, Freeze, Hold, Nets, Post, Tol, Trade,
};
use super::open_cycles::{AFTER, chain, entry_of, makes};
use super::rests::answers;
use super::standing::{machine_of, stands_so};
use super::words::Word;
use super::words::Word::{A, B, C, Ops, P};
use crate::market::Posted::ShortChain;
use crate::market::three_dealers;
use command_types::Entry;
use command_types::Mode::Hybrid;
use cycle_states::{Decision, Machine};
use std::alloc::{AllocError, Global};
use std::test::Fail;

// Who asks, and what it asks.
type Step = (Word, Said);

// Changes of a machine over the mixed base, each behind the ones before it. All of a run go back.
const RUNS: [&[Step]; 9] = [
    &[(A, Trade(A, B, 5))],
    &[(B, Affirm(2))],
    &[(C, Affirm(3)), (C, Hold(3)), (A, Hold(3))],
    &[(A, End(1))],
    &[(A, Hold(1)), (B, Hold(1)), (A, Free(1)), (A, Hold(1))],
    &[(A, Free(5)), (B, Free(5))],
    &[(B, Free(6)), (B, Hold(6))],
    &[(A, Hold(4)), (C, End(7)), (B, Hold(7))],
    &[
        (A, Trade(A, B, 5)),
        (B, Affirm(11)),
        (C, Trade(B, C, 6)),
        (B, Hold(11)),
        (A, End(11)),
        (B, Free(11)),
        (B, Affirm(12)),
    ],
];

// What the mixed base comes to.
const NETS: [Row; 4] = [
    (Ops, Nets(P), 0, Market(41, 31, 10, 41)),
    (A, Nets(P), 0, Own(31, 0, 31)),
    (B, Nets(P), 0, Own(10, 31, -21)),
    (C, Nets(P), 0, Own(0, 10, -10)),
];

// What ends a trade, or changes more than one, has no way back; nor has what is refused.
const OTHERS: [Step; 7] = [
    (A, End(2)),
    (A, End(4)),
    (B, End(5)),
    (A, Tol(B, 4)),
    (Ops, Freeze),
    (A, Affirm(2)),
    (A, Nets(P)),
];

// What is tried over the chain: each goes back, but that no frozen trade is held.
const TRIES: [Step; 3] = [(A, Trade(A, B, 3)), (A, End(1)), (B, Hold(2))];

// How many tries go back first; who asks then, and what.
type Round = (u64, Word, Said);

// The chain is compressed in the second version.
const ROUNDS: [Round; 9] = [
    (3, Ops, Freeze),
    (2, Ops, Begin(1, Hybrid)),
    (2, Ops, Post(1, ShortChain)),
    (2, A, Decline(1, 1)),
    (2, Ops, Begin(1, Hybrid)),
    (2, Ops, Post(2, ShortChain)),
    (2, A, Accept(1, 2)),
    (2, B, Accept(1, 2)),
    (2, C, Accept(1, 2)),
];

// Has the machine make the changes from this one on, each behind the one before, and take them back; says whether all were
// accepted and went back.
fn go_back(alloc: Global, machine: &mut Machine, steps: &[Step], from: usize) -> Result<bool, Fail>
    requires { IsYoung machine.old.state.cycle }
    ensures { OnOk result (machine.new.state ≡ machine.old.state) }
{
    if from >= steps.len() {
        return Ok(true);
    }
    let (by, said) = steps[from];
    let entry = entry_of(alloc, by, said)?;
    let decision = machine.decide(entry)?;
    match decision {
        Decision::Told(_) => Ok(false),
        Decision::Ready(ready) => match machine.undo_of(&ready) {
            None => Ok(false),
            Some(undo) => {
                let _made = machine.commit(ready);
                let all = go_back(alloc, machine, steps, from + 1)?;
                machine.undo(&undo);
                Ok(all)
            }
        },
    }
}

// Whether the changes go back over the mixed base, which then stands and answers as before.
fn run_goes_back(alloc: Global, steps: &[Step]) -> Result<bool, Fail> {
    let mut machine = machine_of(alloc, three_dealers(alloc)?, &MIXED)?;
    if !go_back(alloc, &mut machine, steps, 0)? || !stands_so(alloc, &machine, &MIXED)? {
        return Ok(false);
    }
    answers(alloc, &machine, &NETS)
}

fn runs_go_back(alloc: Global, runs: &[&[Step]]) -> Result<bool, Fail> {
    for steps in runs {
        if !run_goes_back(alloc, steps)? {
            return Ok(false);
        }
    }
    Ok(true)
}

// Whether none of these goes back over the mixed base.
fn none_goes_back(alloc: Global, steps: &[Step]) -> Result<bool, Fail> {
    for step in steps {
        if run_goes_back(alloc, &[*step])? {
            return Ok(false);
        }
    }
    Ok(true)
}

// How many of these go back, each alone.
fn tried(alloc: Global, machine: &mut Machine, steps: &[Step]) -> Result<u64, Fail>
    requires { IsYoung machine.old.state.cycle }
    ensures { OnOk result (machine.new.state ≡ machine.old.state) }
{
    let mut count = 0_u64;
    for step in steps {
        if go_back(alloc, machine, &[*step], 0)? {
            count = count.saturating_add(1);
        }
    }
    Ok(count)
}

// Has the machine try these, and make the change; says whether so many went back, and whether it accepted the change.
fn takes(alloc: Global, machine: &mut Machine, round: Round) -> Result<bool, Fail>
    requires { IsYoung machine.old.state.cycle }
    ensures { OnOk result (LeadTo 1 machine.old.state machine.new.state) }
{
    let (count, by, said) = round;
    let went_back = tried(alloc, machine, &TRIES)?;
    let entry = entry_of(alloc, by, said)?;
    let is_made = makes(machine, entry)?;
    Ok(is_made && went_back == count)
}

fn goes(alloc: Global, machine: &mut Machine, rounds: &[Round]) -> Result<bool, Fail>
    requires few { length rounds.now < 2 ^ 62 }
    requires small { IsSmall (base_at 0 machine.old.state) }
{
    for round in rounds {
        if !takes(alloc, machine, *round)? {
            return Ok(false);
        }
    }
    Ok(true)
}

#[test]
fn a_machine_stands_as_before_once_its_changes_went_back(rt: HostRuntime) -> Result<(), Fail> {
    assert!(rt; runs_go_back(rt.alloc(), &RUNS)?);
    assert!(rt; none_goes_back(rt.alloc(), &OTHERS)?);
    Ok(())
}

#[test]
fn changes_go_back_at_each_place_of_a_cycle(rt: HostRuntime) -> Result<(), Fail> {
    let mut machine = chain(rt.alloc())?;
    assert!(rt; goes(rt.alloc(), &mut machine, &ROUNDS)?);
    assert!(rt; stands_so(rt.alloc(), &machine, &AFTER)?);
    Ok(())
}
