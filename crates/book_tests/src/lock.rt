//! The lock round a desk: two passes in turn, runs of commands, and many passes, each in a thread, that are joined again.

mod calls;
mod runs;
mod threads;
mod whole_runs;

ghost use Rattle.std.specs.Prelude.{◌≡◌, ◌+◌, ◌^◌, ◌<◌, ◌≤◌, IfOk};
ghost use Rattle.cycle_lock.specs.Passes.{IsPassOf, may_split};

use crate::machine::answers::Told::{Affirmed, Ended, Frozen, Marked, Market, No, Own, Traded};
use crate::machine::commands::Said::{Affirm, End, Freeze, Nets};
use crate::machine::words::Word;
use crate::machine::words::Word::{A, B, C, Ops, P};
use crate::machine::{Row, commands, empty_desk};
use calls::Call::{Trade, Unreadable};
use calls::Turn;
use calls::Whose::{First, Other};
use command_types::{Desk, Refusal, TradeState};
use cycle_lock::{Pass, Turns};
use cycle_states::PlainDesk;
use runs::goes_in_runs;
use std::alloc::{AllocError, Global};
use std::sync::Wait;
use std::test::Fail;
use std::thread::Threads;
use whole_runs::whole_runs;

fn opened(alloc: Global) -> Result<(Turns<PlainDesk>, Pass), AllocError>
    ensures own { IfOk result (λ r. IsPassOf r.0 r.1) }
    ensures left { IfOk result (λ r. may_split r.1 + 1 ≡ 2 ^ 32) }
{
    match Turns::new(alloc, empty_desk(alloc)?) {
        Ok(opened) => Ok(opened),
        Err(_) => Err(AllocError),
    }
}

// Whether two passes are answered so, and the desk has so many changes then.
fn goes<R: Wait>(rt: &R, alloc: Global, rows: &[Turn], changes: u64) -> Result<bool, AllocError> {
    let (turns, mut pass) = opened(alloc)?;
    let mut other = turns.split(&mut pass);
    let told = calls::go(rt, &turns, &mut pass, &mut other, rows);
    turns.join(&mut pass, other);
    let desk = turns.close(rt, pass);
    Ok(told && desk.length() == changes)
}

#[test]
fn passes_are_answered_at_each_length(rt: HostRuntime) -> Result<(), Fail> {
    let rows = [
        (First, Trade(0), 1, Traded(1)),
        (First, Unreadable(3), 1, No(Refusal::BadLine { at: 3 })),
        (First, Trade(1), 2, Traded(2)),
        (Other, Trade(0), 3, Traded(3)),
        (First, Unreadable(7), 3, No(Refusal::BadLine { at: 7 })),
        (First, Trade(2), 4, Traded(4)),
    ];
    assert!(rt; goes(&rt, rt.alloc(), &rows, 4)?);
    Ok(())
}

// Whether so many passes, each in a thread of its own, make so many trades each, and are joined again.
fn many_passes<R: Threads + Wait + Sync>(
    rt: &R,
    alloc: Global,
    passes: u32,
    trades: u64,
) -> Result<bool, AllocError>
    requires { (passes ≤ 64) × (trades ≤ 2000) }
{
    let (turns, mut pass) = opened(alloc)?;
    let done = threads::run(rt, alloc, &turns, &mut pass, (passes as u64, trades)).unwrap_or(0);
    let desk = turns.close(rt, pass);
    let all = passes as u64 * trades;
    Ok(done == all && desk.length() == all)
}

#[test]
fn many_passes_are_joined_and_closed(rt: HostRuntime) -> Result<(), Fail> {
    let alloc = rt.alloc();
    assert!(rt; many_passes(&rt, alloc, 2, 2000)?);
    assert!(rt; many_passes(&rt, alloc, 8, 200)? && many_passes(&rt, alloc, 64, 100)?);
    Ok(())
}

// A trade of this amount.
const fn sold(seller: Word, buyer: Word, amount: u64) -> commands::Said {
    commands::Said::Trade(seller, buyer, amount)
}

// Whether these rows are answered so in runs of this size: by a desk that answers one command of each, and by one that
// answers all.
fn both<R: Wait>(rt: &R, alloc: Global, rows: &[Row], size: usize) -> Result<bool, Fail>
    requires { (0 < size) × (size ≤ 64) }
{
    Ok(
        goes_in_runs(rt, alloc, empty_desk(alloc)?, rows, size)?
            && goes_in_runs(rt, alloc, whole_runs(alloc)?, rows, size)?,
    )
}

#[test]
fn runs_are_answered_as_one_by_one(rt: HostRuntime) -> Result<(), Fail> {
    let stands = Refusal::WrongTradeState {
        state: TradeState::Live,
    };
    let rows = [
        (A, sold(A, B, 30), 1, Traded(1)),
        (B, Affirm(1), 2, Affirmed(1)),
        (A, Affirm(9), 2, No(Refusal::UnknownTrade)),
        (B, sold(B, C, 20), 3, Traded(2)),
        (C, Affirm(2), 4, Affirmed(2)),
        (A, Nets(P), 4, Own(30, 0, 30)),
        (B, Nets(P), 4, Own(20, 30, -10)),
        (Ops, Nets(P), 4, Market(50, 30, 20, 50)),
        (C, sold(C, A, 5), 5, Traded(3)),
        (C, Affirm(3), 5, No(Refusal::NotParty)),
        (A, Affirm(3), 6, Affirmed(3)),
        (B, End(1), 7, Marked(1)),
        (B, End(1), 7, No(stands)),
        (A, End(1), 8, Ended(1)),
        (Ops, Nets(P), 8, Market(25, 20, 5, 25)),
        (Ops, Freeze, 9, Frozen(1, 2)),
    ];
    for size in [1, 2, 5, 7, 16, 64] {
        assert!(rt; both(&rt, rt.alloc(), &rows, size)?);
    }
    Ok(())
}

// Seventy trades, of which 64 stand in the first run.
#[test]
fn the_most_together_are_answered(rt: HostRuntime) -> Result<(), Fail> {
    let mut rows = Vec::new(rt.alloc());
    for number in 1..71 {
        rows.push((A, sold(A, B, number), number, Traded(number)))?;
    }
    assert!(rt; both(&rt, rt.alloc(), &rows, 64)?);
    Ok(())
}
