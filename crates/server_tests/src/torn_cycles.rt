//! A cycle in one script, stopped in each write of its disk: what a crash may leave of that write is opened again.
//!
//! Of a write a crash may leave its first bytes, its last ones, or all but one, and of the file any length from the old one
//! on. Each of the first three is opened at one length, some 1,000 files. All of them together, at each length and with each
//! byte changed too, would be some 700,000, which is too much for a test; journals of one or two records have them in
//! `journal_tests`.

use crate::program::{Left, Trial, finds, so};
use crate::stopped_cycles::{CYCLE, MARKET, market_after};
use std::alloc::{AllocError, AllocGlobal, Global};
use std::sync::Wait;
use std::test::Fail;
use std::thread::Threads;

/// Some bytes with another one at a place, if there is one.
pub fn with_other(
    alloc: Global,
    bytes: &[u8],
    place: usize,
    other: u8,
) -> Result<Vec<u8>, AllocError> {
    let mut changed = bytes.to_vec(alloc)?;
    if let Some(byte) = changed.get_mut(place) {
        *byte = other;
    }
    Ok(changed)
}

// Some bytes with another one at each place from one up to one behind them.
fn with_others(
    alloc: Global,
    bytes: &[u8],
    places: (usize, usize),
    other: u8,
) -> Result<Vec<u8>, AllocError> {
    let mut changed = bytes.to_vec(alloc)?;
    for place in places.0..places.1 {
        if let Some(byte) = changed.get_mut(place) {
            *byte = other;
        }
    }
    Ok(changed)
}

// That a file with others at these places has this market.
fn finds_changed<'a, R: Threads + Wait + Sync + AllocGlobal>(
    rt: &R,
    file: &'a [u8],
    places: (usize, usize),
    other: u8,
    market: &'a [u8],
) -> Result<(), Fail> {
    let changed = with_others(rt.alloc(), file, places, other)?;
    finds(rt, &changed, MARKET, market)
}

// That what a crash may leave of a write behind the old file's end has this market, where the whole write makes the new one.
fn finds_torn<'a, R: Threads + Wait + Sync + AllocGlobal>(
    rt: &R,
    old: &'a [u8],
    new: &'a [u8],
    market: &'a [u8],
) -> Result<(), Fail> {
    so(old.len() < new.len(), "nothing was written")?;
    for place in old.len()..new.len() {
        let front = new.get(..place).unwrap_or(new);
        finds(rt, front, MARKET, market)?;
        finds_changed(rt, new, (place, place + 1), 0xff, market)?;
        finds_changed(rt, new, (old.len(), place + 1), 0, market)?;
    }
    finds(rt, new, MARKET, market)
}

// That of a gate that opens only what has it open has the change.
fn finds_gate<'a, R: Threads + Wait + Sync + AllocGlobal>(
    rt: &R,
    old: &'a [u8],
    new: &'a [u8],
    before: &'a [u8],
    after: &'a [u8],
) -> Result<(), Fail> {
    so(old != new, "nothing was written")?;
    finds(rt, old, MARKET, before)?;
    finds(rt, new, MARKET, after)?;
    for place in 0..old.len() {
        if old.get(place) != new.get(place) {
            finds_changed(rt, old, (place, place + 1), 0xff, before)?;
        }
    }
    Ok(())
}

// What is left where that call of the disk, which is a sync, fails.
fn left_at<R: Threads + Wait + Sync + AllocGlobal>(rt: &R, call: u64) -> Result<Left, Fail> {
    let cycle = Trial {
        failing_call: call,
        ..CYCLE
    };
    cycle.left(rt)
}

// An opening has eleven calls, and a change four: its record is written and synced, and then its gate. A call that writes and
// fails leaves what the sync behind it may leave.
fn each_write_is_torn<R: Threads + Wait + Sync + AllocGlobal>(rt: &R) -> Result<(), Fail> {
    for change in 0..12u64 {
        let (before, after) = (market_after(change), market_after(change + 1));
        let record = left_at(rt, 13 + 4 * change)?;
        finds_torn(rt, &record.synced, &record.written, before)?;
        let gate = left_at(rt, 15 + 4 * change)?;
        finds_gate(rt, &gate.synced, &gate.written, before, after)?;
    }
    Ok(())
}

#[test]
fn what_a_crash_leaves_of_each_write_stands_for_the_changes_before_it_or_one_more(
    rt: HostRuntime,
) -> Result<(), Fail> {
    each_write_is_torn(&rt)
}
