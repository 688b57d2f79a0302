//! A journal that begins again from a base: what a fold writes byte for byte, and which journals stay.

use crate::program::{SCRIPT, Text, Trial, finds, so};
use std::alloc::{AllocError, AllocGlobal, Global};
use std::sync::Wait;
use std::test::Fail;
use std::thread::Threads;

// A file with slots up to the gate behind its turn.
const BEGUN: &[u8] = b"OTCJRNLC\0\x19\0\0\0\0\0\0\0\0\0\0\0\0\0\0\0\0\0\0\0\x01\x08\0\0\0MOMENTS2";

// A's command TRADE A B P 1 2026-03-02 from seat 0 at noon on 31 March 2026, with its gate and its length.
const TRADE: &[u8] =
    b"\x01\x21\0\0\0\x40\xb7\xcb\x69\0\0\0\0\0\0\0\0\x01A\x01\x01A\x01B\x01P\x01\0\0\0\0\0\0\0\xea\x07\x03\x02";

// B's AFFIRM in the same way, up to the trade's number.
const AFFIRM: &[u8] = b"\x01\x17\0\0\0\x40\xb7\xcb\x69\0\0\0\0\0\0\0\0\x01B\x02";

// The journal of 500 of these trades, of which B affirmed the first so many: what a session leaves, written by hand,
// since a thousand changes of a disk in memory take long.
fn traded(alloc: Global, affirmed: u64) -> Result<Vec<u8>, AllocError> {
    let mut file = BEGUN.to_vec(alloc)?;
    for _ in 0..500 {
        file.extend_from_slice(TRADE)?;
    }
    for number in 1..=affirmed {
        file.extend_from_slice(AFFIRM)?;
        file.extend_from_slice(&number.to_le_bytes())?;
    }
    file.push(0)?;
    Ok(file)
}

// The file of 33,043 bytes with a body behind it, and slot 1, which has that place, selected. The body: the base's length, its mark,
// position 1000, no cycle and no version, the roster's names, no setting, 500 trades of A and B, which A submitted and which are
// live, and a closed gate.
fn folded(alloc: Global, file: &[u8]) -> Result<Vec<u8>, AllocError> {
    let mut whole = file.get(..8).unwrap_or(file).to_vec(alloc)?;
    whole.extend_from_slice(b"\x01\x19\0\0\0\0\0\0\0\x13\x81\0\0\0\0\0\0")?;
    whole.extend_from_slice(file.get(25..).unwrap_or(&[]))?;
    whole.extend_from_slice(b"\x2d\x2b\0\0\x02\xe8\x03\0\0\0\0\0\0")?;
    whole.extend_from_slice(&[0; 16])?;
    whole.extend_from_slice(b"\x03\0\x01A\x01B\x01C\x01\0\x01P")?;
    whole.extend_from_slice(b"\0\0\0\0\0\0\0\0\xf4\x01\0\0\0\0\0\0")?;
    for _ in 0..500 {
        whole.extend_from_slice(b"\0\0\x01\0\0\0\x01\0\0\0\0\0\0\0\xea\x07\x03\x02\x01\x01\0\0")?;
    }
    whole.push(0)?;
    Ok(whole)
}

fn is_folded_byte_for_byte<R: Threads + Wait + Sync + AllocGlobal>(rt: &R) -> Result<(), Fail> {
    let whole = traded(rt.alloc(), 500)?;
    let begun_again = folded(rt.alloc(), &whole)?;
    let sizes = whole.len() == 33043 && begun_again.len() == 44101;
    so(sizes, "the files are otherwise")?;
    let opening = Trial {
        disk: &whole,
        ..SCRIPT
    };
    opening.leaves(rt, &begun_again)?;
    let lines = b"HELLO A KA\nTRADE A B P 1 2026-03-02\n";
    finds(
        rt,
        &begun_again,
        lines,
        b"ok 1000 hello A\nok 1001 trade 501\n",
    )
}

#[test]
fn a_journal_of_a_thousand_changes_is_folded_when_it_is_opened(
    rt: HostRuntime,
) -> Result<(), Fail> {
    is_folded_byte_for_byte(&rt)
}

// The thousandth change opens a cycle.
fn stays_while_a_cycle_is_open<R: Threads + Wait + Sync + AllocGlobal>(rt: &R) -> Result<(), Fail> {
    let fewer = traded(rt.alloc(), 499)?;
    let freeze = Trial {
        disk: &fewer,
        input: b"HELLO OPS KO\nFREEZE 2026-03-31\n",
        output: Text::Is(b"ok 999 hello OPS\nok 1000 frozen 1 499\n"),
        ..SCRIPT
    };
    let frozen = freeze.left(rt)?.synced;
    let opening = Trial {
        disk: &frozen,
        ..SCRIPT
    };
    opening.leaves(rt, &frozen)
}

#[test]
fn a_journal_with_an_open_cycle_is_not_folded(rt: HostRuntime) -> Result<(), Fail> {
    stays_while_a_cycle_is_open(&rt)
}
