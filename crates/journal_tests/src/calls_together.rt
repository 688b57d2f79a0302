//! Calls of several commands of a house, whose changes share an append: each call of the disk fails in turn.

use crate::disks::BEGUN_TURNED;
use crate::house_lives::{Party, Said, Step, Told};
use crate::together::{are_told, is_found_on, left_by};
use crate::traced_disk::TracedDisk;
use command_types::Refusal;
use std::alloc::Global;
use std::process::Abort;
use std::test::Fail;

// Five changes that depend on one another, a refusal, and reads before and between them.
const ASKED: [Step; 8] = [
    (Party::Operator, Said::Nets, 0, Told::Gross(0)),
    (Party::A, Said::Trade(Party::B), 1, Told::Done),
    (Party::B, Said::Affirm(1), 2, Told::Done),
    (Party::Operator, Said::Nets, 2, Told::Gross(10)),
    (
        Party::B,
        Said::Affirm(9),
        2,
        Told::No(Refusal::UnknownTrade),
    ),
    (Party::A, Said::Trade(Party::C), 3, Told::Done),
    (Party::A, Said::Hold(1), 4, Told::Done),
    (Party::C, Said::Affirm(2), 5, Told::Done),
];

// What they are told where the disk fails on their changes: from the history before.
const FAILED: [Step; 8] = [
    (Party::Operator, Said::Nets, 0, Told::Gross(0)),
    (
        Party::A,
        Said::Trade(Party::B),
        0,
        Told::No(Refusal::DiskFault),
    ),
    (
        Party::B,
        Said::Affirm(1),
        0,
        Told::No(Refusal::UnknownTrade),
    ),
    (Party::Operator, Said::Nets, 0, Told::Gross(0)),
    (
        Party::B,
        Said::Affirm(9),
        0,
        Told::No(Refusal::UnknownTrade),
    ),
    (
        Party::A,
        Said::Trade(Party::C),
        0,
        Told::No(Refusal::Stopped { at: 0 }),
    ),
    (Party::A, Said::Hold(1), 0, Told::No(Refusal::UnknownTrade)),
    (
        Party::C,
        Said::Affirm(2),
        0,
        Told::No(Refusal::UnknownTrade),
    ),
];

// How many lines a call has, and how many entries and what gross they leave.
const CASES: [(usize, (u64, u64)); 5] = [
    (2, (1, 0)),
    (3, (2, 10)),
    (6, (3, 10)),
    (7, (4, 10)),
    (8, (5, 20)),
];

/// What came of a call: no house was opened; or whether the replies are those of a disk that failed in it, and whether some image
/// of a crash holds none of the changes, and some all.
#[derive(Clone, Copy, PartialEq, Eq)]
enum Outcome {
    Unopened,
    Called {
        is_stopped: bool,
        some_without: bool,
        some_with: bool,
    },
}

// Whether some image of a crash holds none of the changes, and some all. None may hold some.
fn held_in(
    rt: &impl Abort,
    alloc: Global,
    images: &[Vec<u8>],
    all: (u64, u64),
) -> Result<(bool, bool), Fail> {
    let mut some_without = false;
    let mut some_with = false;
    for image in images {
        if is_found_on(rt, alloc, TracedDisk::new(alloc, image, 0)?, (0, 0))? {
            some_without = true;
        } else if is_found_on(rt, alloc, TracedDisk::new(alloc, image, 0)?, all)? {
            some_with = true;
        } else {
            return Err(Fail::new("some of them came, and not all"));
        }
    }
    Ok((some_without, some_with))
}

// What comes of a call of the first so many lines, where the disk fails in its call with this number.
fn outcome_of(
    rt: &impl Abort,
    alloc: Global,
    lines: usize,
    all: (u64, u64),
    call: u64,
) -> Result<Outcome, Fail> {
    let (Some(asked), Some(failed)) = (ASKED.get(..lines), FAILED.get(..lines)) else {
        return Err(Fail::new("there are not so many lines"));
    };
    let disk = TracedDisk::new(alloc, &BEGUN_TURNED, call)?;
    let Some(left) = left_by(rt, alloc, disk, asked)? else {
        return Ok(Outcome::Unopened);
    };
    let is_stopped = left.is_stopped;
    if !are_told(&left.replies, if is_stopped { failed } else { asked }) {
        return Err(Fail::new("a reply is another"));
    }
    let images = left.disk.torn_images()?;
    let (some_without, some_with) = held_in(rt, alloc, &images, all)?;
    Ok(Outcome::Called {
        is_stopped,
        some_without,
        some_with,
    })
}

// Opening the house has two calls of the disk, and the append four, whatever it holds: in the first two of these no image has any of
// the changes, and in the others each has none or all.
fn due(call: u64) -> Outcome {
    match call {
        0 => called(false, false, true),
        1 | 2 => Outcome::Unopened,
        3 | 4 => called(true, true, false),
        _ => called(true, true, true),
    }
}

fn called(is_stopped: bool, some_without: bool, some_with: bool) -> Outcome {
    Outcome::Called {
        is_stopped,
        some_without,
        some_with,
    }
}

// Whether a call of so many lines comes to what it has to, without a fault and with one in each call of the disk.
fn is_whole(rt: &impl Abort, alloc: Global, lines: usize, all: (u64, u64)) -> Result<bool, Fail> {
    for call in 0..=6 {
        if outcome_of(rt, alloc, lines, all, call)? != due(call) {
            return Ok(false);
        }
    }
    Ok(true)
}

#[test]
fn a_call_is_made_whole_or_not_at_all(rt: HostRuntime) -> Result<(), Fail> {
    for (lines, all) in CASES {
        assert!(rt; is_whole(&rt, rt.alloc(), lines, all)?, "{lines} lines");
    }
    Ok(())
}

// How many of these a house on a new journal answers in one call, as they say.
fn front_of(rt: &impl Abort, alloc: Global, steps: &[Step]) -> Result<usize, Fail> {
    let disk = TracedDisk::new(alloc, &BEGUN_TURNED, 0)?;
    let Some(left) = left_by(rt, alloc, disk, steps)? else {
        return Err(Fail::new("the house was not opened"));
    };
    let count = left.replies.len();
    match steps.get(..count) {
        Some(front) if are_told(&left.replies, front) => Ok(count),
        _ => Err(Fail::new("a reply is another")),
    }
}

// A command that is asked alone, behind others,
const BEHIND: [Step; 4] = [
    (Party::A, Said::Trade(Party::B), 1, Told::Done),
    (Party::Operator, Said::Nets, 1, Told::Gross(0)),
    (Party::Operator, Said::Freeze, 2, Told::Done),
    (Party::B, Said::Affirm(1), 3, Told::Done),
];

// and first.
const ALONE: [Step; 1] = [(Party::Operator, Said::Freeze, 1, Told::Done)];

#[test]
fn a_call_ends_before_a_command_that_is_asked_alone(rt: HostRuntime) -> Result<(), Fail> {
    let alloc = rt.alloc();
    let behind = front_of(&rt, alloc, &BEHIND)?;
    let alone = front_of(&rt, alloc, &ALONE)?;
    let none = front_of(&rt, alloc, &[])?;
    assert!(rt;
        (behind, alone, none) == (2, 0, 0),
        "{behind}, {alone} and {none}"
    );
    Ok(())
}
