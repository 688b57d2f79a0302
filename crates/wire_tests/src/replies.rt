//! What is read where a reply is due.

use crate::names::named;
use standby_wire::{NoReply, Question, Reply, Stop, reply_to};
use std::alloc::{AllocError, Global};
use std::test::Fail;

/// TRADE A B P 10 2026-03-02 by A from seat 0, with its moment 0.
pub const TRADE: [u8; 33] = [
    0, 0, 0, 0, 0, 0, 0, 0, 0, 0, 0, 0, 1, 0x41, 1, 1, 0x41, 1, 0x42, 1, 0x50, 10, 0, 0, 0, 0, 0,
    0, 0, 0xea, 0x07, 3, 2,
];

// What is read of some bytes, without the entry.
#[derive(Clone, Copy, PartialEq, Eq)]
enum Kind {
    Greeted,
    Entry,
    Nothing,
    Same,
    Refused(u8),
    More,
    Bad,
    Failed,
}

fn kind_of(answer: &Result<Reply, NoReply>) -> Kind {
    match answer {
        Ok(Reply::Greeted) => Kind::Greeted,
        Ok(Reply::Entry(_)) => Kind::Entry,
        Ok(Reply::Nothing) => Kind::Nothing,
        Ok(Reply::Same) => Kind::Same,
        Ok(Reply::Refused { number }) => Kind::Refused(*number),
        Err(NoReply::Stopped(Stop::More)) => Kind::More,
        Err(NoReply::Stopped(Stop::Bad)) => Kind::Bad,
        Err(NoReply::Memory) => Kind::Failed,
    }
}

// Whether this is read as the reply to a question, with so many bytes behind it.
fn is_read(alloc: Global, question: &Question, input: &[u8], expected: Kind, left: usize) -> bool {
    let mut at = 0;
    let answer = reply_to(alloc, input, &mut at, question);
    let is_left = answer.is_err() || at.saturating_add(left) == input.len();
    kind_of(&answer) == expected && is_left
}

// Whether each of these is.
fn are_read(alloc: Global, question: &Question, cases: &[(&[u8], Kind, usize)]) -> bool {
    for &(input, expected, left) in cases {
        if !is_read(alloc, question, input, expected, left) {
            return false;
        }
    }
    true
}

const GREETINGS: &[(&[u8], Kind, usize)] = &[
    (b"ok 2 hello OPS\n", Kind::Greeted, 0),
    (b"ok 1000000000000000000 hello OPS\nok", Kind::Greeted, 2),
    (b"no 0 2 bad-key\n", Kind::Refused(2), 0),
    (b"no 5 3 bad-line 11\n", Kind::Refused(3), 0),
    (b"ok 2 hello O\n", Kind::Bad, 0),
    (b"ok 02 hello OPS\n", Kind::Bad, 0),
    (b"ok 1000000000000000001 hello OPS\n", Kind::Bad, 0),
    (b"ok 2 none\n", Kind::Bad, 0),
    (b"ok 2 hello OPS", Kind::More, 0),
    (b"", Kind::More, 0),
];

#[test]
fn a_greeting_is_read_to_its_byte(rt: HostRuntime) -> Result<(), Fail> {
    let name = named(b"OPS");
    assert!(rt; are_read(rt.alloc(), &Question::Hello { name }, GREETINGS));
    Ok(())
}

const REFUSALS: &[(&[u8], Kind, usize)] = &[
    (b"no 2 14 not-operator\n", Kind::Refused(14), 0),
    (b"no 2 32 ahead 2\nno", Kind::Refused(32), 2),
    (b"no 1000 31 gone 1000\n", Kind::Refused(31), 0),
    (b"no 7 12 wrong-trade-state ended\n", Kind::Refused(12), 0),
    (b"no 7 17 wrong-phase proposed\n", Kind::Refused(17), 0),
    (b"no 7 22 matured 2026-03-02\n", Kind::Refused(22), 0),
    (b"no 7 24 bad-certificate shape\n", Kind::Refused(24), 0),
    (
        b"no 7 24 bad-certificate P slack A B\n",
        Kind::Refused(24),
        0,
    ),
    (b"no 7 24 bad-certificate P net A\n", Kind::Refused(24), 0),
    (b"no 7 28 memory", Kind::More, 0),
    (b"no 7 22 matured 2026-02-30", Kind::Bad, 0),
    (b"no 7 31 a", Kind::Bad, 0),
    (b"no 7 30 ", Kind::Bad, 0),
    (b"no 7 33", Kind::Bad, 0),
];

#[test]
fn a_refusal_has_its_name_and_value(rt: HostRuntime) -> Result<(), Fail> {
    assert!(rt; are_read(rt.alloc(), &Question::Next { position: 3 }, REFUSALS));
    Ok(())
}

const NONES: &[(&[u8], Kind, usize)] = &[
    (b"ok 3 none\nok", Kind::Nothing, 2),
    (b"ok 4 none\n", Kind::Bad, 0),
    (b"ok 3 hello OPS\n", Kind::Bad, 0),
    (b"ok 3 n", Kind::More, 0),
];

#[test]
fn there_is_none_at_the_length_alone(rt: HostRuntime) -> Result<(), Fail> {
    assert!(rt; are_read(rt.alloc(), &Question::Next { position: 3 }, NONES));
    Ok(())
}

// The head line, and what stands behind the record.
const ENTRIES: &[(&[u8], &[u8], Kind, usize)] = &[
    (b"ok 2 entry 1 33\n", b"\n", Kind::Entry, 0),
    (b"ok 9 entry 1 33\n", b"\nok 9 none\n", Kind::Entry, 10),
    (b"ok 2 entry 2 33\n", b"\n", Kind::Bad, 0),
    (b"ok 2 entry 1 33\n", b"", Kind::More, 0),
    (b"ok 2 entry 1 33\n", b"\r\n", Kind::Bad, 0),
    (b"ok 2 entry 1 32\n", b"\n", Kind::Bad, 0),
    (b"ok 2 entry 1 268435457", b"", Kind::Bad, 0),
];

fn are_entries(alloc: Global) -> Result<bool, AllocError> {
    let question = Question::Next { position: 0 };
    for &(head, behind, expected, left) in ENTRIES {
        let mut input = head.to_vec(alloc)?;
        input.extend_from_slice(&TRADE)?;
        input.extend_from_slice(behind)?;
        if !is_read(alloc, &question, &input, expected, left) {
            return Ok(false);
        }
    }
    Ok(true)
}

#[test]
fn an_entry_is_the_next_one_and_whole(rt: HostRuntime) -> Result<(), Fail> {
    assert!(rt; are_entries(rt.alloc())?);
    Ok(())
}
