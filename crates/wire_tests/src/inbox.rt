//! Replies as they come from a source.

use crate::names::named;
use crate::replies::TRADE;
use outside::{MemorySource, Source};
use standby_wire::{Hearing, Inbox, Question, Reply, WaitFault};
use std::alloc::{AllocError, Global};
use std::test::Fail;

// What a wait came to, without the entry.
#[derive(Clone, Copy, PartialEq, Eq)]
enum Outcome {
    Greeted,
    Entry,
    Nothing,
    Same,
    Refused(u8),
    Broken(u64),
    SourceFault,
    Memory,
}

fn outcome_of(answer: &Result<Reply, WaitFault>) -> Outcome {
    match answer {
        Ok(Reply::Greeted) => Outcome::Greeted,
        Ok(Reply::Entry(_)) => Outcome::Entry,
        Ok(Reply::Nothing) => Outcome::Nothing,
        Ok(Reply::Same) => Outcome::Same,
        Ok(Reply::Refused { number }) => Outcome::Refused(*number),
        Err(WaitFault::Broken { at }) => Outcome::Broken(*at),
        Err(WaitFault::SourceFault) => Outcome::SourceFault,
        Err(WaitFault::Memory) => Outcome::Memory,
    }
}

// A source of these bytes, whose call with this number fails.
fn source_of(alloc: Global, input: &[u8], failing: u64) -> Result<MemorySource, AllocError> {
    let mut source = MemorySource::new(alloc, input)?;
    source.fail_at(failing)?;
    Ok(source)
}

// Whether the waits for the replies to questions about these positions come to these.
fn come_to<S: Source>(alloc: Global, source: &mut S, cases: &[(u64, Outcome)]) -> bool {
    let mut inbox = Inbox::new(alloc);
    for &(position, expected) in cases {
        if outcome_of(&inbox.wait(source, &Question::Next { position })) != expected {
            return false;
        }
    }
    true
}

// The input, the call of the source that fails, and what the waits come to.
const FAULTS: &[(&[u8], u64, &[(u64, Outcome)])] = &[
    (
        b"ok 2 none\n",
        2,
        &[
            (2, Outcome::Nothing),
            (2, Outcome::SourceFault),
            (2, Outcome::Broken(10)),
        ],
    ),
    (
        b"ok 2 nonen",
        2,
        &[(2, Outcome::Broken(0)), (2, Outcome::Broken(0))],
    ),
    (
        b"ok 2 non",
        2,
        &[(2, Outcome::SourceFault), (2, Outcome::Broken(0))],
    ),
    (
        b"ok 2 none\n",
        1,
        &[(2, Outcome::SourceFault), (2, Outcome::Nothing)],
    ),
    (
        b"no 2 31 gone 7\nok 9 none\n",
        9,
        &[(2, Outcome::Refused(31)), (9, Outcome::Nothing)],
    ),
];

fn faults_are_told(alloc: Global) -> Result<bool, AllocError> {
    for &(input, failing, cases) in FAULTS {
        let mut source = source_of(alloc, input, failing)?;
        if !come_to(alloc, &mut source, cases) {
            return Ok(false);
        }
    }
    Ok(true)
}

#[test]
fn a_fault_of_the_source_is_told_where_more_is_due(rt: HostRuntime) -> Result<(), Fail> {
    assert!(rt; faults_are_told(rt.alloc())?);
    Ok(())
}

// Whether so many replies of ten bytes are read, which end within pieces and across them, and then the input has ended.
fn many_are_read(alloc: Global, count: u64) -> Result<bool, AllocError> {
    let mut input = Vec::new(alloc);
    for _ in 0..count {
        input.extend_from_slice(b"ok 2 none\n")?;
    }
    let mut source = source_of(alloc, &input, 0)?;
    let mut inbox = Inbox::new(alloc);
    let question = Question::Next { position: 2 };
    for _ in 0..count {
        if outcome_of(&inbox.wait(&mut source, &question)) != Outcome::Nothing {
            return Ok(false);
        }
    }
    let end = outcome_of(&inbox.wait(&mut source, &question));
    Ok(end == Outcome::Broken(count.saturating_mul(10)))
}

#[test]
fn replies_go_across_pieces(rt: HostRuntime) -> Result<(), Fail> {
    assert!(rt; many_are_read(rt.alloc(), 1000)?);
    Ok(())
}

// A greeting of 15 bytes, an entry of 50, and the same entry again.
fn a_session(alloc: Global) -> Result<Vec<u8>, AllocError> {
    let mut input = b"ok 2 hello OPS\n".to_vec(alloc)?;
    for _ in 0..2 {
        input.extend_from_slice(b"ok 2 entry 1 33\n")?;
        input.extend_from_slice(&TRADE)?;
        input.extend_from_slice(b"\n")?;
    }
    Ok(input)
}

// Whether each question comes to this, and the next reply is due there.
fn is_heard(alloc: Global) -> Result<bool, AllocError> {
    let cases = [
        (
            Question::Hello {
                name: named(b"OPS"),
            },
            Outcome::Greeted,
            15,
        ),
        (Question::Next { position: 0 }, Outcome::Entry, 65),
        (Question::Next { position: 1 }, Outcome::Broken(65), 65),
    ];
    let input = a_session(alloc)?;
    let mut source = source_of(alloc, &input, 0)?;
    let mut hearing = Hearing::new(alloc, &source);
    for (question, expected, due) in &cases {
        if outcome_of(&hearing.ask(&mut source, question)) != *expected || hearing.due() != *due {
            return Ok(false);
        }
    }
    Ok(source.read(&mut [0; 1]) == Ok(0))
}

#[test]
fn an_entry_that_comes_again_is_broken_where_it_is_due(rt: HostRuntime) -> Result<(), Fail> {
    assert!(rt; is_heard(rt.alloc())?);
    Ok(())
}
