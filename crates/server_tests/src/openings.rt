//! Openings of a journal of one record by each form, with each call of its disk failing in turn.

use crate::journals::{AFFIRM, PLAIN_ONE, PLAIN_TWO};
use crate::program::{SCRIPT, Text, Trial};
use crate::replays::ONE_TEXT;
use std::alloc::AllocGlobal;
use std::sync::Wait;
use std::test::Fail;
use std::thread::Threads;

// A form's words, how many calls of its disk an opening makes, and what is written where none fails. Each form attaches the
// journal, asks for its length and reads it; a script and a service then turn it by two writes, each with its sync.
const FORMS: &[(&[&str], u64, &[u8])] = &[
    (&["script", "T", "j"], 7, b"ok 1 hello A\n"),
    (&["serve", "T", "j", "a"], 7, b"history 1\n"),
    (&["replay", "T", "j"], 3, ONE_TEXT),
];

// An opening of the journal.
const OPENING: Trial<'static> = Trial {
    input: b"HELLO A KA\n",
    disk: PLAIN_ONE,
    ..SCRIPT
};

// That each form finds the one change in a file, and a script goes on behind it.
fn has_what_it_had<R: Threads + Wait + Sync + AllocGlobal>(
    rt: &R,
    file: &[u8],
) -> Result<(), Fail> {
    for &(words, _, written) in FORMS {
        let form = Trial {
            words,
            disk: file,
            output: Text::Is(written),
            ..OPENING
        };
        form.ends(rt)?;
    }
    let script = Trial {
        input: AFFIRM,
        disk: file,
        output: Text::Is(b"ok 1 hello B\nok 2 live 1\nok 2 nets 0 10 -10\n"),
        ..OPENING
    };
    script.leaves(rt, PLAIN_TWO)
}

// That a form whose disk fails at that call tells it, and leaves what it had, where a crash keeps all that was written and where
// it loses what no sync followed.
fn survives<'a, R: Threads + Wait + Sync + AllocGlobal>(
    rt: &R,
    words: &'a [&'a str],
    call: u64,
) -> Result<(), Fail> {
    let form = Trial {
        words,
        failing_call: call,
        status: 6,
        errors: b"disk fault\n",
        ..OPENING
    };
    let left = form.left(rt)?;
    has_what_it_had(rt, &left.written)?;
    has_what_it_had(rt, &left.synced)
}

// And the call behind those of the opening is none of the form's.
fn all_survive<R: Threads + Wait + Sync + AllocGlobal>(rt: &R) -> Result<(), Fail> {
    for &(words, calls, written) in FORMS {
        for call in 1..=calls {
            survives(rt, words, call)?;
        }
        let form = Trial {
            words,
            failing_call: calls.saturating_add(1),
            output: Text::Is(written),
            ..OPENING
        };
        form.ends(rt)?;
    }
    Ok(())
}

#[test]
fn each_call_of_an_opening_that_fails_is_told_and_the_journal_keeps_what_it_had(
    rt: HostRuntime,
) -> Result<(), Fail> {
    all_survive(&rt)
}
