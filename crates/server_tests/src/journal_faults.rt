//! Scripts of two changes over a journal, each call of whose disk fails in turn.

use crate::program::{SCRIPT, Text, Trial};
use std::alloc::AllocGlobal;
use std::sync::Wait;
use std::test::Fail;
use std::thread::Threads;

const TWO_CHANGES: &[u8] =
    b"HELLO A KA\nTRADE A B P 10 2026-03-02\nTRADE A B P 10 2026-03-02\nNETS P\n";

// What a session finds after so many changes.
const NONE: &[u8] = b"ok 0 hello A\n";

const ONE: &[u8] = b"ok 1 hello A\n";

const TWO: &[u8] = b"ok 2 hello A\n";

// The first and the last of some calls of the disk that fail, the replies then, and what the next session finds: where a crash
// loses what no sync followed, and where it keeps all.
type Fault = (u64, u64, &'static [u8], &'static [u8], &'static [u8]);

// Where the bytes come one by one, each change has its own calls. An opening has the attaching, two calls of a walk, four of a start and four
// of the turn, and a change has four: its record is written and synced, and then its gate.
const FAULTS: &[Fault] = &[
    (1, 11, b"", NONE, NONE),
    (12, 14, STOPPED_AT_FIRST, NONE, NONE),
    (15, 15, STOPPED_AT_FIRST, NONE, ONE),
    (16, 18, STOPPED_AT_SECOND, ONE, ONE),
    (19, 19, STOPPED_AT_SECOND, ONE, TWO),
];

// Where the lines come together, the two changes share four calls: both are found, or none.
const FAULTS_TOGETHER: &[Fault] = &[
    (1, 11, b"", NONE, NONE),
    (12, 14, STOPPED_AT_FIRST, NONE, NONE),
    (15, 15, STOPPED_AT_FIRST, NONE, TWO),
];

const STOPPED_AT_FIRST: &[u8] =
    b"ok 0 hello A\nno 0 27 disk-fault\nno 0 26 stopped 0\nok 0 nets 0 0 0\n";

const STOPPED_AT_SECOND: &[u8] =
    b"ok 0 hello A\nok 1 trade 1\nno 1 27 disk-fault\nok 1 nets 0 0 0\n";

// That a script of which so many bytes come at once ends so at each of these faults.
fn each_call_fails<R: Threads + Wait + Sync + AllocGlobal>(
    rt: &R,
    at_once: usize,
    faults: &[Fault],
) -> Result<(), Fail> {
    for &(first, last, replies, least, most) in faults {
        for call in first..=last {
            let script = Trial {
                input: TWO_CHANGES,
                most: at_once,
                failing_call: call,
                status: 6,
                output: Text::Is(replies),
                errors: b"disk fault\n",
                ..SCRIPT
            };
            script
                .left(rt)?
                .goes_on(rt, b"HELLO A KA\n", (least, most))?;
        }
    }
    Ok(())
}

#[test]
fn each_call_of_the_disk_that_fails_ends_a_script_that_goes_on_later(
    rt: HostRuntime,
) -> Result<(), Fail> {
    each_call_fails(&rt, 1, FAULTS)
}

#[test]
fn changes_that_come_together_are_all_found_or_none(rt: HostRuntime) -> Result<(), Fail> {
    each_call_fails(&rt, 65536, FAULTS_TOGETHER)
}

// The call behind those is none of the script's.
const UNSTOPPED: Trial<'static> = Trial {
    input: TWO_CHANGES,
    most: 1,
    failing_call: 20,
    output: Text::Is(b"ok 0 hello A\nok 1 trade 1\nok 2 trade 2\nok 2 nets 0 0 0\n"),
    ..SCRIPT
};

// And where the lines come together.
const UNSTOPPED_TOGETHER: Trial<'static> = Trial {
    most: 65536,
    failing_call: 16,
    ..UNSTOPPED
};

fn no_call_is_left<R: Threads + Wait + Sync + AllocGlobal>(rt: &R) -> Result<(), Fail> {
    for script in [UNSTOPPED, UNSTOPPED_TOGETHER] {
        script.left(rt)?.goes_on(rt, b"HELLO A KA\n", (TWO, TWO))?;
    }
    Ok(())
}

#[test]
fn a_script_makes_no_call_of_its_disk_behind_its_changes(rt: HostRuntime) -> Result<(), Fail> {
    no_call_is_left(&rt)
}
