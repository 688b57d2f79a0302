//! Inputs and outputs that fail: what was read whole is replied to, what was written stays, and the status tells what failed.

use crate::market_files::{CHECK, SOLVE};
use crate::program::{SCRIPT, Text, Trial, all_end};
use std::alloc::AllocGlobal;
use std::sync::Wait;
use std::test::Fail;
use std::thread::Threads;

// A session that is read one byte at a time, so that each reply is a write of its own.
const TRICKLED: Trial<'static> = Trial {
    input: b"HELLO A KA\nTRADE A B P 10 2026-03-02\nHELLO B KB\nAFFIRM 1\nNETS P\n",
    most: 1,
    output: Text::Is(
        b"ok 0 hello A\nok 1 trade 1\nok 1 hello B\nok 2 live 1\nok 2 nets 0 10 -10\n",
    ),
    ..SCRIPT
};

const BROKEN_OFF: Trial<'static> = Trial {
    status: 4,
    errors: b"source fault\n",
    ..TRICKLED
};

// The first and the last read of each line, and the one behind the last line.
const READS: &[Trial<'static>] = &[
    TRICKLED,
    Trial {
        failing_read: 1,
        output: Text::Is(b""),
        ..BROKEN_OFF
    },
    Trial {
        failing_read: 11,
        output: Text::Is(b""),
        ..BROKEN_OFF
    },
    Trial {
        failing_read: 12,
        output: Text::Is(b"ok 0 hello A\n"),
        ..BROKEN_OFF
    },
    Trial {
        failing_read: 37,
        output: Text::Is(b"ok 0 hello A\n"),
        ..BROKEN_OFF
    },
    Trial {
        failing_read: 38,
        output: Text::Is(b"ok 0 hello A\nok 1 trade 1\n"),
        ..BROKEN_OFF
    },
    Trial {
        failing_read: 48,
        output: Text::Is(b"ok 0 hello A\nok 1 trade 1\n"),
        ..BROKEN_OFF
    },
    Trial {
        failing_read: 49,
        output: Text::Is(b"ok 0 hello A\nok 1 trade 1\nok 1 hello B\n"),
        ..BROKEN_OFF
    },
    Trial {
        failing_read: 57,
        output: Text::Is(b"ok 0 hello A\nok 1 trade 1\nok 1 hello B\n"),
        ..BROKEN_OFF
    },
    Trial {
        failing_read: 58,
        output: Text::Is(b"ok 0 hello A\nok 1 trade 1\nok 1 hello B\nok 2 live 1\n"),
        ..BROKEN_OFF
    },
    Trial {
        failing_read: 64,
        output: Text::Is(b"ok 0 hello A\nok 1 trade 1\nok 1 hello B\nok 2 live 1\n"),
        ..BROKEN_OFF
    },
    Trial {
        failing_read: 65,
        output: Text::Is(
            b"ok 0 hello A\nok 1 trade 1\nok 1 hello B\nok 2 live 1\nok 2 nets 0 10 -10\n",
        ),
        ..BROKEN_OFF
    },
];

#[test]
fn a_read_that_fails_ends_the_session_after_its_whole_lines(rt: HostRuntime) -> Result<(), Fail> {
    all_end(&rt, READS)
}

const UNWRITTEN: Trial<'static> = Trial {
    status: 5,
    errors: b"sink fault\n",
    ..TRICKLED
};

const WRITES: &[Trial<'static>] = &[
    Trial {
        failing_write: 1,
        output: Text::Is(b""),
        ..UNWRITTEN
    },
    Trial {
        failing_write: 2,
        output: Text::Is(b"ok 0 hello A\n"),
        ..UNWRITTEN
    },
    Trial {
        failing_write: 3,
        output: Text::Is(b"ok 0 hello A\nok 1 trade 1\n"),
        ..UNWRITTEN
    },
    Trial {
        failing_write: 4,
        output: Text::Is(b"ok 0 hello A\nok 1 trade 1\nok 1 hello B\n"),
        ..UNWRITTEN
    },
    Trial {
        failing_write: 5,
        output: Text::Is(b"ok 0 hello A\nok 1 trade 1\nok 1 hello B\nok 2 live 1\n"),
        ..UNWRITTEN
    },
];

#[test]
fn a_write_that_fails_ends_the_session_before_its_reply(rt: HostRuntime) -> Result<(), Fail> {
    all_end(&rt, WRITES)
}

// A trial, and a front of what it writes. That of the market of number 1 are the figures of the trades that `bench/markets.py`
// draws, and the least gross that LEMON's network simplex finds (`bench/lemon.cpp`).
const FRONTS: &[(Trial<'static>, &[u8])] = &[
    (
        Trial {
            most: 65536,
            ..TRICKLED
        },
        b"ok 0 hello A\nok 1 trade 1\nok 1 hello B\nok 2 live 1\nok 2 nets 0 10 -10\n",
    ),
    (
        SOLVE,
        b"product P 20 10 10 20\nrow A B 5\nrow D C 5\npot A ",
    ),
    (CHECK, b"yes\n"),
    (
        Trial {
            words: &["gen", "1"],
            ..CHECK
        },
        b"product P0 168203067 48514897 40138457 147381551\n",
    ),
];

// Each room that is smaller than the front leaves a front of it.
fn fronts_are_kept<R: Threads + Wait + Sync + AllocGlobal>(rt: &R) -> Result<(), Fail> {
    for &(trial, text) in FRONTS {
        for room in 0..text.len() {
            let cut = Trial {
                room,
                status: 5,
                output: Text::Is(&text[..room]),
                errors: b"sink fault\n",
                ..trial
            };
            cut.ends(rt)?;
        }
    }
    Ok(())
}

#[test]
fn an_output_without_room_keeps_a_front(rt: HostRuntime) -> Result<(), Fail> {
    fronts_are_kept(&rt)
}
