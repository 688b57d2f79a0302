//! The form `follow` over a primary's replies: what it asks, its status, and what its journal holds.

use crate::program::{SCRIPT, Text, Trial, so};
use std::alloc::AllocGlobal;
use std::sync::Wait;
use std::test::Fail;
use std::thread::Threads;

// A standby on no journal, whose primary says nothing.
const FOLLOW: Trial<'static> = Trial {
    words: &["follow", "T", "s", "OPS", "KO"],
    status: 13,
    output: Text::Is(b"HELLO OPS KO\n"),
    errors: b"peer broken at 0\n",
    ..SCRIPT
};

// A primary with TRADE A B P 10 2026-03-02 by A and AFFIRM 1 by B, at moment 0.
const WHOLE: &[u8] =
    b"ok 2 hello OPS\nok 2 entry 1 33\n\0\0\0\0\0\0\0\0\0\0\0\0\x01A\x01\x01A\x01B\x01P\x0a\0\0\0\0\0\0\0\xea\x07\x03\x02\nok 2 entry 2 23\n\0\0\0\0\0\0\0\0\0\0\0\0\x01B\x02\x01\0\0\0\0\0\0\0\nok 2 none\n";

const TWICE: &[u8] =
    b"ok 2 hello OPS\nok 2 entry 1 33\n\0\0\0\0\0\0\0\0\0\0\0\0\x01A\x01\x01A\x01B\x01P\x0a\0\0\0\0\0\0\0\xea\x07\x03\x02\nok 2 entry 1 33\n\0\0\0\0\0\0\0\0\0\0\0\0\x01A\x01\x01A\x01B\x01P\x0a\0\0\0\0\0\0\0\xea\x07\x03\x02\n";

const ASKED_ALL: &[u8] = b"HELLO OPS KO\nNEXT 0\nNEXT 1\nNEXT 2\nBYE\n";

// The first read gives all that there is, and each line is a write.
const ENDS: &[Trial<'static>] = &[
    FOLLOW,
    Trial {
        input: b"no 0 2 bad-key\n",
        status: 12,
        errors: b"peer refused 2\n",
        ..FOLLOW
    },
    Trial {
        input: b"ok 1000 hello OPS\nno 1000 31 gone 1000\n",
        status: 12,
        output: Text::Is(b"HELLO OPS KO\nNEXT 0\n"),
        errors: b"peer refused 31\n",
        ..FOLLOW
    },
    Trial {
        input: TWICE,
        output: Text::Is(b"HELLO OPS KO\nNEXT 0\nNEXT 1\n"),
        errors: b"peer broken at 65\n",
        ..FOLLOW
    },
    Trial {
        input: WHOLE,
        failing_read: 1,
        status: 4,
        errors: b"source fault\n",
        ..FOLLOW
    },
    Trial {
        input: WHOLE,
        failing_write: 2,
        status: 5,
        errors: b"sink fault\n",
        ..FOLLOW
    },
    Trial {
        input: WHOLE,
        failing_call: 1,
        status: 6,
        output: Text::Is(b""),
        errors: b"disk fault\n",
        ..FOLLOW
    },
    Trial {
        input: WHOLE,
        disk: b"OTCJRNL1\x01\x19",
        status: 7,
        output: Text::Is(b""),
        errors: b"damaged at 8\n",
        ..FOLLOW
    },
    Trial {
        words: &["follow", "T", "s", "OPS"],
        status: 2,
        output: Text::Is(b""),
        errors: b"bad words\n",
        ..FOLLOW
    },
    Trial {
        words: &["follow", "T", "s", "ops", "KO"],
        status: 2,
        output: Text::Is(b""),
        errors: b"bad words\n",
        ..FOLLOW
    },
    Trial {
        words: &["follow", "T", "s", "OPS", "KO", "--compare=1"],
        status: 2,
        output: Text::Is(b""),
        errors: b"bad words\n",
        ..FOLLOW
    },
    Trial {
        words: &["script", "T", "s", "--compare"],
        status: 2,
        output: Text::Is(b""),
        errors: b"bad words\n",
        ..FOLLOW
    },
];

// That a standby that took both entries has a journal of so many bytes, from which a script goes on.
fn keeps_what_it_takes<R: Threads + Wait + Sync + AllocGlobal>(rt: &R) -> Result<(), Fail> {
    let standby = Trial {
        input: WHOLE,
        status: 0,
        output: Text::Is(ASKED_ALL),
        errors: b"",
        ..FOLLOW
    };
    let left = standby.left(rt)?;
    so(left.synced.len() == 109, "its journal has another length")?;
    let replies = b"ok 2 hello B\nok 2 nets 0 10 -10\n";
    left.goes_on(rt, b"HELLO B KB\nNETS P\n", (replies, replies))
}

#[test]
fn a_standby_ends_by_what_its_primary_says(rt: HostRuntime) -> Result<(), Fail> {
    crate::program::all_end(&rt, ENDS)
}

#[test]
fn a_standby_keeps_what_it_takes(rt: HostRuntime) -> Result<(), Fail> {
    keeps_what_it_takes(&rt)
}
