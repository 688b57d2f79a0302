//! Replays: what a journal stands for, byte for byte, and what each damage of it is told. The journal stays as it is.

use crate::journals::{BEGUN_ONE, ONE, PLAIN_ONE};
use crate::program::{SCRIPT, Text, Trial};
use crate::torn_cycles::with_other;
use std::alloc::AllocGlobal;
use std::sync::Wait;
use std::test::Fail;
use std::thread::Threads;

// A plain journal of one change with another byte at the last gate, and at the first one.
const ENDED_BY_SEVEN: &[u8] =
    b"OTCJRNL1\x01\x19\0\0\0\0\0\0\0\x01A\x01\x01A\x01B\x01P\x0a\0\0\0\0\0\0\0\xea\x07\x03\x02\x07";

const BEGUN_BY_SEVEN: &[u8] =
    b"OTCJRNL1\x07\x19\0\0\0\0\0\0\0\x01A\x01\x01A\x01B\x01P\x0a\0\0\0\0\0\0\0\xea\x07\x03\x02\0";

// C's command TRADE A B P 10 2026-03-02, which is no trade of C.
const REFUSED: &[u8] =
    b"OTCJRNL1\x01\x19\0\0\0\0\0\0\0\x01C\x01\x01A\x01B\x01P\x0a\0\0\0\0\0\0\0\xea\x07\x03\x02\0";

/// A base at 33, which slot 1 has: position 7, two cycles, three versions, the roster's names, A's setting of at least 5 and at most
/// 9 that it sells to C, and a live trade of A and B that B holds. Slot 0 names a place that has none.
pub const BASED: &[u8] =
    b"OTCJRNLC\x01\x19\0\0\0\0\0\0\0\x21\0\0\0\0\0\0\0\xff\xff\xff\xff\xff\xff\xff\xff\x63\0\0\0\x01\x07\0\0\0\0\0\0\0\x02\0\0\0\0\0\0\0\x03\0\0\0\0\0\0\0\x03\0\x01A\x01B\x01C\x01\0\x01P\x01\0\0\0\0\0\0\0\0\0\0\0\x02\0\0\x05\0\0\0\0\0\0\0\x01\x09\0\0\0\0\0\0\0\x01\0\0\0\0\0\0\0\0\0\x01\0\0\0\x0a\0\0\0\0\0\0\0\xea\x07\x03\x02\x01\x01\0\x02\0";

const BASED_TEXT: &[u8] =
    b"member A 1\ntrade 1 A B P 10 2026-03-02 live held\nmember B 1\ntrade 1 A B P 10 2026-03-02 live held\nmember C 0\nend 7\n";

/// What is told of the one change without a moment.
pub const ONE_TEXT: &[u8] =
    b"member A 1\ntrade 1 A B P 10 2026-03-02 alleged -\nmember B 1\ntrade 1 A B P 10 2026-03-02 alleged -\nmember C 0\nend 1\n";

const NONE_TEXT: &[u8] = b"member A 0\nmember B 0\nmember C 0\nend 0\n";

// A replay of no journal. The first read of an input would fail, but there is none.
const REPLAY: Trial<'static> = Trial {
    words: &["replay", "T", "j"],
    failing_read: 1,
    ..SCRIPT
};

// That a replay of these bytes ends so, and leaves them. A script is told the same damage, and leaves them too.
fn is_told<'a, R: Threads + Wait + Sync + AllocGlobal>(
    rt: &R,
    disk: &'a [u8],
    status: u8,
    text: &'a [u8],
    told: &'a [u8],
) -> Result<(), Fail> {
    let replay = Trial {
        disk,
        status,
        output: Text::Is(text),
        errors: told,
        ..REPLAY
    };
    replay.leaves(rt, disk)?;
    if status == 0 {
        return Ok(());
    }
    let script = Trial {
        words: SCRIPT.words,
        ..replay
    };
    script.leaves(rt, disk)
}

// A journal's first bytes, so many of them, and what a replay of them ends with.
const JOURNALS: &[(&[u8], usize, u8, &[u8], &[u8])] = &[
    (b"", 0, 0, NONE_TEXT, b""),
    (b"OTCJRNL1\0", 9, 0, NONE_TEXT, b""),
    (b"OTCJRNLC\0\xff\xff\xff", 12, 0, NONE_TEXT, b""),
    (BEGUN_ONE, 60, 0, ONE_TEXT, b""),
    (BEGUN_ONE, 30, 0, NONE_TEXT, b""),
    (BEGUN_ONE, 31, 7, b"", b"damaged at 29\n"),
    (BEGUN_ONE, 58, 7, b"", b"damaged at 29\n"),
    (BEGUN_ONE, 59, 7, b"", b"damaged at 59\n"),
    (ONE, 81, 0, ONE_TEXT, b""),
    (ONE, 42, 7, b"", b"damaged at 42\n"),
    (ONE, 80, 7, b"", b"damaged at 80\n"),
    (PLAIN_ONE, 39, 0, ONE_TEXT, b""),
    (ENDED_BY_SEVEN, 39, 0, ONE_TEXT, b""),
    (BEGUN_BY_SEVEN, 39, 0, NONE_TEXT, b""),
    (BEGUN_BY_SEVEN, 30, 0, NONE_TEXT, b""),
    (PLAIN_ONE, 9, 0, NONE_TEXT, b""),
    (PLAIN_ONE, 10, 7, b"", b"damaged at 8\n"),
    (PLAIN_ONE, 37, 7, b"", b"damaged at 8\n"),
    (PLAIN_ONE, 38, 7, b"", b"damaged at 38\n"),
    (REFUSED, 39, 7, b"", b"damaged at 8\n"),
    (b"OTCJRNL2\0\0", 10, 7, b"", b"damaged at 0\n"),
    (BASED, 137, 0, BASED_TEXT, b""),
    (BASED, 136, 7, b"", b"damaged at 136\n"),
    (BASED, 135, 7, b"", b"damaged at 33\n"),
    (BASED, 36, 7, b"", b"damaged at 33\n"),
    (BASED, 31, 7, b"", b"damaged at 33\n"),
];

fn all_are_told<R: Threads + Wait + Sync + AllocGlobal>(rt: &R) -> Result<(), Fail> {
    for &(bytes, size, status, text, told) in JOURNALS {
        let front = bytes.get(..size).unwrap_or(bytes);
        is_told(rt, front, status, text, told)?;
    }
    Ok(())
}

#[test]
fn a_replay_tells_what_the_journal_stands_for_or_its_damage(rt: HostRuntime) -> Result<(), Fail> {
    all_are_told(&rt)
}

// A byte of it that is another one, and what is told. The slot that is not selected means nothing, and a base may have either mark.
// The other slot, the selector, and each field of a base that is spelled otherwise, or fits no roster with these names, are damage
// where the base stands.
const CHANGED: &[(usize, u8, u8, &[u8])] = &[
    (8, 2, 7, b"damaged at 25\n"),
    (9, 7, 0, b""),
    (17, 24, 7, b"damaged at 24\n"),
    (24, 0xff, 7, b"damaged at 18374686479671623713\n"),
    (33, 0x62, 7, b"damaged at 33\n"),
    (36, 0xff, 7, b"damaged at 33\n"),
    (37, 2, 0, b""),
    (37, 3, 7, b"damaged at 33\n"),
    (45, 0xff, 7, b"damaged at 33\n"),
    (53, 0xff, 7, b"damaged at 33\n"),
    (61, 0xff, 7, b"damaged at 33\n"),
    (62, 2, 7, b"damaged at 33\n"),
    (65, b'D', 7, b"damaged at 33\n"),
    (73, b'Q', 7, b"damaged at 33\n"),
    (82, 3, 7, b"damaged at 33\n"),
    (86, 0, 7, b"damaged at 33\n"),
    (98, 4, 7, b"damaged at 33\n"),
    (113, 0xff, 7, b"damaged at 33\n"),
    (114, 1, 7, b"damaged at 33\n"),
    (118, 1, 7, b"damaged at 33\n"),
    (120, 0, 7, b"damaged at 33\n"),
    (130, 13, 7, b"damaged at 33\n"),
    (132, 0, 7, b"damaged at 33\n"),
    (133, 3, 7, b"damaged at 33\n"),
    (135, 4, 7, b"damaged at 33\n"),
    (136, 1, 7, b"damaged at 136\n"),
];

fn changes_are_told<R: Threads + Wait + Sync + AllocGlobal>(rt: &R) -> Result<(), Fail> {
    for &(place, other, status, told) in CHANGED {
        let changed = with_other(rt.alloc(), BASED, place, other)?;
        let text: &[u8] = if status == 0 { BASED_TEXT } else { b"" };
        is_told(rt, &changed, status, text, told)?;
    }
    Ok(())
}

#[test]
fn a_base_that_is_changed_is_damage_where_it_stands(rt: HostRuntime) -> Result<(), Fail> {
    changes_are_told(&rt)
}

// Each of the three calls of a disk that a replay makes: it is attached, its length is asked for, and it is read.
const CALL_FAILS: Trial<'static> = Trial {
    disk: BEGUN_ONE,
    status: 6,
    errors: b"disk fault\n",
    ..REPLAY
};

const FAULTS: &[Trial<'static>] = &[
    Trial {
        failing_call: 1,
        ..CALL_FAILS
    },
    Trial {
        failing_call: 2,
        ..CALL_FAILS
    },
    Trial {
        failing_call: 3,
        ..CALL_FAILS
    },
    // An output with less room, which keeps a front of the text.
    Trial {
        room: 22,
        status: 5,
        output: Text::Is(b"member A 1\ntrade 1 A B"),
        errors: b"sink fault\n",
        ..CALL_FAILS
    },
];

fn faults_are_told<R: Threads + Wait + Sync + AllocGlobal>(rt: &R) -> Result<(), Fail> {
    for fault in FAULTS {
        fault.leaves(rt, BEGUN_ONE)?;
    }
    Ok(())
}

#[test]
fn a_disk_or_an_output_that_fails_is_told_and_the_journal_stays(
    rt: HostRuntime,
) -> Result<(), Fail> {
    faults_are_told(&rt)
}
