//! Rolls: the journal with which a market goes on over a new roster, byte for byte, and why there is none. The old journal stays.

use crate::journals::BEGUN_ONE;
use crate::program::{ROSTER, SCRIPT, Text, Trial};
use crate::replays::BASED;
use std::alloc::AllocGlobal;
use std::sync::Wait;
use std::test::Fail;
use std::thread::Threads;

// The names of `ROSTER` behind new ones, and B before A. A has another key, and P matures later.
const GROWN: &[u8] =
    b"name,role,key\nD,customer,KD\nB,dealer,KB\nA,dealer,KX\nC,dealer,KC\nOPS,operator,KO\nQ,product,2031-06-30\nP,product,2032-06-30\n";

const WITHOUT_B: &[u8] = b"name,role,key\nA,dealer,KA\nC,dealer,KC\nP,product,2031-06-30\n";

const CUSTOMER_B: &[u8] =
    b"name,role,key\nA,dealer,KA\nB,customer,KB\nC,dealer,KC\nP,product,2031-06-30\n";

const WITHOUT_P: &[u8] = b"name,role,key\nA,dealer,KA\nB,dealer,KB\nC,dealer,KC\n";

const EARLY_P: &[u8] =
    b"name,role,key\nA,dealer,KA\nB,dealer,KB\nC,dealer,KC\nP,product,2026-03-02\n";

const NEXT_P: &[u8] =
    b"name,role,key\nA,dealer,KA\nB,dealer,KB\nC,dealer,KC\nP,product,2026-03-03\n";

const TWICE: &[u8] = b"name,role,key\nA,dealer,KA\nA,dealer,KB\n";

// `BASED` over `GROWN`: position 8, with the setting and the trade at their new places.
const GROWN_JOURNAL: &[u8] =
    b"OTCJRNLC\0\x19\0\0\0\0\0\0\0\0\0\0\0\0\0\0\0\x67\0\0\0\x02\x08\0\0\0\0\0\0\0\x02\0\0\0\0\0\0\0\x03\0\0\0\0\0\0\0\x04\0\x01D\x01B\x01A\x01C\x02\0\x01Q\x01P\x01\0\0\0\0\0\0\0\x02\0\x01\0\x03\0\0\x05\0\0\0\0\0\0\0\x01\x09\0\0\0\0\0\0\0\x01\0\0\0\0\0\0\0\x02\0\x01\0\x01\0\x0a\0\0\0\0\0\0\0\xea\x07\x03\x02\x01\x01\0\x02\0";

// The same over `ROSTER` again.
const SAME_JOURNAL: &[u8] =
    b"OTCJRNLC\0\x19\0\0\0\0\0\0\0\0\0\0\0\0\0\0\0\x63\0\0\0\x02\x08\0\0\0\0\0\0\0\x02\0\0\0\0\0\0\0\x03\0\0\0\0\0\0\0\x03\0\x01A\x01B\x01C\x01\0\x01P\x01\0\0\0\0\0\0\0\0\0\0\0\x02\0\0\x05\0\0\0\0\0\0\0\x01\x09\0\0\0\0\0\0\0\x01\0\0\0\0\0\0\0\0\0\x01\0\0\0\x0a\0\0\0\0\0\0\0\xea\x07\x03\x02\x01\x01\0\x02\0";

// That one, rolled again: one position further.
const NEXT_JOURNAL: &[u8] =
    b"OTCJRNLC\0\x19\0\0\0\0\0\0\0\0\0\0\0\0\0\0\0\x63\0\0\0\x02\x09\0\0\0\0\0\0\0\x02\0\0\0\0\0\0\0\x03\0\0\0\0\0\0\0\x03\0\x01A\x01B\x01C\x01\0\x01P\x01\0\0\0\0\0\0\0\0\0\0\0\x02\0\0\x05\0\0\0\0\0\0\0\x01\x09\0\0\0\0\0\0\0\x01\0\0\0\0\0\0\0\0\0\x01\0\0\0\x0a\0\0\0\0\0\0\0\xea\x07\x03\x02\x01\x01\0\x02\0";

// Without the trade of P, which has matured. The setting stays.
const MATURED_JOURNAL: &[u8] =
    b"OTCJRNLC\0\x19\0\0\0\0\0\0\0\0\0\0\0\0\0\0\0\x4d\0\0\0\x02\x08\0\0\0\0\0\0\0\x02\0\0\0\0\0\0\0\x03\0\0\0\0\0\0\0\x03\0\x01A\x01B\x01C\x01\0\x01P\x01\0\0\0\0\0\0\0\0\0\0\0\x02\0\0\x05\0\0\0\0\0\0\0\x01\x09\0\0\0\0\0\0\0\0\0\0\0\0\0\0\0\0";

// Position 1, no cycles, no settings and no trades.
const NONE_JOURNAL: &[u8] =
    b"OTCJRNLC\0\x19\0\0\0\0\0\0\0\0\0\0\0\0\0\0\0\x35\0\0\0\x02\x01\0\0\0\0\0\0\0\0\0\0\0\0\0\0\0\0\0\0\0\0\0\0\0\x03\0\x01A\x01B\x01C\x01\0\x01P\0\0\0\0\0\0\0\0\0\0\0\0\0\0\0\0\0";

// Behind a FREEZE, a CANCEL and a roll: position 10, and cycle 3 without a version.
const FROZEN_JOURNAL: &[u8] =
    b"OTCJRNLC\0\x19\0\0\0\0\0\0\0\0\0\0\0\0\0\0\0\x63\0\0\0\x02\x0a\0\0\0\0\0\0\0\x03\0\0\0\0\0\0\0\0\0\0\0\0\0\0\0\x03\0\x01A\x01B\x01C\x01\0\x01P\x01\0\0\0\0\0\0\0\0\0\0\0\x02\0\0\x05\0\0\0\0\0\0\0\x01\x09\0\0\0\0\0\0\0\x01\0\0\0\0\0\0\0\0\0\x01\0\0\0\x0a\0\0\0\0\0\0\0\xea\x07\x03\x02\x01\x01\0\x02\0";

// Behind a BEGIN too.
const BEGUN_JOURNAL: &[u8] =
    b"OTCJRNLC\0\x19\0\0\0\0\0\0\0\0\0\0\0\0\0\0\0\x63\0\0\0\x02\x0b\0\0\0\0\0\0\0\x03\0\0\0\0\0\0\0\x01\0\0\0\0\0\0\0\x03\0\x01A\x01B\x01C\x01\0\x01P\x01\0\0\0\0\0\0\0\0\0\0\0\x02\0\0\x05\0\0\0\0\0\0\0\x01\x09\0\0\0\0\0\0\0\x01\0\0\0\0\0\0\0\0\0\x01\0\0\0\x0a\0\0\0\0\0\0\0\xea\x07\x03\x02\x01\x01\0\x02\0";

// Where A asked to end the trade while it was frozen.
const MARKED_JOURNAL: &[u8] =
    b"OTCJRNLC\0\x19\0\0\0\0\0\0\0\0\0\0\0\0\0\0\0\x63\0\0\0\x02\x0b\0\0\0\0\0\0\0\x03\0\0\0\0\0\0\0\0\0\0\0\0\0\0\0\x03\0\x01A\x01B\x01C\x01\0\x01P\x01\0\0\0\0\0\0\0\0\0\0\0\x02\0\0\x05\0\0\0\0\0\0\0\x01\x09\0\0\0\0\0\0\0\x01\0\0\0\0\0\0\0\0\0\x01\0\0\0\x0a\0\0\0\0\0\0\0\xea\x07\x03\x02\x01\x01\x01\x02\0";

// Where it ended.
const BROKEN_JOURNAL: &[u8] =
    b"OTCJRNLC\0\x19\0\0\0\0\0\0\0\0\0\0\0\0\0\0\0\x4d\0\0\0\x02\x0c\0\0\0\0\0\0\0\x03\0\0\0\0\0\0\0\0\0\0\0\0\0\0\0\x03\0\x01A\x01B\x01C\x01\0\x01P\x01\0\0\0\0\0\0\0\0\0\0\0\x02\0\0\x05\0\0\0\0\0\0\0\x01\x09\0\0\0\0\0\0\0\0\0\0\0\0\0\0\0\0";

// The words of a roll; with the day before that on which P matures in `ROSTER`; with that day.
const PLAIN: &[&str] = &["roll", "T", "j", "N"];

const BEFORE: &[&str] = &["roll", "T", "j", "N", "--matured", "2031-06-29"];

const MATURED: &[&str] = &["roll", "T", "j", "N", "--matured", "2031-06-30"];

const CANCEL: &[&str] = &["roll", "T", "j", "N", "--cancel"];

// A roll of `BASED` over the same roster. The first read of an input would fail, but there is none.
const ROLL: Trial<'static> = Trial {
    words: PLAIN,
    files: &[("T", ROSTER), ("N", ROSTER)],
    disk: BASED,
    failing_read: 1,
    ..SCRIPT
};

// A roll that is refused.
const REFUSED: Trial<'static> = Trial { status: 15, ..ROLL };

const PERIODS: &[Trial<'static>] = &[
    Trial {
        files: &[("T", ROSTER), ("N", GROWN)],
        output: Text::Is(GROWN_JOURNAL),
        ..ROLL
    },
    Trial {
        output: Text::Is(SAME_JOURNAL),
        ..ROLL
    },
    Trial {
        words: BEFORE,
        output: Text::Is(SAME_JOURNAL),
        ..ROLL
    },
    Trial {
        words: MATURED,
        output: Text::Is(MATURED_JOURNAL),
        ..ROLL
    },
    Trial {
        files: &[("T", ROSTER), ("N", NEXT_P)],
        output: Text::Is(SAME_JOURNAL),
        ..ROLL
    },
    Trial {
        files: &[("T", ROSTER), ("N", WITHOUT_B)],
        errors: b"cannot roll: a member of trade 1 is gone\n",
        ..REFUSED
    },
    Trial {
        files: &[("T", ROSTER), ("N", CUSTOMER_B)],
        errors: b"cannot roll: a member of trade 1 has another role\n",
        ..REFUSED
    },
    Trial {
        files: &[("T", ROSTER), ("N", WITHOUT_P)],
        errors: b"cannot roll: the product of trade 1 is gone\n",
        ..REFUSED
    },
    Trial {
        files: &[("T", ROSTER), ("N", EARLY_P)],
        errors: b"cannot roll: the product of trade 1 matures too early\n",
        ..REFUSED
    },
    Trial {
        words: MATURED,
        files: &[("T", ROSTER), ("N", CUSTOMER_B)],
        output: Text::Is(MATURED_JOURNAL),
        ..ROLL
    },
    Trial {
        files: &[("T", ROSTER), ("N", TWICE)],
        status: 3,
        errors: b"new-roster row 3: twice\n",
        ..ROLL
    },
    Trial {
        files: &[("T", ROSTER), ("N", b"")],
        status: 3,
        errors: b"new-roster row 1: columns\n",
        ..ROLL
    },
];

// That each of these rolls of `BASED` ends as it is to, and leaves it.
fn all_end_so<R: Threads + Wait + Sync + AllocGlobal>(
    rt: &R,
    rolls: &[Trial<'_>],
) -> Result<(), Fail> {
    for roll in rolls {
        roll.leaves(rt, BASED)?;
    }
    Ok(())
}

#[test]
fn a_market_goes_on_over_a_new_roster_or_its_cause_is_told(rt: HostRuntime) -> Result<(), Fail> {
    all_end_so(&rt, PERIODS)
}

// A journal's first bytes, so many of them; a roll's status, the new journal, and what is told.
const JOURNALS: &[(&[u8], usize, u8, &[u8], &[u8])] = &[
    (b"", 0, 0, NONE_JOURNAL, b""),
    (BEGUN_ONE, 30, 0, NONE_JOURNAL, b""),
    (BEGUN_ONE, 31, 7, b"", b"damaged at 29\n"),
    (BEGUN_ONE, 59, 7, b"", b"damaged at 59\n"),
    (BASED, 136, 7, b"", b"damaged at 136\n"),
    (BASED, 135, 7, b"", b"damaged at 33\n"),
    (b"OTCJRNL2\0\0", 10, 7, b"", b"damaged at 0\n"),
    (NONE_JOURNAL, 82, 7, b"", b"damaged at 82\n"),
    (SAME_JOURNAL, 129, 0, NEXT_JOURNAL, b""),
];

fn journals_are_rolled<R: Threads + Wait + Sync + AllocGlobal>(rt: &R) -> Result<(), Fail> {
    for &(bytes, size, status, text, told) in JOURNALS {
        let front = bytes.get(..size).unwrap_or(bytes);
        let roll = Trial {
            disk: front,
            status,
            output: Text::Is(text),
            errors: told,
            ..ROLL
        };
        roll.leaves(rt, front)?;
    }
    Ok(())
}

#[test]
fn a_journal_without_changes_is_rolled_and_a_damaged_one_told(rt: HostRuntime) -> Result<(), Fail> {
    journals_are_rolled(&rt)
}

// `BASED` at position 10^18.
const LAST: &[u8] =
    b"OTCJRNLC\x01\x19\0\0\0\0\0\0\0\x21\0\0\0\0\0\0\0\xff\xff\xff\xff\xff\xff\xff\xff\x63\0\0\0\x01\0\0\x64\xa7\xb3\xb6\xe0\x0d\x02\0\0\0\0\0\0\0\x03\0\0\0\0\0\0\0\x03\0\x01A\x01B\x01C\x01\0\x01P\x01\0\0\0\0\0\0\0\0\0\0\0\x02\0\0\x05\0\0\0\0\0\0\0\x01\x09\0\0\0\0\0\0\0\x01\0\0\0\0\0\0\0\0\0\x01\0\0\0\x0a\0\0\0\0\0\0\0\xea\x07\x03\x02\x01\x01\0\x02\0";

// A journal, a script's lines over it, and why what that leaves is not rolled.
const STOPPED: &[(&[u8], &[u8], &[u8])] = &[
    (
        BASED,
        b"HELLO OPS KO\nFREEZE 2026-03-31\n",
        b"cannot roll: a cycle is open\n",
    ),
    (LAST, b"", b"cannot roll: no position is left\n"),
    (
        LAST,
        b"HELLO A KA\nHOLD 1\n",
        b"cannot roll: a number is above 10^18\n",
    ),
];

fn are_refused<R: Threads + Wait + Sync + AllocGlobal>(rt: &R) -> Result<(), Fail> {
    for &(disk, input, told) in STOPPED {
        let script = Trial {
            input,
            disk,
            output: Text::Ends(b""),
            ..SCRIPT
        };
        let left = script.left(rt)?.written;
        let roll = Trial {
            disk: &left,
            status: 15,
            errors: told,
            ..ROLL
        };
        roll.leaves(rt, &left)?;
    }
    Ok(())
}

#[test]
fn an_open_cycle_and_the_last_positions_are_told(rt: HostRuntime) -> Result<(), Fail> {
    are_refused(&rt)
}

// A script's lines over `BASED`, and the journal that is rolled of what it leaves, with its open cycle cancelled.
const CANCELLED: &[(&[u8], &[u8])] = &[
    (b"", SAME_JOURNAL),
    (b"HELLO OPS KO\nFREEZE 2026-03-31\n", FROZEN_JOURNAL),
    (
        b"HELLO OPS KO\nFREEZE 2026-03-31\nBEGIN 3 hybrid\n",
        BEGUN_JOURNAL,
    ),
    (
        b"HELLO OPS KO\nFREEZE 2026-03-31\nHELLO A KA\nEND 1\n",
        MARKED_JOURNAL,
    ),
    (
        b"HELLO OPS KO\nFREEZE 2026-03-31\nHELLO A KA\nEND 1\nHELLO B KB\nEND 1\n",
        BROKEN_JOURNAL,
    ),
];

fn cycles_are_cancelled<R: Threads + Wait + Sync + AllocGlobal>(rt: &R) -> Result<(), Fail> {
    for &(input, text) in CANCELLED {
        let script = Trial {
            input,
            disk: BASED,
            output: Text::Ends(b""),
            ..SCRIPT
        };
        let left = script.left(rt)?.written;
        let roll = Trial {
            words: CANCEL,
            disk: &left,
            output: Text::Is(text),
            ..ROLL
        };
        roll.leaves(rt, &left)?;
    }
    Ok(())
}

#[test]
fn an_open_cycle_is_cancelled_in_each_phase(rt: HostRuntime) -> Result<(), Fail> {
    cycles_are_cancelled(&rt)
}

// Each of the three calls of a disk that a roll makes: it is attached, its length is asked for, and it is read.
const CALL_FAILS: Trial<'static> = Trial {
    status: 6,
    errors: b"disk fault\n",
    ..ROLL
};

const FAULTS: &[Trial<'static>] = &[
    Trial {
        failing_call: 1,
        ..CALL_FAILS
    },
    Trial {
        failing_call: 2,
        ..CALL_FAILS
    },
    Trial {
        failing_call: 3,
        ..CALL_FAILS
    },
    // An output with less room, which keeps a front of the new journal.
    Trial {
        room: 9,
        status: 5,
        output: Text::Is(b"OTCJRNLC\0"),
        errors: b"sink fault\n",
        ..ROLL
    },
];

#[test]
fn a_disk_or_an_output_that_fails_is_told_and_the_journal_stays(
    rt: HostRuntime,
) -> Result<(), Fail> {
    all_end_so(&rt, FAULTS)
}
