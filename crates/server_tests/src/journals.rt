//! Scripts over a journal: what it holds byte for byte, and how a script goes on from it.

use crate::program::{SCRIPT, Text, Trial};
use std::alloc::AllocGlobal;
use std::sync::Wait;
use std::test::Fail;
use std::thread::Threads;

// The header, slot 0 selected, its offset 25 and that of slot 1, no base, and a closed gate.
const BEGUN: &[u8] = b"OTCJRNLC\0\x19\0\0\0\0\0\0\0\0\0\0\0\0\0\0\0\0\0\0\0\0";

/// The same with A's command TRADE A B P 10 2026-03-02 from seat 0, which has no moment.
pub const BEGUN_ONE: &[u8] =
    b"OTCJRNLC\0\x19\0\0\0\0\0\0\0\0\0\0\0\0\0\0\0\0\0\0\0\x01\x19\0\0\0\0\0\0\0\x01A\x01\x01A\x01B\x01P\x0a\0\0\0\0\0\0\0\xea\x07\x03\x02\0";

// And with the turn.
const TURNED_ONE: &[u8] =
    b"OTCJRNLC\0\x19\0\0\0\0\0\0\0\0\0\0\0\0\0\0\0\0\0\0\0\x01\x19\0\0\0\0\0\0\0\x01A\x01\x01A\x01B\x01P\x0a\0\0\0\0\0\0\0\xea\x07\x03\x02\x01\x08\0\0\0MOMENTS2\0";

// And with B's command AFFIRM 1 of noon on 31 March 2026.
const TURNED_TWO: &[u8] =
    b"OTCJRNLC\0\x19\0\0\0\0\0\0\0\0\0\0\0\0\0\0\0\0\0\0\0\x01\x19\0\0\0\0\0\0\0\x01A\x01\x01A\x01B\x01P\x0a\0\0\0\0\0\0\0\xea\x07\x03\x02\x01\x08\0\0\0MOMENTS2\x01\x17\0\0\0\x40\xb7\xcb\x69\0\0\0\0\0\0\0\0\x01B\x02\x01\0\0\0\0\0\0\0\0";

/// What is begun now: turned before its first change.
pub const NONE: &[u8] =
    b"OTCJRNLC\0\x19\0\0\0\0\0\0\0\0\0\0\0\0\0\0\0\0\0\0\0\x01\x08\0\0\0MOMENTS2\0";

/// A's command at that noon.
pub const ONE: &[u8] =
    b"OTCJRNLC\0\x19\0\0\0\0\0\0\0\0\0\0\0\0\0\0\0\0\0\0\0\x01\x08\0\0\0MOMENTS2\x01\x21\0\0\0\x40\xb7\xcb\x69\0\0\0\0\0\0\0\0\x01A\x01\x01A\x01B\x01P\x0a\0\0\0\0\0\0\0\xea\x07\x03\x02\0";

// And B's.
const TWO: &[u8] =
    b"OTCJRNLC\0\x19\0\0\0\0\0\0\0\0\0\0\0\0\0\0\0\0\0\0\0\x01\x08\0\0\0MOMENTS2\x01\x21\0\0\0\x40\xb7\xcb\x69\0\0\0\0\0\0\0\0\x01A\x01\x01A\x01B\x01P\x0a\0\0\0\0\0\0\0\xea\x07\x03\x02\x01\x17\0\0\0\x40\xb7\xcb\x69\0\0\0\0\0\0\0\0\x01B\x02\x01\0\0\0\0\0\0\0\0";

/// A's command in a plain journal, which has the header, the records and a closed gate.
pub const PLAIN_ONE: &[u8] =
    b"OTCJRNL1\x01\x19\0\0\0\0\0\0\0\x01A\x01\x01A\x01B\x01P\x0a\0\0\0\0\0\0\0\xea\x07\x03\x02\0";

// The same, turned.
const PLAIN_TURNED: &[u8] =
    b"OTCJRNL1\x01\x19\0\0\0\0\0\0\0\x01A\x01\x01A\x01B\x01P\x0a\0\0\0\0\0\0\0\xea\x07\x03\x02\x01\x08\0\0\0MOMENTS2\0";

/// And with B's command of that noon.
pub const PLAIN_TWO: &[u8] =
    b"OTCJRNL1\x01\x19\0\0\0\0\0\0\0\x01A\x01\x01A\x01B\x01P\x0a\0\0\0\0\0\0\0\xea\x07\x03\x02\x01\x08\0\0\0MOMENTS2\x01\x17\0\0\0\x40\xb7\xcb\x69\0\0\0\0\0\0\0\0\x01B\x02\x01\0\0\0\0\0\0\0\0";

/// B affirms it.
pub const AFFIRM: &[u8] = b"HELLO B KB\nAFFIRM 1\nNETS P\n";

// A journal, the lines of a script over it, its replies, and the journal then.
const SCRIPTS: &[(&[u8], &[u8], &[u8], &[u8])] = &[
    (b"", b"", b"", NONE),
    (BEGUN, b"", b"", NONE),
    (NONE, b"", b"", NONE),
    (BEGUN_ONE, b"", b"", TURNED_ONE),
    (PLAIN_ONE, b"", b"", PLAIN_TURNED),
    (b"OTC", b"", b"", NONE),
    (b"OTCJRNL1\0", b"", b"", NONE),
    (
        b"OTCJRNLC\x01\x01\x01\x01\x01\x01\x01\x01\x01\x01\x01\x01",
        b"",
        b"",
        NONE,
    ),
    (b"\x01\x01\x01\x01\x01\x01\x01\x01\x01", b"", b"", NONE),
    (
        b"",
        b"HELLO A KA\nTRADE A B P 10 2026-03-02\n",
        b"ok 0 hello A\nok 1 trade 1\n",
        ONE,
    ),
    (
        b"",
        b"HELLO A KA\nTRADE A A P 10 2026-03-02\nNETS P\n",
        b"ok 0 hello A\nno 0 6 own-trade\nok 0 nets 0 0 0\n",
        NONE,
    ),
    (
        ONE,
        AFFIRM,
        b"ok 1 hello B\nok 2 live 1\nok 2 nets 0 10 -10\n",
        TWO,
    ),
    (
        BEGUN_ONE,
        AFFIRM,
        b"ok 1 hello B\nok 2 live 1\nok 2 nets 0 10 -10\n",
        TURNED_TWO,
    ),
    (
        PLAIN_ONE,
        AFFIRM,
        b"ok 1 hello B\nok 2 live 1\nok 2 nets 0 10 -10\n",
        PLAIN_TWO,
    ),
    (
        TWO,
        b"HELLO OPS KO\nNETS P\n",
        b"ok 2 hello OPS\nok 2 market 10 10 0 10\n",
        TWO,
    ),
    (
        b"",
        b"HELLO A KA\nTRADE A B P 10 2026-03-02\nHELLO B KB\nAFFIRM 1\nNETS P\n",
        b"ok 0 hello A\nok 1 trade 1\nok 1 hello B\nok 2 live 1\nok 2 nets 0 10 -10\n",
        TWO,
    ),
];

fn all_are_kept<R: Threads + Wait + Sync + AllocGlobal>(rt: &R) -> Result<(), Fail> {
    for &(disk, input, replies, after) in SCRIPTS {
        let script = Trial {
            disk,
            input,
            output: Text::Is(replies),
            ..SCRIPT
        };
        script.leaves(rt, after)?;
    }
    Ok(())
}

#[test]
fn a_script_goes_on_from_its_journal_and_keeps_each_change(rt: HostRuntime) -> Result<(), Fail> {
    all_are_kept(&rt)
}
