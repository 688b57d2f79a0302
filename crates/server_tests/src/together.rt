//! Lines that come together are replied to as those that come one by one.

use crate::program::{SCRIPT, Text, Trial};
use std::alloc::AllocGlobal;
use std::sync::Wait;
use std::test::Fail;
use std::thread::Threads;

// The lines of a script, and the replies to them.
type Row = (&'static [u8], &'static [u8]);

const ROWS: &[Row] = &[
    // What stands behind a HELLO is the next party's.
    (
        b"HELLO A KA\nTRADE A B P 10 2026-03-02\nTRADE A B P 20 2026-03-02\nHELLO B KB\nAFFIRM 1\nAFFIRM 2\nNETS P\n",
        b"ok 0 hello A\nok 1 trade 1\nok 2 trade 2\nok 2 hello B\nok 3 live 1\nok 4 live 2\nok 4 nets 0 30 -30\n",
    ),
    // A HELLO with a wrong key leaves the party as it is.
    (
        b"HELLO A KA\nHELLO B KA\nTRADE A B P 10 2026-03-02\nAFFIRM 1\nNETS P\nNETS Q\n",
        b"ok 0 hello A\nno 0 2 bad-key\nok 1 trade 1\nno 1 7 not-party\nok 1 nets 0 0 0\nno 1 5 unknown-product\n",
    ),
    // What stands behind a BYE is dropped.
    (
        b"HELLO A KA\nTRADE A B P 10 2026-03-02\nTRADE A B P 20 2026-03-02\nBYE\nTRADE A B P 30 2026-03-02\nNETS P\n",
        b"ok 0 hello A\nok 1 trade 1\nok 2 trade 2\nok 2 bye\n",
    ),
    // Lines that are not in the grammar, empty ones, and carriage returns.
    (
        b"NETS P\r\n\xff\n\nHELLO A KA\r\nTRADE A B P 10 2026-03-02\r\n\r\nNETS P\r",
        b"no 0 1 not-greeted\nno 0 3 bad-line 0\nno 0 3 bad-line 0\nok 0 hello A\nok 1 trade 1\nno 1 3 bad-line 0\nno 1 3 bad-line 5\n",
    ),
    // A read behind a change, a refusal between them, and a change of the trade before.
    (
        b"HELLO A KA\nNETS P\nTRADE A B P 10 2026-03-02\nSTATEMENT\nNETS P\nHOLD 1\nEND 1\nEND 1\n",
        b"ok 0 hello A\nok 0 nets 0 0 0\nok 1 trade 1\nok 1 statement 1\ntrade 1 A B P 10 2026-03-02 alleged -\nok 1 nets 0 0 0\nno 1 12 wrong-trade-state alleged\nok 2 ended 1\nno 2 12 wrong-trade-state ended\n",
    ),
];

// How many bytes come at once.
const AT_ONCE: [usize; 3] = [1, 40, 65536];

fn all_alike<R: Threads + Wait + Sync + AllocGlobal>(rt: &R) -> Result<(), Fail> {
    for most in AT_ONCE {
        for &(input, replies) in ROWS {
            let script = Trial {
                input,
                most,
                output: Text::Is(replies),
                ..SCRIPT
            };
            script.ends(rt)?;
        }
    }
    Ok(())
}

#[test]
fn lines_that_come_together_are_replied_to_as_one_by_one(rt: HostRuntime) -> Result<(), Fail> {
    all_alike(&rt)
}
