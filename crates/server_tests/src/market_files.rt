//! Checks of a market's files and a proposal's: the proposal is right, or the first thing that is wrong with it is told.

use crate::program::{SCRIPT, Text, Trial};
use std::alloc::AllocGlobal;
use std::sync::Wait;
use std::test::Fail;
use std::thread::Threads;

/// Five dealers, an operator and a product.
pub const DEALERS: &[u8] =
    b"name,role,key\nA,dealer,KA\nB,dealer,KB\nC,dealer,KC\nD,dealer,KD\nE,dealer,KE\nOPS,operator,KO\nP,product,2031-06-30\n";

/// A and D owe to E, and E owes to B and C.
pub const TRADES: &[u8] = b"seller,buyer,product,amount\nA,E,P,5\nD,E,P,5\nE,B,P,5\nE,C,P,5\n";

/// The least network of these trades in hybrid mode, with potentials that certify it.
pub const PROPOSAL: &[u8] =
    b"product P 20 10 10 20\nrow A B 5\nrow D C 5\npot A 1\npot B 0\npot C 0\npot D 1\npot E 0\nbound 10\nend 1\n";

/// A check of it in hybrid mode. The first read of an input would fail, but there is none.
pub const CHECK: Trial<'static> = Trial {
    words: &["check", "T", "t", "hybrid", "p"],
    files: &[("T", DEALERS), ("t", TRADES), ("p", PROPOSAL)],
    failing_read: 1,
    ..SCRIPT
};

/// A solve of its market.
pub const SOLVE: Trial<'static> = Trial {
    words: &["solve", "T", "t", "hybrid"],
    ..CHECK
};

// Figures, rows and a bound, and whether a proposal of them is right: its status, and the line that it gets.
const PROPOSALS: &[(&[u8], u8, &[u8])] = &[
    (
        b"product P 20 10 10 20\nrow A B 5\nrow D C 5\npot A 1\npot B 0\npot C 0\npot D 1\npot E 0\nbound 10\nend 1\n",
        0,
        b"yes\n",
    ),
    (
        b"product P 20 10 10 20\nrow A C 5\nrow D B 5\npot A 1\npot B 0\npot C 0\npot D 1\npot E 0\nbound 10\nend 1\n",
        0,
        b"yes\n",
    ),
    (
        b"product P 20 10 10 20\nrow A E 5\nrow D E 5\nrow E B 5\nrow E C 5\npot A 1\npot B 0\npot C 0\npot D 1\npot E 0\nbound 10\nend 1\n",
        1,
        b"no P slack E B\n",
    ),
    (
        b"product P 20 10 10 20\nrow A B 5\npot A 1\npot B 0\npot C 0\npot D 1\npot E 0\nbound 10\nend 1\n",
        1,
        b"no P net C\n",
    ),
    // A wrong figure each, and a clash before a wrong figure.
    (
        b"product P 21 10 10 20\nrow A B 5\nrow D C 5\npot A 1\npot B 0\npot C 0\npot D 1\npot E 0\nbound 10\nend 1\n",
        1,
        b"no P figures\n",
    ),
    (
        b"product P 20 11 10 20\nrow A B 5\nrow D C 5\npot A 1\npot B 0\npot C 0\npot D 1\npot E 0\nbound 10\nend 1\n",
        1,
        b"no P figures\n",
    ),
    (
        b"product P 20 10 9 20\nrow A B 5\nrow D C 5\npot A 1\npot B 0\npot C 0\npot D 1\npot E 0\nbound 10\nend 1\n",
        1,
        b"no P figures\n",
    ),
    (
        b"product P 20 10 10 19\nrow A B 5\nrow D C 5\npot A 1\npot B 0\npot C 0\npot D 1\npot E 0\nbound 10\nend 1\n",
        1,
        b"no P figures\n",
    ),
    (
        b"product P 20 10 10 20\nrow A B 5\nrow D C 5\npot A 1\npot B 0\npot C 0\npot D 1\npot E 0\nbound 9\nend 1\n",
        1,
        b"no P figures\n",
    ),
    (
        b"product P 21 10 10 20\nrow A B 5\npot A 1\npot B 0\npot C 0\npot D 1\npot E 0\nbound 10\nend 1\n",
        1,
        b"no P net C\n",
    ),
];

fn all_get_their_verdict<R: Threads + Wait + Sync + AllocGlobal>(rt: &R) -> Result<(), Fail> {
    for &(proposal, status, line) in PROPOSALS {
        let check = Trial {
            files: &[("T", DEALERS), ("t", TRADES), ("p", proposal)],
            status,
            output: Text::Is(line),
            ..CHECK
        };
        check.ends(rt)?;
    }
    Ok(())
}

#[test]
fn a_proposal_is_right_or_the_first_thing_wrong_with_it_is_told(
    rt: HostRuntime,
) -> Result<(), Fail> {
    all_get_their_verdict(&rt)
}
