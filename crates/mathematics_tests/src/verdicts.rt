//! What checks of proposals for small markets say.

use crate::files::{FIVE_DEALERS, FileMarket, ONE_AND_ONE, is_told};
use command_types::Mode;
use std::alloc::AllocGlobal;
use std::test::Fail;
use std::thread::Threads;

const STAR: FileMarket<'static> = FileMarket {
    parties: FIVE_DEALERS,
    trades: "A,E,P,5\nD,E,P,5\nE,B,P,5\nE,C,P,5\n",
    mode: Mode::Hybrid,
};

const CONSERVATIVE_STAR: FileMarket<'static> = FileMarket {
    mode: Mode::Conservative,
    ..STAR
};

const TWO_PRODUCTS: FileMarket<'static> = FileMarket {
    parties: ONE_AND_ONE,
    trades: "A,B,Q,4\nB,A,Q,1\n",
    mode: Mode::Hybrid,
};

/// A market, a proposal for it, and what a check says.
const PROPOSALS: &[(FileMarket<'static>, &[u8], &str)] = &[
    (
        STAR,
        b"product P 20 10 10 20\nrow A B 5\nrow D C 5\npot A 1\npot B 0\npot C 0\npot D 1\npot E 0\nbound 10\nend 1\n",
        "yes\n",
    ),
    (
        STAR,
        b"product P 20 10 10 20\nrow A C 5\nrow D B 5\npot A 1\npot B 0\npot C 0\npot D 1\npot E 0\nbound 10\nend 1\n",
        "yes\n",
    ),
    (
        STAR,
        b"product P 20 10 10 20\nrow A E 5\nrow D E 5\nrow E B 5\nrow E C 5\npot A 1\npot B 0\npot C 0\npot D 1\npot E 0\nbound 10\nend 1\n",
        "no P slack E B\n",
    ),
    (
        STAR,
        b"product P 20 20 10 20\nrow A E 5\nrow D E 5\nrow E B 5\nrow E C 5\npot A 1\npot B 0\npot C 0\npot D 1\npot E 0\nbound 20\nend 1\n",
        "no P slack E B\n",
    ),
    (
        STAR,
        b"product P 21 10 10 20\nrow A E 5\nrow D E 5\nrow E B 5\nrow E C 5\npot A 1\npot B 0\npot C 0\npot D 1\npot E 0\nbound 10\nend 1\n",
        "no P slack E B\n",
    ),
    (
        STAR,
        b"product P 21 10 10 20\nrow A B 5\nrow D C 5\npot A 1\npot B 0\npot C 0\npot D 1\npot E 0\nbound 10\nend 1\n",
        "no P figures\n",
    ),
    (
        STAR,
        b"product P 20 11 10 20\nrow A B 5\nrow D C 5\npot A 1\npot B 0\npot C 0\npot D 1\npot E 0\nbound 11\nend 1\n",
        "no P figures\n",
    ),
    (
        STAR,
        b"product P 20 10 11 20\nrow A B 5\nrow D C 5\npot A 1\npot B 0\npot C 0\npot D 1\npot E 0\nbound 10\nend 1\n",
        "no P figures\n",
    ),
    (
        STAR,
        b"product P 20 10 10 21\nrow A B 5\nrow D C 5\npot A 1\npot B 0\npot C 0\npot D 1\npot E 0\nbound 10\nend 1\n",
        "no P figures\n",
    ),
    (
        STAR,
        b"product P 20 10 10 20\nrow A B 5\nrow D C 5\npot A 1\npot B 0\npot C 0\npot D 1\npot E 0\nbound 9\nend 1\n",
        "no P figures\n",
    ),
    (
        STAR,
        b"product P 20 10 10 20\nrow A B 5\npot A 1\npot B 0\npot C 0\npot D 1\npot E 0\nbound 10\nend 1\n",
        "no P net C\n",
    ),
    (
        STAR,
        b"product P 20 10 10 20\nrow A B 5\nrow D C 5\npot A 2\npot B 0\npot C 0\npot D 1\npot E 0\nbound 10\nend 1\n",
        "no P open A B\n",
    ),
    // A pair of dealers may not grow here.
    (
        CONSERVATIVE_STAR,
        b"product P 20 10 10 20\nrow A B 5\nrow D C 5\npot A 1\npot B 0\npot C 0\npot D 1\npot E 0\nbound 10\nend 1\n",
        "no P above A B\n",
    ),
    // The second product is told where the first is right.
    (
        TWO_PRODUCTS,
        b"product P 0 0 0 0\npot A 0\npot B 0\nbound 0\nproduct Q 5 3 3 3\nrow A B 3\npot A 1\npot B 0\nbound 3\nend 2\n",
        "yes\n",
    ),
    (
        TWO_PRODUCTS,
        b"product P 0 0 0 0\npot A 0\npot B 0\nbound 0\nproduct Q 5 3 3 5\nrow A B 3\npot A 1\npot B 0\nbound 3\nend 2\n",
        "no Q figures\n",
    ),
    (
        TWO_PRODUCTS,
        b"product P 0 0 0 0\npot A 0\npot B 0\nbound 0\nproduct Q 5 5 3 3\nrow A B 4\nrow B A 1\npot A 1\npot B 0\nbound 5\nend 2\n",
        "no Q slack B A\n",
    ),
    // Both fail, and the first is told.
    (
        TWO_PRODUCTS,
        b"product P 0 0 0 1\npot A 0\npot B 0\nbound 0\nproduct Q 5 5 3 3\nrow A B 4\nrow B A 1\npot A 1\npot B 0\nbound 5\nend 2\n",
        "no P figures\n",
    ),
];

fn all_are_told<R: Threads + Sync + AllocGlobal>(rt: &R) -> Result<(), Fail> {
    for &(market, proposal, told) in PROPOSALS {
        is_told(rt, market, proposal, told)?;
    }
    Ok(())
}

#[test]
fn a_proposal_is_told_its_first_failure(rt: HostRuntime) -> Result<(), Fail> {
    all_are_told(&rt)
}
