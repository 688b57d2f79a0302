//! Solves: the proposal that is written, and that a check says yes to it.

use crate::market_files::{CHECK, DEALERS, SOLVE};
use crate::program::{Left, ROSTER, Text, Trial, so};
use std::alloc::AllocGlobal;
use std::sync::Wait;
use std::test::Fail;
use std::thread::Threads;

// Dealers A and B, customer C, an operator and a product.
const CUSTOMER: &[u8] =
    b"name,role,key\nA,dealer,KA\nB,dealer,KB\nC,customer,KC\nOPS,operator,KO\nP,product,2031-06-30\n";

const RING: &[u8] = b"seller,buyer,product,amount\nA,B,P,10\nB,C,P,10\nC,A,P,10\n";

const CHAIN: &[u8] = b"seller,buyer,product,amount\nA,B,P,10\nB,C,P,7\n";

// The words of a solve and of a check, in each mode.
const CONSERVATIVE: (&[&str], &[&str]) = (
    &["solve", "T", "t", "conservative"],
    &["check", "T", "t", "conservative", "p"],
);

const HYBRID: (&[&str], &[&str]) = (
    &["solve", "T", "t", "hybrid"],
    &["check", "T", "t", "hybrid", "p"],
);

const FREE: (&[&str], &[&str]) = (
    &["solve", "T", "t", "free"],
    &["check", "T", "t", "free", "p"],
);

// The words, a roster and trades, and how the proposal begins and ends.
const MARKETS: &[((&[&str], &[&str]), &[u8], &[u8], &[u8], &[u8])] = &[
    (
        CONSERVATIVE,
        ROSTER,
        RING,
        b"product P 30 0 0 30\npot A ",
        b"\nbound 0\nend 1\n",
    ),
    (
        HYBRID,
        ROSTER,
        RING,
        b"product P 30 0 0 30\npot A ",
        b"\nbound 0\nend 1\n",
    ),
    // In a chain the middle steps out where its neighbours may trade with each other.
    (
        HYBRID,
        ROSTER,
        CHAIN,
        b"product P 17 10 10 17\nrow A B 3\nrow A C 7\npot A ",
        b"\nbound 10\nend 1\n",
    ),
    (
        CONSERVATIVE,
        ROSTER,
        CHAIN,
        b"product P 17 17 10 17\nrow A B 10\nrow B C 7\npot A ",
        b"\nbound 17\nend 1\n",
    ),
    // Where a neighbour is a customer, it does so in free mode alone.
    (
        HYBRID,
        CUSTOMER,
        CHAIN,
        b"product P 17 17 10 17\nrow A B 10\nrow B C 7\npot A ",
        b"\nbound 17\nend 1\n",
    ),
    (
        FREE,
        CUSTOMER,
        CHAIN,
        b"product P 17 10 10 17\nrow A B 3\nrow A C 7\npot A ",
        b"\nbound 10\nend 1\n",
    ),
    (
        HYBRID,
        DEALERS,
        b"seller,buyer,product,amount\n",
        b"product P 0 0 0 0\npot A ",
        b"\nbound 0\nend 1\n",
    ),
];

// Dealers A, B and C, and three products.
const THREE_PRODUCTS: &[u8] =
    b"name,role,key\nA,dealer,KA\nB,dealer,KB\nC,dealer,KC\nOPS,operator,KO\nP,product,2031-06-30\nQ,product,2031-06-30\nR,product,2032-06-30\n";

const THREE_CHAINS: &[u8] =
    b"seller,buyer,product,amount\nA,B,P,10\nB,C,P,7\nA,B,Q,20\nB,C,Q,7\nA,B,R,30\nB,C,R,40\n";

// A solve by 1 to 5 workers.
const BY_WORKERS: &[&[&str]] = &[
    &["solve", "T", "t", "hybrid", "--workers", "1"],
    &["solve", "T", "t", "hybrid", "--workers", "2"],
    &["solve", "T", "t", "hybrid", "--workers", "3"],
    &["solve", "T", "t", "hybrid", "--workers", "4"],
    &["solve", "T", "t", "hybrid", "--workers", "5"],
];

// A solve of these chains in hybrid mode.
const THREE: Trial<'static> = Trial {
    output: Text::Ends(b"\nbound 40\nend 3\n"),
    ..SOLVE
};

// What a form over these files leaves.
fn left_of<'a, R: Threads + Wait + Sync + AllocGlobal>(
    rt: &R,
    form: &Trial<'a>,
    roster: &'a [u8],
    trades: &'a [u8],
    proposal: &'a [u8],
) -> Result<Left, Fail> {
    let whole = Trial {
        files: &[("T", roster), ("t", trades), ("p", proposal)],
        ..*form
    };
    whole.left(rt)
}

// That the proposal for each market is as it is to be, and a check says yes to it.
fn all_are_solved<R: Threads + Wait + Sync + AllocGlobal>(rt: &R) -> Result<(), Fail> {
    for &((solve, check), roster, trades, front, end) in MARKETS {
        let solve = Trial {
            words: solve,
            output: Text::Ends(end),
            ..SOLVE
        };
        let proposal = left_of(rt, &solve, roster, trades, b"")?.output;
        so(proposal.starts_with(front), "the proposal begins otherwise")?;
        let check = Trial {
            words: check,
            output: Text::Is(b"yes\n"),
            ..CHECK
        };
        let _left = left_of(rt, &check, roster, trades, &proposal)?;
    }
    Ok(())
}

#[test]
fn a_ring_is_dissolved_and_the_check_says_yes(rt: HostRuntime) -> Result<(), Fail> {
    all_are_solved(&rt)
}

// That any number of workers writes the same for three chains, to which a check says yes.
fn all_write_the_same<R: Threads + Wait + Sync + AllocGlobal>(rt: &R) -> Result<(), Fail> {
    let one = left_of(rt, &THREE, THREE_PRODUCTS, THREE_CHAINS, b"")?.output;
    let begun = one.starts_with(b"product P 17 10 10 17\nrow A B 3\nrow A C 7\n");
    so(begun, "the proposal begins otherwise")?;
    for &words in BY_WORKERS {
        let solve = Trial { words, ..THREE };
        let proposal = left_of(rt, &solve, THREE_PRODUCTS, THREE_CHAINS, b"")?.output;
        so(proposal == one, "other bytes are written")?;
        let check = Trial {
            output: Text::Is(b"yes\n"),
            ..CHECK
        };
        let _left = left_of(rt, &check, THREE_PRODUCTS, THREE_CHAINS, &proposal)?;
    }
    Ok(())
}

#[test]
fn any_number_of_workers_writes_the_same(rt: HostRuntime) -> Result<(), Fail> {
    all_write_the_same(&rt)
}
