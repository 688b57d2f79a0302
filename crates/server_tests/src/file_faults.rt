//! Files of a market that have a fault or are too long.

use crate::market_files::{CHECK, DEALERS, PROPOSAL, SOLVE, TRADES};
use crate::memory::repeated;
use crate::program::Trial;
use std::alloc::AllocGlobal;
use std::sync::Wait;
use std::test::Fail;
use std::thread::Threads;

// That these trades and this proposal have a fault, which this line tells.
fn is_told<'a, R: Threads + Wait + Sync + AllocGlobal>(
    rt: &R,
    form: &Trial<'a>,
    trades: &'a [u8],
    proposal: &'a [u8],
    line: &'a [u8],
) -> Result<(), Fail> {
    let told = Trial {
        files: &[("T", DEALERS), ("t", trades), ("p", proposal)],
        status: 3,
        errors: line,
        ..*form
    };
    told.ends(rt)
}

// A trade file, and the line of its first fault.
const TRADE_FILES: &[(&[u8], &[u8])] = &[
    (b"", b"trades row 1: columns\n"),
    (b"seller,buyer,product\n", b"trades row 1: columns\n"),
    (b"buyer,seller,product,amount\n", b"trades row 1: columns\n"),
    (
        b"seller,buyer,product,amount\nA,A,P,1\n",
        b"trades row 2: same-party\n",
    ),
    (
        b"seller,buyer,product,amount\nA,B,P\n",
        b"trades row 2: columns\n",
    ),
    (
        b"seller,buyer,product,amount\nA,B,P,1,\n",
        b"trades row 2: columns\n",
    ),
    (
        b"seller,buyer,product,amount\nA,X,P,1\n",
        b"trades row 2: unknown-name\n",
    ),
    (
        b"seller,buyer,product,amount\nX,B,P,1\n",
        b"trades row 2: unknown-name\n",
    ),
    (
        b"seller,buyer,product,amount\nA,B,Q,1\n",
        b"trades row 2: unknown-name\n",
    ),
    (
        b"seller,buyer,product,amount\nA,OPS,P,1\n",
        b"trades row 2: unknown-name\n",
    ),
    (
        b"seller,buyer,product,amount\nA,B,P,1\nA,B,P,0\n",
        b"trades row 3: bad-amount\n",
    ),
    (
        b"seller,buyer,product,amount\nA,B,P,-1\n",
        b"trades row 2: bad-amount\n",
    ),
    (
        b"seller,buyer,product,amount\nA,B,P,1000000000000000\nA,B,P,1000000000000001\n",
        b"trades row 3: bad-amount\n",
    ),
];

// A check and a solve both tell it.
fn trade_files_are_told<R: Threads + Wait + Sync + AllocGlobal>(rt: &R) -> Result<(), Fail> {
    for &(trades, line) in TRADE_FILES {
        is_told(rt, &CHECK, trades, PROPOSAL, line)?;
        is_told(rt, &SOLVE, trades, PROPOSAL, line)?;
    }
    Ok(())
}

#[test]
fn the_first_fault_of_a_trade_file_is_told_with_its_record(rt: HostRuntime) -> Result<(), Fail> {
    trade_files_are_told(&rt)
}

// A trade, how many there are of it, the size of a proposal, and the line that tells the fault.
const LONG: &[(&str, usize, usize, &[u8])] = &[
    ("A,B,P,1\n", 100_000, 0, b"proposal row 1: bad-line\n"),
    ("A,B,P,1\n", 100_001, 0, b"trades row 100002: row-limit\n"),
    (
        "A,B,P,1000000000000000\n",
        1_000,
        0,
        b"proposal row 1: bad-line\n",
    ),
    (
        "A,B,P,1000000000000000\n",
        1_001,
        0,
        b"trades row 1002: gross-limit\n",
    ),
    ("A,B,P,1\n", 1, 67_108_864, b"proposal row 1: bad-line\n"),
    ("A,B,P,1\n", 1, 67_108_865, b"proposal: too-long\n"),
];

fn long_files_are_told<R: Threads + Wait + Sync + AllocGlobal>(rt: &R) -> Result<(), Fail> {
    let head = "seller,buyer,product,amount\n";
    for &(trade, count, size, line) in LONG {
        let trades = repeated(rt.alloc(), head, trade, count, "")?;
        let proposal = vec![in rt.alloc(); b'X'; size]?;
        is_told(rt, &CHECK, trades.as_bytes(), &proposal, line)?;
    }
    Ok(())
}

#[test]
fn a_trade_or_a_byte_too_many_and_an_amount_too_much_are_told(rt: HostRuntime) -> Result<(), Fail> {
    long_files_are_told(&rt)
}

// A proposal, and the line of the first of its lines that cannot stand.
const PROPOSALS: &[(&[u8], &[u8])] = &[
    // Without its last line, with one too many, and with an unfinished one.
    (
        b"product P 20 10 10 20\nrow A B 5\nrow D C 5\npot A 1\npot B 0\npot C 0\npot D 1\npot E 0\nbound 10\n",
        b"proposal row 10: bad-line\n",
    ),
    (
        b"product P 20 10 10 20\nrow A B 5\nrow D C 5\npot A 1\npot B 0\npot C 0\npot D 1\npot E 0\nbound 10\nend 1\nend 1\n",
        b"proposal row 11: bad-line\n",
    ),
    (
        b"product P 20 10 10 20\nrow A B 5\nrow D C 5\npot A 1\npot B 0\npot C 0\npot D 1\npot E 0\nbound 10\nend 1\n\n",
        b"proposal row 11: bad-line\n",
    ),
    (
        b"product P 20 10 10 20\nrow A B 5\nrow D C 5\npot A 1\npot B 0\npot C 0\npot D 1\npot E 0\nbound 10\nend 1",
        b"proposal row 10: bad-line\n",
    ),
    (b"", b"proposal row 1: bad-line\n"),
    // An end too early, and one with another count.
    (b"end 1\n", b"proposal row 1: bad-line\n"),
    (
        b"product P 20 10 10 20\nrow A B 5\nend 1\n",
        b"proposal row 3: bad-line\n",
    ),
    (
        b"product P 20 10 10 20\nrow A B 5\nrow D C 5\npot A 1\npot B 0\npot C 0\npot D 1\npot E 0\nbound 10\nend 2\n",
        b"proposal row 10: bad-line\n",
    ),
    // A member twice, left out, and out of order; a part that ends before its last member.
    (
        b"product P 20 10 10 20\nrow A B 5\nrow D C 5\npot A 1\npot A 1\n",
        b"proposal row 5: bad-line\n",
    ),
    (
        b"product P 20 10 10 20\nrow A B 5\nrow D C 5\npot A 1\npot C 0\n",
        b"proposal row 5: bad-line\n",
    ),
    (
        b"product P 20 10 10 20\nrow A B 5\nrow D C 5\npot A 1\npot B 0\nbound 10\n",
        b"proposal row 6: bad-line\n",
    ),
    // Figures that are none, too few or too many, and a product that is not next.
    (b"product P 20 10 10 x\n", b"proposal row 1: bad-line\n"),
    (b"product P 020 10 10 20\n", b"proposal row 1: bad-line\n"),
    (b"product P 20 10 10\n", b"proposal row 1: bad-line\n"),
    (b"product P 20 10 10 20 1\n", b"proposal row 1: bad-line\n"),
    (b"product  P 20 10 10 20\n", b"proposal row 1: bad-line\n"),
    (b"product Q 20 10 10 20\n", b"proposal row 1: bad-line\n"),
    (
        b"product P 20 10 10 1000000000000000001\n",
        b"proposal row 1: bad-line\n",
    ),
    // Rows: out of order, twice, of one member, of nobody, of nothing, past the gross, behind a potential.
    (
        b"product P 20 10 10 20\nrow D C 5\nrow A B 5\n",
        b"proposal row 3: bad-line\n",
    ),
    (
        b"product P 20 10 10 20\nrow A B 5\nrow A B 5\n",
        b"proposal row 3: bad-line\n",
    ),
    (
        b"product P 20 10 10 20\nrow A A 5\n",
        b"proposal row 2: bad-line\n",
    ),
    (
        b"product P 20 10 10 20\nrow A X 5\n",
        b"proposal row 2: bad-line\n",
    ),
    (
        b"product P 20 10 10 20\nrow A B 0\n",
        b"proposal row 2: bad-line\n",
    ),
    (
        b"product P 20 10 10 20\nrow A B 1000000000000000000\nrow D C 1\n",
        b"proposal row 3: bad-line\n",
    ),
    (
        b"product P 20 10 10 20\npot A 1\nrow A B 5\n",
        b"proposal row 3: bad-line\n",
    ),
    // Potentials past their range, and with a zero that is negative.
    (
        b"product P 20 10 10 20\npot A 1000001\n",
        b"proposal row 2: bad-line\n",
    ),
    (
        b"product P 20 10 10 20\npot A -0\n",
        b"proposal row 2: bad-line\n",
    ),
];

fn proposals_are_told<R: Threads + Wait + Sync + AllocGlobal>(rt: &R) -> Result<(), Fail> {
    for &(proposal, line) in PROPOSALS {
        is_told(rt, &CHECK, TRADES, proposal, line)?;
    }
    Ok(())
}

#[test]
fn the_first_line_of_a_proposal_that_cannot_stand_is_told(rt: HostRuntime) -> Result<(), Fail> {
    proposals_are_told(&rt)
}
