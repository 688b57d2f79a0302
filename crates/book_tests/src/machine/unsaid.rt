//! Commands that no line of a session gives: fetches of a version's problems, postings of another shape, drafts past their
//! limits, and what one asks whom the roster has not.

use super::answers::Told::{Begun, Cancelled, Ended, Frozen, Marked, No, Noted, Problem};
use super::commands::Said::{
    Begin, Cancel, End, Fetch, Freeze, Post, PostNone, PostTwo, Pot, Row as Noting, Statement,
};
use super::starts::{CHAIN, FREEZE, RING};
use super::words::Word::{A, B, KeyA, Ops, P};
use super::{Row, plays};
use crate::market::Posted::{Empty, Less, OfTwo};
use command_types::Mode::{Conservative, Hybrid};
use command_types::{BadPost, Clash, Phase, Refusal};
use std::test::Fail;
use units_core::ProductNo;

const CLOSED: Refusal = Refusal::WrongPhase { phase: Phase::None };

const FROZEN: Refusal = Refusal::WrongPhase {
    phase: Phase::Frozen,
};

const BROKEN: Refusal = Refusal::CycleBroken { trade: 1 };

const OTHER: Refusal = Refusal::WrongCycle { cycle: 1 };

const CLASH: Refusal = Refusal::BadCertificate {
    post: BadPost::At {
        product: ProductNo(0),
        clash: Clash::Above {
            seller: 0,
            buyer: 1,
        },
    },
};

const SHAPE: Refusal = Refusal::BadCertificate {
    post: BadPost::Shape,
};

// Members don't fetch, and their numbers are not looked at; nor does the operator in another cycle or before a version began.
const FETCHES: [Row; 17] = [
    (A, Fetch(0, 0), 0, No(Refusal::NotOperator)),
    (B, Fetch(9, 9), 0, No(Refusal::NotOperator)),
    (Ops, Fetch(7, 1), 0, No(Refusal::WrongCycle { cycle: 0 })),
    (Ops, Fetch(0, 0), 0, No(CLOSED)),
    (Ops, Freeze, 1, Frozen(1, 0)),
    (B, Fetch(9, 9), 1, No(Refusal::NotOperator)),
    (Ops, Fetch(7, 1), 1, No(OTHER)),
    (Ops, Fetch(1, 0), 1, No(FROZEN)),
    (Ops, Begin(1, Conservative), 2, Begun(1, 1)),
    (B, Fetch(9, 9), 2, No(Refusal::NotOperator)),
    (Ops, Fetch(7, 1), 2, No(OTHER)),
    (
        Ops,
        Fetch(1, 2),
        2,
        No(Refusal::WrongVersion { version: 1 }),
    ),
    (Ops, Fetch(1, 1), 2, Problem(0)),
    (Ops, Cancel(1), 3, Cancelled(1)),
    (B, Fetch(9, 9), 3, No(Refusal::NotOperator)),
    (Ops, Fetch(7, 1), 3, No(OTHER)),
    (Ops, Fetch(1, 0), 3, No(CLOSED)),
];

const FETCHED: [Row; 3] = [
    (Ops, Freeze, 5, Frozen(1, 2)),
    (Ops, Begin(1, Hybrid), 6, Begun(1, 1)),
    (Ops, Fetch(1, 1), 6, Problem(17)),
];

#[test]
fn the_operator_fetches_the_problems_of_the_version_that_stands(
    rt: HostRuntime,
) -> Result<(), Fail> {
    let phases = plays(rt.alloc(), &[&FETCHES])?;
    let chain = plays(rt.alloc(), &[&CHAIN, &FETCHED])?;
    assert!(rt; phases && chain);
    Ok(())
}

// Trade 1 ends before a version begins, and behind that.
const BROKEN_FROZEN: [Row; 3] = [
    (A, End(1), 8, Marked(1)),
    (B, End(1), 9, Ended(1)),
    (Ops, Fetch(1, 0), 9, No(BROKEN)),
];

const BROKEN_BEGUN: [Row; 4] = [
    (Ops, Begin(1, Hybrid), 8, Begun(1, 1)),
    (A, End(1), 9, Marked(1)),
    (B, End(1), 10, Ended(1)),
    (Ops, Fetch(1, 1), 10, No(BROKEN)),
];

#[test]
fn a_broken_cycle_has_no_problems(rt: HostRuntime) -> Result<(), Fail> {
    let frozen = plays(rt.alloc(), &[&RING, &FREEZE, &BROKEN_FROZEN])?;
    let begun = plays(rt.alloc(), &[&RING, &FREEZE, &BROKEN_BEGUN])?;
    assert!(rt; frozen && begun);
    Ok(())
}

// Nobody owes anything, and no amount may grow: an amount is a clash, which is told only where the shape is right.
const SHAPES: [Row; 7] = [
    (Ops, Freeze, 1, Frozen(1, 0)),
    (Ops, Begin(1, Conservative), 2, Begun(1, 1)),
    (Ops, PostNone(1), 2, No(SHAPE)),
    (Ops, Post(1, Less), 2, No(CLASH)),
    (Ops, Post(1, OfTwo), 2, No(SHAPE)),
    (Ops, PostTwo(1, Empty, Empty), 2, No(SHAPE)),
    (Ops, PostTwo(1, Less, OfTwo), 2, No(SHAPE)),
];

const MOST: u64 = 1_000_000_000_000_000_000;

const OVER: u64 = 1_000_000_000_000_000_001;

// The machine tells whether the rows and potentials of a session's draft can be noted.
const DRAFTS: [Row; 11] = [
    (
        A,
        Noting(P, A, Ops, 100_001, OVER),
        0,
        No(Refusal::NotOperator),
    ),
    (A, Pot(P, Ops, 0, 100_001), 0, No(Refusal::NotOperator)),
    (
        Ops,
        Noting(P, A, Ops, 100_001, OVER),
        0,
        No(Refusal::UnknownMember),
    ),
    (
        Ops,
        Noting(P, Ops, A, 100_001, OVER),
        0,
        No(Refusal::UnknownMember),
    ),
    (
        Ops,
        Noting(P, A, A, 100_001, OVER),
        0,
        No(Refusal::OwnTrade),
    ),
    (
        Ops,
        Noting(P, A, B, 100_001, OVER),
        0,
        No(Refusal::GrossOver),
    ),
    (
        Ops,
        Noting(P, A, B, 100_001, MOST),
        0,
        No(Refusal::DraftFull),
    ),
    (Ops, Pot(P, Ops, 0, 100_001), 0, No(Refusal::UnknownMember)),
    (Ops, Pot(P, A, 0, 100_001), 0, No(Refusal::DraftFull)),
    (Ops, Noting(P, A, B, 100_000, MOST), 0, Noted(100_000)),
    (Ops, Pot(P, A, 0, 1), 0, Noted(1)),
];

// The history has no change then, and none is made.
const ASKERS: [Row; 2] = [
    (KeyA, Statement, 0, No(Refusal::NotGreeted)),
    (Ops, Statement, 0, No(Refusal::NotParty)),
];

#[test]
fn shapes_drafts_and_askers_are_refused_that_no_line_gives(rt: HostRuntime) -> Result<(), Fail> {
    let shapes = plays(rt.alloc(), &[&SHAPES])?;
    let drafts = plays(rt.alloc(), &[&DRAFTS, &ASKERS])?;
    assert!(rt; shapes && drafts);
    Ok(())
}
