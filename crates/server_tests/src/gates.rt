//! The gate that the program is given: a worker passes it before each piece that it solves, and workers solve beside one another.

use crate::paced::{PacedGate, Steps};
use crate::program::{SCRIPT, Text, Trial, run_at, so};
use crate::sources::Input;
use doors::MemoryListener;
use outside::MemorySink;
use std::alloc::AllocGlobal;
use std::sync::Wait;
use std::test::Fail;
use std::thread::Threads;

const TWO_PRODUCTS: &[u8] =
    b"name,role,key\nA,dealer,KA\nB,dealer,KB\nC,dealer,KC\nOPS,operator,KO\nP,product,2031-06-30\nQ,product,2031-06-30\n";

// A ring of three trades in each product.
const RINGS: &[u8] =
    b"seller,buyer,product,amount\nA,B,P,10\nB,C,P,10\nC,A,P,10\nA,B,Q,7\nB,C,Q,7\nC,A,Q,7\n";

const RINGS_BY_HAND: &[u8] =
    b"HELLO A KA\nTRADE A B P 10 2026-03-02\nTRADE A B Q 7 2026-03-02\nHELLO B KB\nAFFIRM 1\nAFFIRM 2\nTRADE B C P 10 2026-03-02\nTRADE B C Q 7 2026-03-02\nHELLO C KC\nAFFIRM 3\nAFFIRM 4\nTRADE C A P 10 2026-03-02\nTRADE C A Q 7 2026-03-02\nHELLO A KA\nAFFIRM 5\nAFFIRM 6\nHELLO OPS KO\nFREEZE 2026-03-31\nPROPOSE 1 conservative\n";

// What is said, how many workers the gate waits for, how often it is passed, and the output.
const PASSED: &[(&[&str], &[u8], u64, u64, Text<'static>)] = &[
    (
        &["script", "T", "j"],
        b"HELLO OPS KO\nFREEZE 2026-03-31\nBEGIN 1 conservative\n",
        0,
        0,
        Text::Is(b"ok 0 hello OPS\nok 1 frozen 1 0\nok 2 begun 1 1\n"),
    ),
    // Without a trade no pair may have one, and no member is in a part.
    (
        &["script", "T", "j"],
        b"HELLO OPS KO\nFREEZE 2026-03-31\nPROPOSE 1 conservative\n",
        0,
        0,
        Text::Is(b"ok 0 hello OPS\nok 1 frozen 1 0\nok 3 nothing 1 1\n"),
    ),
    // The dealers may trade, in each product.
    (
        &["script", "T", "j"],
        b"HELLO OPS KO\nFREEZE 2026-03-31\nPROPOSE 1 hybrid\n",
        0,
        2,
        Text::Is(b"ok 0 hello OPS\nok 1 frozen 1 0\nok 3 nothing 1 1\n"),
    ),
    // A gate that holds each worker until two have come.
    (
        &["solve", "T", "t", "conservative"],
        b"",
        2,
        2,
        Text::Ends(b"\nbound 0\nend 2\n"),
    ),
    (
        &["script", "T", "j"],
        RINGS_BY_HAND,
        2,
        2,
        Text::Ends(b"\nok 15 proposed 1 1 51 0\n"),
    ),
    // Two are enough.
    (
        &["solve", "T", "t", "conservative", "--workers", "2"],
        b"",
        2,
        2,
        Text::Ends(b"\nbound 0\nend 2\n"),
    ),
    (
        &["script", "--workers=2", "T", "j"],
        RINGS_BY_HAND,
        2,
        2,
        Text::Ends(b"\nok 15 proposed 1 1 51 0\n"),
    ),
];

// That it passes this gate and writes what it is to.
fn passes<R: Threads + Wait + Sync + AllocGlobal>(
    rt: &R,
    trial: &Trial<'_>,
    gate: &PacedGate<'_>,
) -> Result<(), Fail> {
    let mut source = Input::new(trial.input, trial.most, 0);
    let mut output = MemorySink::new(rt.alloc(), trial.room)?;
    let mut listener = MemoryListener::new(rt.alloc());
    let _images = run_at(rt, trial, &mut source, &mut output, &mut listener, gate)?;
    so(trial.output.is(output.bytes()), "its output is otherwise")
}

fn all_pass<R: Threads + Wait + Sync + AllocGlobal>(rt: &R) -> Result<(), Fail> {
    for &(words, input, due, count, output) in PASSED {
        let steps = Steps::new();
        let trial = Trial {
            words,
            files: &[("T", TWO_PRODUCTS), ("t", RINGS)],
            input,
            output,
            ..SCRIPT
        };
        passes(rt, &trial, &PacedGate::new(due, &steps))?;
        so(steps.are(count), "the gate was passed otherwise")?;
    }
    Ok(())
}

#[test]
fn each_piece_passes_the_gate_and_two_workers_meet_there(rt: HostRuntime) -> Result<(), Fail> {
    all_pass(&rt)
}
