//! Every whole line that was read is answered before more is read, and replies to lines that were read together are written together.

use crate::memory::repeated;
use crate::paced::{BarSink, PacedSource, Piece, Steps, lines_in};
use crate::program::{SCRIPT, Trial, run_at, so};
use crate::sources::Input;
use doors::MemoryListener;
use outside::{OpenGate, Source};
use std::alloc::AllocGlobal;
use std::sync::Wait;
use std::test::Fail;
use std::thread::Threads;

// Pieces that a script reads, each once there were so many lines of replies; the write that fails, 0 for none; the status; and
// the writes.
type Case = (&'static [Piece], u64, u8, &'static [u8]);

// That a script that reads the pieces of each case makes its writes.
fn all_write<R: Threads + Wait + Sync + AllocGlobal>(rt: &R, cases: &[Case]) -> Result<(), Fail> {
    for &(pieces, failing, status, want) in cases {
        let steps = Steps::new();
        let mut source = PacedSource::new(pieces, &steps, 1);
        writes(rt, &mut source, &steps, (failing, status), want)?;
    }
    Ok(())
}

// That a script over this source makes these writes, of which that one fails, and ends with that status.
fn writes<R: Threads + Wait + Sync + AllocGlobal, S: Source>(
    rt: &R,
    source: &mut S,
    steps: &Steps,
    fault: (u64, u8),
    want: &[u8],
) -> Result<(), Fail> {
    let (failing, status) = fault;
    let mut output = BarSink::new(rt.alloc(), steps, failing)?;
    let errors: &[u8] = if status == 0 { b"" } else { b"sink fault\n" };
    let script = Trial {
        status,
        errors,
        ..SCRIPT
    };
    let mut listener = MemoryListener::new(rt.alloc());
    let _images = run_at(rt, &script, source, &mut output, &mut listener, &OpenGate)?;
    let written = output.bytes() == want && steps.are(lines_in(want));
    so(written, "the writes are otherwise")
}

// Two pieces of two lines each, and a last line.
const TWICE_TWO: &[Piece] = &[
    (0, "HELLO A KA\nTRADE A B P 10 2026-03-02\n"),
    (0, "HELLO B KB\nAFFIRM 1\n"),
    (0, "NETS P"),
];

const WRITES: &[Case] = &[
    // Lines that come one by one.
    (
        &[(0, "HELLO A KA\n"), (0, "NETS P\n"), (0, "NETS P\n")],
        0,
        0,
        b"ok 0 hello A\n|ok 0 nets 0 0 0\n|ok 0 nets 0 0 0\n|",
    ),
    // Lines that are read together, one of them with detail lines.
    (
        &[(
            0,
            "HELLO A KA\nTRADE A B P 10 2026-03-02\nSTATEMENT\nNETS Q\n",
        )],
        0,
        0,
        b"ok 0 hello A\nok 1 trade 1\nok 1 statement 1\ntrade 1 A B P 10 2026-03-02 alleged -\nno 1 5 unknown-product\n|",
    ),
    // A begun line waits for its end, and the replies before it do not wait for it.
    (
        &[(0, "HELLO A KA\nNETS P\nNE"), (0, "TS P\nNETS P\n")],
        0,
        0,
        b"ok 0 hello A\nok 0 nets 0 0 0\n|ok 0 nets 0 0 0\nok 0 nets 0 0 0\n|",
    ),
    (
        &[(0, "HEL"), (0, "LO A KA"), (0, "\n")],
        0,
        0,
        b"ok 0 hello A\n|",
    ),
    // A last line without a line feed is known to be one at the input's end.
    (
        &[(0, "HELLO A KA\nNETS P\nNETS P")],
        0,
        0,
        b"ok 0 hello A\nok 0 nets 0 0 0\n|ok 0 nets 0 0 0\n|",
    ),
    // A BYE in the middle of a piece.
    (
        &[
            (0, "HELLO A KA\nNETS P\nBYE\nNETS P\nNETS P\n"),
            (0, "NETS P\n"),
        ],
        0,
        0,
        b"ok 0 hello A\nok 0 nets 0 0 0\nok 0 bye\n|",
    ),
    // What waits does not wait for a PROPOSE.
    (
        &[(
            0,
            "HELLO OPS KO\nFREEZE 2026-03-31\nPROPOSE 1 hybrid\nNETS P\n",
        )],
        0,
        0,
        b"ok 0 hello OPS\nok 1 frozen 1 0\n|ok 3 nothing 1 1\nok 3 market 0 0 0 0\n|",
    ),
    // Each piece is read once all whole lines before it were answered.
    (
        &[
            (0, "HELLO A KA\n"),
            (1, "TRADE A B P 10 2026-03-02\n"),
            (2, "STATEMENT\n"),
            (4, "HELLO B KB\n"),
            (5, "AFFIRM 1\n"),
            (6, "NETS P\n"),
            (7, ""),
        ],
        0,
        0,
        b"ok 0 hello A\n|ok 1 trade 1\n|ok 1 statement 1\ntrade 1 A B P 10 2026-03-02 alleged -\n|ok 1 hello B\n|ok 2 live 1\n|ok 2 nets 0 10 -10\n|",
    ),
    (
        &[
            (0, "HELLO A KA\nTRADE A B P 10 2026-03-02\nSTATE"),
            (2, "MENT"),
            (2, "\nHELLO B KB\r\nAFFIRM 1\nNETS P"),
            (6, ""),
        ],
        0,
        0,
        b"ok 0 hello A\nok 1 trade 1\n|ok 1 statement 1\ntrade 1 A B P 10 2026-03-02 alleged -\nok 1 hello B\nok 2 live 1\n|ok 2 nets 0 10 -10\n|",
    ),
    // A write that fails leaves the writes before it.
    (TWICE_TWO, 1, 5, b""),
    (TWICE_TWO, 2, 5, b"ok 0 hello A\nok 1 trade 1\n|"),
    (
        TWICE_TWO,
        3,
        5,
        b"ok 0 hello A\nok 1 trade 1\n|ok 1 hello B\nok 2 live 1\n|",
    ),
];

#[test]
fn lines_that_are_read_together_are_replied_to_in_one_write(rt: HostRuntime) -> Result<(), Fail> {
    all_write(&rt, WRITES)
}

// 200 trades, and nine statements of them, which have more than 65,536 bytes: what may wait.
fn writes_long_replies<R: Threads + Wait + Sync + AllocGlobal>(rt: &R) -> Result<(), Fail> {
    let input = repeated(
        rt.alloc(),
        "HELLO A KA\n",
        "TRADE A B P 10 2026-03-02\n",
        200,
        "STATEMENT\nSTATEMENT\nSTATEMENT\nSTATEMENT\nSTATEMENT\nSTATEMENT\nSTATEMENT\nSTATEMENT\nSTATEMENT\n",
    )?;
    let steps = Steps::new();
    let mut output = BarSink::new(rt.alloc(), &steps, 0)?;
    let mut source = Input::new(input.as_bytes(), 65536, 0);
    let mut listener = MemoryListener::new(rt.alloc());
    let _images = run_at(
        rt,
        &SCRIPT,
        &mut source,
        &mut output,
        &mut listener,
        &OpenGate,
    )?;
    let text = output.bytes();
    let bars = text.iter().filter(|byte| **byte == b'|').count();
    let ended = text.ends_with(b"\ntrade 200 A B P 10 2026-03-02 alleged -\n|");
    // A line for the greeting, each trade and each statement, and each statement's lines.
    let lines = 1 + 200 + 9 + 9 * 200;
    so(
        bars == 2 && ended && steps.are(lines),
        "the writes are otherwise",
    )
}

#[test]
fn replies_that_are_longer_than_what_may_wait_are_written_in_two_writes(
    rt: HostRuntime,
) -> Result<(), Fail> {
    writes_long_replies(&rt)
}
