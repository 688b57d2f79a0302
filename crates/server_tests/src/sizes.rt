//! The largest lines, trades and sessions.

use crate::memory::repeated;
use crate::program::{SCRIPT, Text, Trial, run_at, so};
use crate::sources::Endless;
use doors::MemoryListener;
use outside::{MemorySink, OpenGate};
use std::alloc::AllocGlobal;
use std::sync::Wait;
use std::test::Fail;
use std::thread::Threads;

// What is said first, what so many times behind it, and what then; and what the output is to be.
const SESSIONS: &[(&str, &str, usize, &str, Text<'static>)] = &[
    // A line of 4,096 bytes, and longer ones.
    (
        "",
        "X",
        4096,
        "\nNETS P\n",
        Text::Is(b"no 0 3 bad-line 0\nno 0 1 not-greeted\n"),
    ),
    (
        "",
        "X",
        4097,
        "\nNETS P\n",
        Text::Is(b"no 0 3 bad-line 4096\nno 0 1 not-greeted\n"),
    ),
    (
        "",
        "X",
        70000,
        "\nNETS P\n",
        Text::Is(b"no 0 3 bad-line 4096\nno 0 1 not-greeted\n"),
    ),
    // The trade behind a thousand of the largest.
    (
        "HELLO A KA\n",
        "TRADE A B P 1000000000000000 2026-03-02\n",
        1000,
        "TRADE A B P 1 2026-03-02\n",
        Text::Ends(b"ok 1000 trade 1000\nno 1000 9 gross-over\n"),
    ),
];

fn all_are_answered<R: Threads + Wait + Sync + AllocGlobal>(rt: &R) -> Result<(), Fail> {
    for &(front, text, count, back, output) in SESSIONS {
        let input = repeated(rt.alloc(), front, text, count, back)?;
        let session = Trial {
            input: input.as_bytes(),
            output,
            ..SCRIPT
        };
        session.ends(rt)?;
    }
    Ok(())
}

#[test]
fn a_long_line_is_one_line_and_a_product_is_full_at_a_thousand_of_the_largest_trades(
    rt: HostRuntime,
) -> Result<(), Fail> {
    all_are_answered(&rt)
}

const LIMITED: Trial<'static> = Trial {
    status: 8,
    errors: b"session limit\n",
    ..SCRIPT
};

fn ends_at_its_limit<R: Threads + Wait + Sync + AllocGlobal>(rt: &R) -> Result<(), Fail> {
    let mut source = Endless::new();
    let mut output = MemorySink::new(rt.alloc(), 256)?;
    let mut listener = MemoryListener::new(rt.alloc());
    let _images = run_at(
        rt,
        &LIMITED,
        &mut source,
        &mut output,
        &mut listener,
        &OpenGate,
    )?;
    so(
        output.bytes().is_empty() && source.given() == 1_073_741_824,
        "it ends at another limit",
    )
}

#[test]
fn a_session_takes_two_to_the_thirty_bytes_at_most(rt: HostRuntime) -> Result<(), Fail> {
    ends_at_its_limit(&rt)
}
