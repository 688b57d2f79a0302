//! Lines as a standby writes them.

use crate::names::named;
use outside::{Failed, MemorySink};
use standby_wire::{write_bye, write_hello, write_next};
use std::alloc::Global;
use std::test::Fail;

#[derive(Clone, Copy)]
enum Line {
    Hello,
    LongHello,
    Next(u64),
    Bye,
}

fn write(sink: &mut MemorySink, line: Line) -> Result<(), Failed> {
    match line {
        Line::Hello => write_hello(sink, &named(b"OPS"), &named(b"KO")),
        Line::LongHello => {
            write_hello(
                sink,
                &named(b"ABCDEFGHIJKLMNOP"),
                &named(b"0123456789-ABCDE"),
            )
        }
        Line::Next(position) => write_next(sink, position),
        Line::Bye => write_bye(sink),
    }
}

// Whether each line in turn goes out whole where that is said, and a sink of so much room has this text then.
fn go_out(alloc: Global, room: usize, cases: &[(Line, bool, &str)]) -> Result<bool, Fail> {
    let mut sink = MemorySink::new(alloc, room)?;
    for &(line, is_whole, taken) in cases {
        if write(&mut sink, line).is_ok() != is_whole || sink.bytes() != taken.as_bytes() {
            return Ok(false);
        }
    }
    Ok(true)
}

const SESSION: &[(Line, bool, &str)] = &[
    (Line::Hello, true, "HELLO OPS KO\n"),
    (Line::Next(0), true, "HELLO OPS KO\nNEXT 0\n"),
    (
        Line::Next(13_421_764),
        true,
        "HELLO OPS KO\nNEXT 0\nNEXT 13421764\n",
    ),
    (
        Line::Bye,
        true,
        "HELLO OPS KO\nNEXT 0\nNEXT 13421764\nBYE\n",
    ),
];

#[test]
fn a_session_is_written_to_the_byte(rt: HostRuntime) -> Result<(), Fail> {
    assert!(rt; go_out(rt.alloc(), 64, SESSION)?);
    Ok(())
}

const LONGEST: &[(Line, bool, &str)] = &[
    (
        Line::LongHello,
        true,
        "HELLO ABCDEFGHIJKLMNOP 0123456789-ABCDE\n",
    ),
    (
        Line::Next(u64::MAX),
        false,
        "HELLO ABCDEFGHIJKLMNOP 0123456789-ABCDE\nNEXT 184467440737095516",
    ),
    (
        Line::Bye,
        false,
        "HELLO ABCDEFGHIJKLMNOP 0123456789-ABCDE\nNEXT 184467440737095516",
    ),
];

#[test]
fn the_longest_lines_go_out_as_far_as_there_is_room(rt: HostRuntime) -> Result<(), Fail> {
    assert!(rt; go_out(rt.alloc(), 63, LONGEST)?);
    Ok(())
}
