//! Sinks over memory and over a writer, and whole texts that go into them.

use outside::{MemorySink, Sink, StreamSink, write_all};
use std::alloc::{AllocError, Global};
use std::io::Cursor;
use std::test::Fail;

/// Whether each write in turn takes so many bytes, or fails where none are told.
fn takes<K: Sink>(sink: &mut K, cases: &[(&str, Option<usize>)]) -> bool {
    for &(text, count) in cases {
        if sink.write(text.as_bytes()).ok() != count {
            return false;
        }
    }
    true
}

/// A sink with so much room whose second write fails.
fn failing(alloc: Global, room: usize) -> Result<MemorySink, AllocError> {
    let mut sink = MemorySink::new(alloc, room)?;
    sink.fail_at(2)?;
    Ok(sink)
}

#[test]
fn a_sink_in_memory_takes_what_fits_and_fails_where_it_is_told_and_when_full(
    rt: HostRuntime,
) -> Result<(), Fail> {
    let mut sink = failing(rt.alloc(), 4)?;
    let cases = [
        ("AB", Some(2)),
        ("CDE", None),
        ("CDE", Some(2)),
        ("E", None),
        ("", Some(0)),
    ];
    assert!(rt; takes(&mut sink, &cases) && sink.bytes() == b"ABCD".as_slice());
    Ok(())
}

#[test]
fn a_sink_fails_where_its_writer_takes_nothing(rt: HostRuntime) {
    let mut room = [0; 3];
    let mut sink = StreamSink::new(Cursor::new(room.as_mut_slice()));
    let cases = [("ABCD", Some(3)), ("D", None), ("", Some(0))];
    assert!(rt; takes(&mut sink, &cases));
}

/// Whether each text in turn goes out whole where that is said, and the sink has this text then.
fn goes_out(sink: &mut MemorySink, cases: &[(&str, bool, &str)]) -> bool {
    for &(text, is_whole, taken) in cases {
        if write_all(sink, text.as_bytes()).is_ok() != is_whole
            || sink.bytes() != taken.as_bytes()
        {
            return false;
        }
    }
    true
}

#[test]
fn a_whole_text_goes_out_or_a_front_of_it_and_the_fault_is_told(
    rt: HostRuntime,
) -> Result<(), Fail> {
    let mut sink = failing(rt.alloc(), 8)?;
    let cases = [
        ("OK 1\n", true, "OK 1\n"),
        ("OK 2\n", false, "OK 1\n"),
        ("OK 3\n", false, "OK 1\nOK "),
        ("", true, "OK 1\nOK "),
    ];
    assert!(rt; goes_out(&mut sink, &cases));
    Ok(())
}

/// Whether both texts go out.
fn go_out<K: Sink>(sink: &mut K, first: &str, second: &str) -> bool {
    write_all(sink, first.as_bytes()).is_ok() && write_all(sink, second.as_bytes()).is_ok()
}

#[test]
fn a_sink_over_a_writer_puts_the_bytes_there(rt: HostRuntime) {
    let mut out = Vec::new(rt.alloc());
    let are_out = go_out(&mut StreamSink::new(&mut out), "OK 1\n", "OK 2\n");
    assert!(rt; are_out && out.as_slice() == b"OK 1\nOK 2\n".as_slice());
}
