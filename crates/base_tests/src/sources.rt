//! Sources over memory and over a reader.

use outside::{MemorySource, Source, StreamSource};
use std::alloc::{AllocError, Global};
use std::io::Cursor;
use std::test::Fail;

/// Whether each read in turn gives so many bytes, or fails where none are told, and leaves the buffer with this text.
fn reads<S: Source>(source: &mut S, into: &mut [u8], cases: &[(Option<usize>, &str)]) -> bool {
    for &(count, text) in cases {
        if source.read(into).ok() != count || &*into != text.as_bytes() {
            return false;
        }
    }
    true
}

/// A source of five bytes whose second and fifth read fail.
fn failing(alloc: Global) -> Result<MemorySource, AllocError> {
    let mut source = MemorySource::new(alloc, b"ABCDE")?;
    source.fail_at(2)?;
    source.fail_at(5)?;
    Ok(source)
}

#[test]
fn a_source_in_memory_gives_its_bytes_and_goes_on_after_a_read_that_fails(
    rt: HostRuntime,
) -> Result<(), Fail> {
    let mut source = failing(rt.alloc())?;
    let cases = [
        (Some(3), "ABC"),
        (None, "ABC"),
        (Some(2), "DEC"),
        (Some(0), "DEC"),
        (None, "DEC"),
        (Some(0), "DEC"),
    ];
    assert!(rt; reads(&mut source, &mut [0; 3], &cases));
    Ok(())
}

#[test]
fn a_source_over_a_reader_gives_its_bytes_and_then_the_end(rt: HostRuntime) {
    let mut source = StreamSource::new(Cursor::new(b"HELLO\n".as_slice()));
    let cases = [(Some(4), "HELL"), (Some(2), "O\nLL"), (Some(0), "O\nLL")];
    assert!(rt; reads(&mut source, &mut [0; 4], &cases));
}
