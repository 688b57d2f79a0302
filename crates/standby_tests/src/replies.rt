//! What a primary replies, as a source.

use outside::MemorySource;
use std::alloc::Global;
use std::test::Fail;

/// What a primary replies: it greets, tells TRADE A B P 10 2026-03-02 by A, then AFFIRM 1 by B, or by A, and that there is no more.
#[derive(Clone, Copy)]
pub enum Told {
    Hello,
    Trade,
    Affirm,
    OwnAffirm,
    Last,
    /// This text.
    Text(&'static [u8]),
}

fn text_of(told: Told) -> &'static [u8] {
    match told {
        Told::Hello => b"ok 2 hello OPS\n",
        Told::Trade =>
            b"ok 2 entry 1 33\n\0\0\0\0\0\0\0\0\0\0\0\0\x01A\x01\x01A\x01B\x01P\x0a\0\0\0\0\0\0\0\xea\x07\x03\x02\n",
        Told::Affirm => b"ok 2 entry 2 23\n\0\0\0\0\0\0\0\0\0\0\0\0\x01B\x02\x01\0\0\0\0\0\0\0\n",
        Told::OwnAffirm =>
            b"ok 2 entry 2 23\n\0\0\0\0\0\0\0\0\0\0\0\0\x01A\x02\x01\0\0\0\0\0\0\0\n",
        Told::Last => b"ok 2 none\n",
        Told::Text(text) => text,
    }
}

/// A source of these replies, whose read with this number fails, if it is not 0.
pub fn source_of(alloc: Global, replies: &[Told], read: u64) -> Result<MemorySource, Fail> {
    let mut input = Vec::new(alloc);
    for &told in replies {
        input.extend_from_slice(text_of(told))?;
    }
    let mut source = MemorySource::new(alloc, &input)?;
    source.fail_at(read)?;
    Ok(source)
}
