//! Sources and sinks over the readers and writers of the system. They tell nothing of what goes through them; what a
//! reader or a writer itself tells of its bytes is passed on unchanged.
ghost use Rattle.std.specs.Prelude.{◌≡◌, ℕ, ◌≤◌, ◌<◌, take, length, Some, None, IfSome, IfNone, OnOk, OnErr, IfOk, Ok};
ghost use Rattle.std.specs.Io.KnownBytes.{Consumes, Appends, Keeps};
ghost use Rattle.std.specs.Io.KnownBytes as known;
ghost use Rattle.outside.specs.Faults.{CountsFault, one_more};
ghost use Rattle.outside.specs.Flow.{Flow, Gives, Takes};

use crate::{Failed, Sink, Source};
use std::io::{ErrorKind, Read, Write};

/// A source over a reader, as standard input or a connection. It counts the reads that failed.
#[derive(Drop)]
pub struct StreamSource<R: Read + Drop> {
    reader: R,
    faults: u64,
}

// One read, tried again where a signal broke it off. None: the reader failed.
fn read_once<R: Read>(reader: &mut R, into: &mut [u8]) -> Option<usize>
    ensures count { IfSome result (λ n. n ≤ length into.old) }
    ensures gives { IfSome result (λ n. Consumes (R.remaining reader.old) (R.remaining reader.new) (take n into.new)) }
    ensures end { result ≡ Some 0 → 0 < length into.old → known.IsAtEnd (R.remaining reader.new) }
    ensures keeps { IfNone result (Keeps (R.remaining reader.old) (R.remaining reader.new)) }
{
    for _ in 0..u64::MAX {
        match reader.read(into) {
            Ok(n) => return Some(n),
            Err(error) => {
                if error.kind() != ErrorKind::Interrupted {
                    return None;
                }
            }
        }
    }
    None
}

// One write, tried again where a signal broke it off. None: the writer failed, or took nothing of a piece.
fn write_once<W: Write>(writer: &mut W, bytes: &[u8]) -> Option<usize>
    ensures count { IfSome result (λ n. n ≤ length bytes.now) }
    ensures some { IfSome result (λ n. 0 < length bytes.now → 0 < n) }
    ensures takes { IfSome result (λ n. Appends (W.contents writer.old) (W.contents writer.new) (take n bytes.now)) }
    ensures keeps { IfNone result (Keeps (W.contents writer.old) (W.contents writer.new)) }
{
    for _ in 0..u64::MAX {
        match writer.write(bytes) {
            Ok(n) => {
                if n == 0 && !bytes.is_empty() {
                    return None;
                }
                return Some(n);
            }
            Err(error) => {
                if error.kind() != ErrorKind::Interrupted {
                    return None;
                }
            }
        }
    }
    None
}

impl<R: Read + Drop> StreamSource<R> {
    ghost use Rattle.outside.specs.Streams.{reader_of, read_faults};

    /// A source over this reader.
    pub fn new(reader: R) -> StreamSource<R>
        ensures reader { reader_of result ≡ reader }
        ensures faults { read_faults result ≡ 0 }
    {
        StreamSource { reader, faults: 0 }
    }
}

impl<R: Read + Drop> Source for StreamSource<R> {
    ghost use Rattle.outside.specs.Streams.{reader_of, read_faults};

    ghost flow = { λ s. None };

    ghost faults = { λ s. read_faults s };

    /// Gives what the reader gives, and fails where the reader does.
    fn read(&mut self, into: &mut [u8]) -> Result<usize, Failed>
        ensures count { IfOk result (λ n. n ≤ length into.old) }
        ensures gives { IfOk result (λ n. Gives None None (take n into.new)) }
        ensures counts { CountsFault result (read_faults self.old) (read_faults self.new) }

        // Where the reader tells its bytes, they are passed on, and none is lost.
        ensures passes_on { IfOk result (λ n. Consumes (R.remaining (reader_of self.old)) (R.remaining (reader_of self.new)) (take n into.new)) }
        ensures ended { result ≡ Ok 0 → 0 < length into.old → known.IsAtEnd (R.remaining (reader_of self.new)) }
        ensures keeps { OnErr result (Keeps (R.remaining (reader_of self.old)) (R.remaining (reader_of self.new))) }
        ensures no_fault { OnOk result (read_faults self.new ≡ read_faults self.old) }
        ensures fault { OnErr result (read_faults self.new ≡ one_more (read_faults self.old)) }
    {
        match read_once(&mut self.reader, into) {
            Some(n) => Ok(n),
            None => {
                self.faults = self.faults.saturating_add(1);
                Err(Failed)
            }
        }
    }
}

/// A sink over a writer, as standard output or a connection. It counts the writes that failed.
#[derive(Drop)]
pub struct StreamSink<W: Write + Drop> {
    writer: W,
    faults: u64,
}

impl<W: Write + Drop> StreamSink<W> {
    ghost use Rattle.outside.specs.Streams.{writer_of, write_faults};

    /// A sink over this writer.
    pub fn new(writer: W) -> StreamSink<W>
        ensures writer { writer_of result ≡ writer }
        ensures faults { write_faults result ≡ 0 }
    {
        StreamSink { writer, faults: 0 }
    }
}

impl<W: Write + Drop> Sink for StreamSink<W> {
    ghost use Rattle.outside.specs.Streams.{writer_of, write_faults};

    ghost taken = { λ s. None };

    ghost faults = { λ s. write_faults s };

    /// Takes what the writer takes, and fails where the writer does or takes nothing of a piece.
    fn write(&mut self, bytes: &[u8]) -> Result<usize, Failed>
        ensures count { IfOk result (λ n. n ≤ length bytes.now) }
        ensures some { IfOk result (λ n. 0 < length bytes.now → 0 < n) }
        ensures takes { IfOk result (λ n. Takes None None (take n bytes.now)) }
        ensures counts { CountsFault result (write_faults self.old) (write_faults self.new) }

        // Where the writer tells its bytes, they are those that were taken.
        ensures passes_on { IfOk result (λ n. Appends (W.contents (writer_of self.old)) (W.contents (writer_of self.new)) (take n bytes.now)) }
        ensures keeps { OnErr result (Keeps (W.contents (writer_of self.old)) (W.contents (writer_of self.new))) }
        ensures no_fault { OnOk result (write_faults self.new ≡ write_faults self.old) }
        ensures fault { OnErr result (write_faults self.new ≡ one_more (write_faults self.old)) }
    {
        match write_once(&mut self.writer, bytes) {
            Some(n) => Ok(n),
            None => {
                self.faults = self.faults.saturating_add(1);
                Err(Failed)
            }
        }
    }
}
