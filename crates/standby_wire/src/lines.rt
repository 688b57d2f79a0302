//! Lines as a standby writes them.
ghost use Rattle.std.specs.Prelude.{◌≡◌, ◌≤◌, take, OnOk, OnErr};
ghost use Rattle.outside.specs.Faults.{CountsFault};
ghost use Rattle.outside.specs.Flow.{Takes, TakesFront};
ghost use Rattle.standby_wire.specs.Lines.{hello_line, next_line, bye_line};

use command_text::put::{put, put_number};
use outside::{Failed, Sink, write_all};
use units_core::Name;

// The most bytes of a line.
const ROOM: usize = 48;

fn put_hello(into: &mut [u8; ROOM], name: &Name, key: &Name) -> usize
    ensures fits { result ≤ ROOM }
    ensures text { take result into.new ≡ hello_line name.now key.now }
{
    let end = put(into, 0, b"HELLO ");
    let end = put(into, end, name.text());
    let end = put(into, end, b" ");
    let end = put(into, end, key.text());
    put(into, end, b"\n")
}

fn put_next(into: &mut [u8; ROOM], position: u64) -> usize
    ensures fits { result ≤ ROOM }
    ensures text { take result into.new ≡ next_line position }
{
    let end = put(into, 0, b"NEXT ");
    let end = put_number(into, end, position);
    put(into, end, b"\n")
}

/// Writes the line that greets, with a name and a key; where that fails, a front of it.
pub fn write_hello<K: Sink>(sink: &mut K, name: &Name, key: &Name) -> Result<(), Failed>
    ensures takes { OnOk result (Takes (K.taken sink.old) (K.taken sink.new) (hello_line name.now key.now)) }
    ensures front { OnErr result (TakesFront (K.taken sink.old) (K.taken sink.new) (hello_line name.now key.now)) }
    ensures counts { CountsFault result (K.faults sink.old) (K.faults sink.new) }
{
    let mut line = [0; ROOM];
    let end = put_hello(&mut line, name, key);
    write_all(sink, &line[..end])
}

/// Writes the line that asks for the entry behind a position; where that fails, a front of it.
pub fn write_next<K: Sink>(sink: &mut K, position: u64) -> Result<(), Failed>
    ensures takes { OnOk result (Takes (K.taken sink.old) (K.taken sink.new) (next_line position)) }
    ensures front { OnErr result (TakesFront (K.taken sink.old) (K.taken sink.new) (next_line position)) }
    ensures counts { CountsFault result (K.faults sink.old) (K.faults sink.new) }
{
    let mut line = [0; ROOM];
    let end = put_next(&mut line, position);
    write_all(sink, &line[..end])
}

/// Writes the line that says goodbye; where that fails, a front of it.
pub fn write_bye<K: Sink>(sink: &mut K) -> Result<(), Failed>
    ensures takes { OnOk result (Takes (K.taken sink.old) (K.taken sink.new) bye_line) }
    ensures front { OnErr result (TakesFront (K.taken sink.old) (K.taken sink.new) bye_line) }
    ensures counts { CountsFault result (K.faults sink.old) (K.faults sink.new) }
{
    write_all(sink, b"BYE\n")
}
