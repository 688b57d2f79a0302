//! What a session has said and its sink has not yet.

ghost use Rattle.std.specs.Prelude.{◌≡◌, ◌+◌, ◌≤◌, [], ◌++◌, length, OnOk, OnErr, IfOk};
ghost use Rattle.outside.specs.Faults.{CountsFault};
ghost use Rattle.outside.specs.Flow.{Takes, TakesFront};
ghost use Rattle.session.specs.Pending.{Says};
ghost use Rattle.units_core.specs.declared.limits.TheConstants.{MOST_LINE};

use outside::{Failed, Sink, write_all};
use std::alloc::{AllocError, Global};
use std::marker::Model;
use units_core::MOST_LINE;

// How many bytes wait at the most.
const ROOM: usize = 65536;

/// Text that waits for its sink, at most 65,536 bytes of it.
#[derive(Drop)]
pub struct Outbox {
    bytes: Vec<u8>,
}

impl Model for Outbox {
    ghost use Rattle.std.specs.Prelude.{List, ℕ, ◌≤◌, vec_capacity, vec_len};

    ghost Value = { List ℕ };

    ghost view = { λ o. o.bytes.items };

    ghost invariant = { λ o. (vec_len o.bytes ≤ 65536) × (65536 ≤ vec_capacity o.bytes) };
}

impl Outbox {
    /// Nothing waits. It takes all its memory now.
    pub fn new(alloc: Global) -> Result<Outbox, AllocError>
        ensures { IfOk result (λ o. o ≡ []) }
    {
        Ok(Outbox {
            bytes: Vec::with_capacity(alloc, ROOM)?,
        })
    }

    /// Gives the sink all that waits, in one call where the sink takes it whole. Where the sink fails, it took a front.
    pub fn flush<K: Sink>(&mut self, sink: &mut K) -> Result<(), Failed>
        ensures takes { OnOk result (Takes (K.taken sink.old) (K.taken sink.new) self.old) }
        ensures empty { OnOk result (self.new ≡ []) }
        ensures front { OnErr result (TakesFront (K.taken sink.old) (K.taken sink.new) self.old) }
        ensures kept { OnErr result (self.new ≡ self.old) }
        ensures counts { CountsFault result (K.faults sink.old) (K.faults sink.new) }
    {
        write_all(sink, &self.bytes)?;
        self.bytes.clear();
        Ok(())
    }

    // Puts a text behind what waits, for which there is room.
    fn append(&mut self, text: &[u8])
        requires { length self.old + length text.now ≤ 65536 }
        ensures { self.new ≡ self.old ++ text.now }
    {
        let Ok(()) = self.bytes.extend_from_slice(text) else {
            unreachable!()
        };
    }

    /// Puts a text behind what waits. Where there is no room for it, the sink is first given all that waits.
    pub fn put<K: Sink>(&mut self, text: &[u8], sink: &mut K) -> Result<(), Failed>
        requires { length text.now ≤ MOST_LINE }
        ensures said { OnOk result (Says (K.taken sink.old) (K.taken sink.new) self.old self.new text.now) }
        ensures front { OnErr result (TakesFront (K.taken sink.old) (K.taken sink.new) self.old) }
        ensures kept { OnErr result (self.new ≡ self.old) }
        ensures counts { CountsFault result (K.faults sink.old) (K.faults sink.new) }
    {
        if self.bytes.len() + text.len() <= ROOM {
            self.append(text);
            return Ok(());
        }
        self.flush(sink)?;
        self.append(text);
        Ok(())
    }

    /// Puts a text of any length behind what waits, piece by piece.
    pub fn put_long<K: Sink>(&mut self, text: &[u8], sink: &mut K) -> Result<(), Failed>
        ensures said { OnOk result (Says (K.taken sink.old) (K.taken sink.new) self.old self.new text.now) }
        ensures front { OnErr result (TakesFront (K.taken sink.old) (K.taken sink.new) (self.old ++ text.now)) }
        ensures counts { CountsFault result (K.faults sink.old) (K.faults sink.new) }
    {
        let mut rest = text;
        while rest.len() > MOST_LINE {
            let (piece, others) = rest.split_at(MOST_LINE);
            self.put(piece, sink)?;
            rest = others;
        }
        self.put(rest, sink)
    }
}
