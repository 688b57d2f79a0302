//! A sink over memory.
ghost use Rattle.std.specs.Prelude.{◌≡◌, ℕ, ◌+◌, vec_len, vec_capacity, ◌≤◌, ◌<◌, min, take, length, [], ◌∷◌, ◌++◌, IsErr, IsTrue, ◌↔◌, IfOk, OnOk, OnErr};
ghost use Rattle.outside.specs.Flow.{Takes};
ghost use Rattle.outside.specs.Faults.{CountsFault};
ghost use Rattle.outside.specs.MemorySink.{MemoryOutput, fresh_output, next_write_fails, output_after_fault, output_after_write};

use crate::{Failed, Sink};
use std::alloc::{AllocError, Global};
use std::marker::Model;

/// A sink over memory with a fixed room. Those of its writes fail that it is told to, and those of a piece that finds
/// no room left. Contracts see it as what it took, the room left, the number of its writes, the writes that fail and
/// the number that failed.
#[derive(Drop)]
pub struct MemorySink {
    bytes: Vec<u8>,
    capacity: usize,
    writes: u64,
    failing: Vec<u64>,
    faults: u64,
}

impl Model for MemorySink {
    ghost use Rattle.std.specs.Prelude.{◌-◌, ◌≤◌, length, vec_capacity};
    ghost use Rattle.outside.specs.MemorySink.{MemoryOutput};

    ghost Value = { MemoryOutput };

    ghost view = { λ s. record { taken = s.bytes.items; room = s.capacity - length s.bytes.items; writes = s.writes; failing = s.failing.items; faults = s.faults } };

    ghost invariant = { λ s. (length s.bytes.items ≤ s.capacity) × (s.capacity ≤ vec_capacity s.bytes) };
}

// Puts a piece behind the bytes, for which there is room.
fn append_reserved(bytes: &mut Vec<u8>, piece: &[u8])
    requires { vec_len bytes.old + length piece.now ≤ vec_capacity bytes.old }
    ensures items { bytes.new.items ≡ bytes.old.items ++ piece.now }
    ensures capacity { vec_capacity bytes.new ≡ vec_capacity bytes.old }
{
    for byte in piece {
        bytes.push_reserved(*byte);
    }
}

impl MemorySink {
    /// A sink with that much room, all of it taken now, and no write that is told to fail.
    pub fn new(alloc: Global, capacity: usize) -> Result<MemorySink, AllocError>
        ensures { IfOk result (λ s. s ≡ fresh_output capacity) }
    {
        Ok(MemorySink {
            bytes: Vec::with_capacity(alloc, capacity)?,
            capacity,
            writes: 0,
            failing: Vec::new(alloc),
            faults: 0,
        })
    }

    /// The bytes that it took.
    pub fn bytes(&self) -> &[u8]
        ensures { result.now ≡ self.now.taken }
    {
        &self.bytes
    }

    /// Lets that write fail too, the first since the sink was made being 1.
    pub fn fail_at(&mut self, call: u64) -> Result<(), AllocError>
        ensures listed { OnOk result (self.new ≡ record self.old { failing = self.old.failing ++ call ∷ [] }) }
        ensures refused { OnErr result (self.new ≡ self.old) }
    {
        self.failing.push(call)?;
        Ok(())
    }
}

impl Sink for MemorySink {
    ghost use Rattle.std.specs.Prelude.{Some};

    ghost taken = { λ s. Some s.taken };

    ghost faults = { λ s. s.faults };

    /// Takes as many of the bytes as fit, exactly where this write is none of those that fail and there is room for one.
    fn write(&mut self, bytes: &[u8]) -> Result<usize, Failed>
        ensures count { IfOk result (λ n. n ≤ length bytes.now) }
        ensures some { IfOk result (λ n. 0 < length bytes.now → 0 < n) }
        ensures takes { IfOk result (λ n. Takes (Some self.old.taken) (Some self.new.taken) (take n bytes.now)) }
        ensures nothing { OnErr result (Some self.new.taken ≡ Some self.old.taken) }
        ensures counts { CountsFault result self.old.faults self.new.faults }

        // Exactly this, besides what each sink promises.
        ensures fails { IsErr result ↔ IsTrue (next_write_fails self.old bytes.now) }
        ensures fault { OnErr result (self.new ≡ output_after_fault self.old) }
        ensures amount { IfOk result (λ n. n ≡ min (length bytes.now) self.old.room) }
        ensures after { IfOk result (λ n. self.new ≡ output_after_write self.old (take n bytes.now)) }
    {
        self.writes = self.writes.saturating_add(1);
        let n = bytes.len().min(self.capacity - self.bytes.len());
        let finds_no_room = !bytes.is_empty() && n == 0;
        if self.failing.contains(&self.writes) || finds_no_room {
            self.faults = self.faults.saturating_add(1);
            return Err(Failed);
        }
        append_reserved(&mut self.bytes, &bytes[..n]);
        Ok(n)
    }
}
