//! A source over bytes in memory.
ghost use Rattle.std.specs.Prelude.{◌≡◌, ℕ, ◌+◌, ◌≤◌, ◌<◌, min, take, drop, length, [], ◌∷◌, ◌++◌, IsErr, IsTrue, ◌↔◌, IfOk, OnOk, OnErr, Ok};
ghost use Rattle.outside.specs.Flow.{Flow, Gives, IsAtEnd};
ghost use Rattle.outside.specs.Faults.{CountsFault};
ghost use Rattle.outside.specs.MemorySource.{MemoryInput, fresh_input, next_read_fails, input_after_fault, input_after_read, input_flow};

use crate::{Failed, Source};
use std::alloc::{AllocError, Global};
use std::marker::Model;

/// A source over bytes in memory. Those of its reads fail that it is told to. Contracts see it as what it gave and has
/// left, the number of its reads, the reads that fail and the number that failed.
#[derive(Drop)]
pub struct MemorySource {
    bytes: Vec<u8>,
    next: usize,
    reads: u64,
    failing: Vec<u64>,
    faults: u64,
}

impl Model for MemorySource {
    ghost use Rattle.std.specs.Prelude.{take, drop, ◌≤◌, length};
    ghost use Rattle.outside.specs.MemorySource.{MemoryInput};

    ghost Value = { MemoryInput };

    ghost view = { λ s. record { given = take s.next s.bytes.items; left = drop s.next s.bytes.items; reads = s.reads; failing = s.failing.items; faults = s.faults } };

    ghost invariant = { λ s. s.next ≤ length s.bytes.items };
}

// Copies the bytes from `next` on to the front of a buffer, as many as fit, and says how many.
fn copy_next(bytes: &[u8], next: usize, into: &mut [u8]) -> usize
    requires { next ≤ length bytes.now }
    ensures count { result ≡ min (length into.old) (length (drop next bytes.now)) }
    ensures fits { next + result ≤ length bytes.now }
    ensures copied { into.new ≡ take result (drop next bytes.now) ++ drop result into.old }
{
    let n = into.len().min(bytes.len() - next);
    into[..n].copy_from_slice(&bytes[next..next + n]);
    n
}

impl MemorySource {
    /// A source that gives these bytes, with no read that fails.
    pub fn new(alloc: Global, bytes: &[u8]) -> Result<MemorySource, AllocError>
        ensures { IfOk result (λ s. s ≡ fresh_input bytes.now) }
    {
        Ok(MemorySource {
            bytes: bytes.to_vec(alloc)?,
            next: 0,
            reads: 0,
            failing: Vec::new(alloc),
            faults: 0,
        })
    }

    /// Lets that read fail too, the first since the source was made being 1.
    pub fn fail_at(&mut self, call: u64) -> Result<(), AllocError>
        ensures listed { OnOk result (self.new ≡ record self.old { failing = self.old.failing ++ call ∷ [] }) }
        ensures refused { OnErr result (self.new ≡ self.old) }
    {
        self.failing.push(call)?;
        Ok(())
    }
}

impl Source for MemorySource {
    ghost use Rattle.std.specs.Prelude.{Some};
    ghost use Rattle.outside.specs.MemorySource.{input_flow};

    ghost flow = { λ s. Some (input_flow s) };

    ghost faults = { λ s. s.faults };

    /// Gives as many bytes as there are and fit, exactly where this read is none of those that fail.
    fn read(&mut self, into: &mut [u8]) -> Result<usize, Failed>
        ensures count { IfOk result (λ n. n ≤ length into.old) }
        ensures gives { IfOk result (λ n. Gives (Some (input_flow self.old)) (Some (input_flow self.new)) (take n into.new)) }
        ensures end { result ≡ Ok 0 → 0 < length into.old → IsAtEnd (Some (input_flow self.new)) }
        ensures nothing { OnErr result (Some (input_flow self.new) ≡ Some (input_flow self.old)) }
        ensures counts { CountsFault result self.old.faults self.new.faults }

        // Exactly this, besides what each source promises.
        ensures fails { IsErr result ↔ IsTrue (next_read_fails self.old) }
        ensures fault { OnErr result (self.new ≡ input_after_fault self.old) }
        ensures kept { OnErr result (into.new ≡ into.old) }
        ensures amount { IfOk result (λ n. n ≡ min (length into.old) (length self.old.left)) }
        ensures bytes { IfOk result (λ n. into.new ≡ take n self.old.left ++ drop n into.old) }
        ensures after { IfOk result (λ n. self.new ≡ input_after_read self.old n) }
    {
        self.reads = self.reads.saturating_add(1);
        if self.failing.contains(&self.reads) {
            self.faults = self.faults.saturating_add(1);
            return Err(Failed);
        }
        let n = copy_next(&self.bytes, self.next, into);
        self.next += n;
        Ok(n)
    }
}
