//! The line that is being read.

use std::alloc::{AllocError, Global};
use std::marker::Model;
use units_core::MOST_LINE;

// How much of a line is kept: one byte more than a line may have.
const ROOM: usize = MOST_LINE + 1;

/// The first 4,097 bytes of the line that is being read.
#[derive(Drop)]
pub struct LineBuffer {
    bytes: Vec<u8>,
}

impl Model for LineBuffer {
    ghost use Rattle.std.specs.Prelude.{List, ℕ, ◌+◌, ◌≤◌, vec_capacity, vec_len};
    ghost use Rattle.units_core.specs.declared.limits.TheConstants.{MOST_LINE};

    ghost Value = { List ℕ };

    ghost view = { λ b. b.bytes.items };

    ghost invariant = { λ b. (vec_len b.bytes ≤ MOST_LINE + 1) × (MOST_LINE + 1 ≤ vec_capacity b.bytes) };
}

impl LineBuffer {
    ghost use Rattle.std.specs.Prelude.{◌≡◌, ◌+◌, [], ◌∷◌, ◌++◌, take, IfOk};
    ghost use Rattle.units_core.specs.declared.limits.TheConstants.{MOST_LINE};

    /// An empty line. It takes all its memory now.
    pub fn new(alloc: Global) -> Result<LineBuffer, AllocError>
        ensures { IfOk result (λ b. b ≡ []) }
    {
        Ok(LineBuffer {
            bytes: Vec::with_capacity(alloc, ROOM)?,
        })
    }

    /// One more byte of the line.
    pub fn push(&mut self, byte: u8)
        ensures { self.new ≡ take (MOST_LINE + 1) (self.old ++ byte ∷ []) }
    {
        if self.bytes.len() < ROOM {
            self.bytes.push_reserved(byte);
        }
    }

    /// Begins the next line.
    pub fn clear(&mut self)
        ensures { self.new ≡ [] }
    {
        self.bytes.clear();
    }

    /// What is kept.
    pub fn bytes(&self) -> &[u8]
        ensures { result.now ≡ self.now }
    {
        &self.bytes
    }
}
