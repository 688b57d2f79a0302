//! The frame of a record.
ghost use Rattle.std.specs.Prelude.{◌≡◌, ◌<◌, ◌≤◌, ◌+◌, ◌^◌, [], ◌++◌, length, vec_len, vec_capacity, IfOk};
ghost use Rattle.journal_core.specs.Frame.{staged};

use std::alloc::{AllocError, Global};
use std::marker::Model;

// The bytes for which each frame has room: a record of 64 bytes, its length, and the closed gate behind it.
const ROOM: usize = 69;

/// A record as it is appended. Contracts see the record. Each frame has room for a record of up to 64 bytes.
#[derive(Drop)]
pub struct Frame {
    bytes: Vec<u8>,
}

impl Model for Frame {
    ghost use Rattle.std.specs.Prelude.{◌≡◌, ◌≤◌, List, ℕ, vec_capacity};
    ghost use Rattle.journal_core.specs.Frame.{staged, record_in};

    ghost Value = { List ℕ };

    ghost view = { λ f. record_in f.bytes.items };

    ghost invariant = { λ f. (f.bytes.items ≡ staged (record_in f.bytes.items)) × (69 ≤ vec_capacity f.bytes) };
}

// Puts a piece behind the bytes, for which there is room.
pub(crate) fn push_all(bytes: &mut Vec<u8>, piece: &[u8])
    requires { vec_len bytes.old + length piece.now ≤ vec_capacity bytes.old }
    ensures items { bytes.new.items ≡ bytes.old.items ++ piece.now }
    ensures len { vec_len bytes.new ≡ vec_len bytes.old + length piece.now }
    ensures capacity { vec_capacity bytes.new ≡ vec_capacity bytes.old }
{
    for byte in piece {
        bytes.push_reserved(*byte);
    }
}

// Puts what a record's frame has behind its gate, and the closed gate behind it, for which there is room.
fn put_staged(bytes: &mut Vec<u8>, record_bytes: &[u8])
    requires small { length record_bytes.now < 2 ^ 32 }
    requires empty { (bytes.old.items ≡ []) × (vec_len bytes.old ≡ 0) }
    requires room { 5 + length record_bytes.now ≤ vec_capacity bytes.old }
    ensures items { bytes.new.items ≡ staged record_bytes.now }
    ensures capacity { vec_capacity bytes.new ≡ vec_capacity bytes.old }
{
    push_all(bytes, &(record_bytes.len() as u32).to_le_bytes());
    push_all(bytes, record_bytes);
    push_all(bytes, &[0]);
}

impl Frame {
    /// The frame of a record. The only error is want of memory.
    pub fn of(alloc: Global, bytes: &[u8]) -> Result<Frame, AllocError>
        requires { length bytes.now < 2 ^ 32 }
        ensures { IfOk result (λ f. f ≡ bytes.now) }
    {
        let mut staged = Vec::with_capacity(alloc, ROOM.max(bytes.len() + 5))?;
        put_staged(&mut staged, bytes);
        Ok(Frame { bytes: staged })
    }

    /// The frame of the empty record, to be filled with records of up to 64 bytes. The only error is want of memory.
    pub fn short(alloc: Global) -> Result<Frame, AllocError>
        ensures { IfOk result (λ f. f ≡ []) }
    {
        Frame::of(alloc, &[])
    }

    /// Makes it the frame of this record, whatever it had before. It takes no memory.
    pub fn fill(&mut self, bytes: &[u8])
        requires { length bytes.now ≤ 64 }
        ensures { self.new ≡ bytes.now }
    {
        self.bytes.clear();
        put_staged(&mut self.bytes, bytes);
    }

    // What an append writes behind the closed gate.
    pub(crate) fn behind_gate(&self) -> &[u8]
        ensures { result.now ≡ staged self.now }
    {
        &self.bytes
    }
}
