//! The frames of records that are appended at once.
ghost use Rattle.std.specs.Prelude.{◌≡◌, ◌<◌, ◌↔◌, [], ◌∷◌, ◌++◌, IsTrue, IfOk, OnOk, OnErr};
ghost use Rattle.journal_core.specs.Frame.{framed, frames_length};

use crate::Frame;
use crate::frame::push_all;
use crate::log::Log;
use std::alloc::{AllocError, Global};
use std::marker::Model;

// The bytes for which each has room: 65,536 of frames, and the closed gate behind them.
const ROOM: usize = 65_537;

/// Records as they are appended at once. Contracts see the records. Each has room for frames of 65,536 bytes.
#[derive(Drop)]
pub struct Frames {
    // From the gate of the first record on, up to and with the closed gate behind the last. All others are open.
    bytes: Vec<u8>,
    log: Log,
}

impl Model for Frames {
    ghost use Rattle.std.specs.Prelude.{◌≡◌, ◌≤◌, List, ℕ, vec_capacity};
    ghost use Rattle.journal_core.specs.Frame.{framed};

    ghost Value = { List (List ℕ) };

    ghost view = { λ f. f.log.items };

    ghost invariant = { λ f. (f.bytes.items ≡ framed f.log.items) × (65537 ≤ vec_capacity f.bytes) };
}

impl Frames {
    /// No records. The only error is want of memory.
    pub fn new(alloc: Global) -> Result<Frames, AllocError>
        ensures { IfOk result (λ f. f ≡ []) }
    {
        let mut bytes = Vec::with_capacity(alloc, ROOM)?;
        bytes.push_reserved(0);
        Ok(Frames {
            bytes,
            log: Log::new(),
        })
    }

    /// Whether there are none.
    pub fn is_empty(&self) -> bool
        ensures { IsTrue result ↔ (self.now ≡ []) }
    {
        self.bytes.len() == 1
    }

    /// How many bytes they take.
    pub fn size(&self) -> u64
        ensures { result ≡ frames_length self.now }
    {
        self.bytes.len().saturating_sub(1) as u64
    }

    /// Takes all of them away. It takes no memory.
    pub fn clear(&mut self)
        ensures { self.new ≡ [] }
    {
        self.bytes.clear();
        self.bytes.push_reserved(0);
        self.log = Log::new();
    }

    /// Puts a frame's record behind the others. The only error is want of memory, which leaves them as they were. It takes none where
    /// they have 65,536 bytes with it or fewer.
    pub fn push(&mut self, frame: &Frame) -> Result<(), AllocError>
        ensures more { OnOk result (self.new ≡ self.old ++ frame.now ∷ []) }
        ensures same { OnErr result (self.new ≡ self.old) }
        ensures room { OnErr result (65536 < frames_length (self.old ++ frame.now ∷ [])) }
    {
        let behind = frame.behind_gate();
        self.bytes.reserve(behind.len())?;
        self.bytes.truncate(self.bytes.len().saturating_sub(1));
        push_all(&mut self.bytes, &[1]);
        push_all(&mut self.bytes, behind);
        self.log = Log::with(&self.log, frame);
        Ok(())
    }

    // All of their bytes, from the gate of the first on.
    pub(crate) fn bytes(&self) -> &[u8]
        ensures { result.now ≡ framed self.now }
    {
        &self.bytes
    }

    // They, for contracts alone.
    pub(crate) fn log(&self) -> &Log
        ensures { result.now.items ≡ self.now }
    {
        &self.log
    }
}
