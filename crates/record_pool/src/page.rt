//! A page of bytes.
ghost use Rattle.std.specs.Prelude.{◌≡◌, ◌+◌, ◌≤◌, ◌++◌, length, take, drop, IfOk};

use std::alloc::{AllocError, Global};
use std::marker::Model;

// How many bytes a page has.
pub(crate) const PAGE: usize = 65_536;

/// A page of 65,536 bytes. Contracts see the bytes.
#[derive(Drop)]
pub(crate) struct Page {
    bytes: Vec<u8>,
}

impl Model for Page {
    ghost use Rattle.std.specs.Prelude.{List, ℕ};

    ghost Value = { List ℕ };

    ghost view = { λ p. p.bytes.items };
}

// Puts a piece over the bytes at a place.
fn put_over(bytes: &mut [u8], at: usize, piece: &[u8])
    requires { at + length piece.now ≤ length bytes.old }
    ensures { bytes.new ≡ take at bytes.old ++ (piece.now ++ drop (at + length piece.now) bytes.old) }
{
    bytes[at..at + piece.len()].copy_from_slice(piece);
}

impl Page {
    /// A page of zeros. The only error is want of memory.
    pub(crate) fn new(alloc: Global) -> Result<Page, AllocError>
        ensures { IfOk result (λ page. length page ≡ 65536) }
    {
        let bytes = vec![in alloc; 0u8; PAGE]?;
        Ok(Page { bytes })
    }

    /// Puts a piece over the bytes at a place.
    pub(crate) fn put(&mut self, at: usize, piece: &[u8])
        requires { at + length piece.now ≤ length self.old }
        ensures { self.new ≡ take at self.old ++ (piece.now ++ drop (at + length piece.now) self.old) }
    {
        put_over(&mut self.bytes, at, piece);
    }

    /// So many bytes from a place on.
    pub(crate) fn part(&self, at: usize, count: usize) -> &[u8]
        requires { at + count ≤ length self.now }
        ensures { result.now ≡ take count (drop at self.now) }
    {
        &self.bytes[at..at + count]
    }
}
