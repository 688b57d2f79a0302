//! Inputs of a run: bytes, and a letter without an end.

ghost use Rattle.std.specs.Prelude.{◌≡◌};

use outside::{Failed, Source};

/// Gives bytes, at most so many at once. One of its reads may fail.
#[derive(Drop)]
pub struct Input<'a> {
    rest: &'a [u8],
    most: usize,
    reads: u64,
    failing: u64,
    faults: u64,
}

impl<'a> Input<'a> {
    /// The read with the number `failing` fails, the first being 1.
    pub fn new(bytes: &'a [u8], most: usize, failing: u64) -> Input<'a> {
        Input {
            rest: bytes,
            most,
            reads: 0,
            failing,
            faults: 0,
        }
    }
}

impl Source for Input<'_> {
    ghost use Rattle.std.specs.Prelude.{None};

    ghost flow = { λ _. None };

    ghost faults = { λ s. s.faults };

    fn read(&mut self, into: &mut [u8]) -> Result<usize, Failed> {
        self.reads = self.reads.saturating_add(1);
        if self.reads == self.failing {
            self.faults = self.faults.saturating_add(1);
            return Err(Failed);
        }
        let size = self.most.min(self.rest.len()).min(into.len());
        let (given, rest) = self.rest.split_at(size);
        into[..size].copy_from_slice(given);
        self.rest = rest;
        Ok(size)
    }
}

/// Gives the letter X for ever, and counts what it gave.
#[derive(Drop)]
pub struct Endless {
    given: u64,
}

impl Endless {
    pub fn new() -> Endless {
        Endless { given: 0 }
    }

    pub fn given(&self) -> u64 {
        self.given
    }
}

impl Source for Endless {
    ghost use Rattle.std.specs.Prelude.{None};

    ghost flow = { λ _. None };

    ghost faults = { λ _. 0 };

    fn read(&mut self, into: &mut [u8]) -> Result<usize, Failed> {
        into.fill(b'X');
        self.given = self.given.saturating_add(into.len() as u64);
        Ok(into.len())
    }
}
