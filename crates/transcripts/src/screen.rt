//! A terminal in memory: what is typed and what the program writes, on one screen, in the order in which it comes.

ghost use Rattle.std.specs.Prelude.{◌≤◌, length};

use outside::{Failed, Sink, Source};
use std::alloc::Global;
use std::cell::RefCell;

/// What is seen.
#[derive(Drop)]
pub struct Screen {
    shown: RefCell<Vec<u8>>,
}

impl Screen {
    /// Nothing is seen yet.
    pub fn new(alloc: Global) -> Screen {
        Screen {
            shown: RefCell::new(Vec::new(alloc)),
        }
    }

    /// Shows these bytes behind all others. It fails for want of memory.
    pub fn show(&self, bytes: &[u8]) -> Result<(), Failed> {
        let Ok(mut shown) = self.shown.try_borrow_mut() else {
            return Err(Failed);
        };
        match shown.extend_from_slice(bytes) {
            Ok(()) => Ok(()),
            Err(_) => Err(Failed),
        }
    }

    /// All that was shown.
    pub fn into_bytes(self) -> Vec<u8> {
        self.shown.into_inner()
    }
}

/// How the lines of an input come.
#[derive(Clone, Copy)]
pub enum Pace {
    /// One by one, each shown behind a `> ` when it is read.
    Typed,
    /// All at once, and nothing of them is shown.
    Piped,
}

impl Pace {
    /// How it is told.
    pub fn words(self) -> &'static str {
        match self {
            Pace::Typed => "typed line by line",
            Pace::Piped => "given at once",
        }
    }
}

/// How many bytes the first line has, with its line feed if it has one.
pub fn line_size(bytes: &[u8]) -> usize
    ensures { result ≤ length bytes.now }
{
    match bytes.iter().position(|byte| *byte == b'\n') {
        Some(place) => place + 1,
        None => bytes.len(),
    }
}

/// Gives the lines of an input.
#[derive(Drop)]
pub struct Keyboard<'a> {
    rest: &'a [u8],
    is_in_line: bool,
    pace: Pace,
    screen: &'a Screen,
    faults: u64,
}

impl<'a> Keyboard<'a> {
    /// Before the first line.
    pub fn new(input: &'a [u8], pace: Pace, screen: &'a Screen) -> Keyboard<'a> {
        Keyboard {
            rest: input,
            is_in_line: false,
            pace,
            screen,
            faults: 0,
        }
    }

    // How many bytes come next.
    fn next_size(&self) -> usize
        ensures { result ≤ length self.now.rest.now }
    {
        match self.pace {
            Pace::Typed => line_size(self.rest),
            Pace::Piped => self.rest.len(),
        }
    }

    // Shows what is typed.
    fn echo(&self, typed: &[u8]) -> Result<(), Failed> {
        match self.pace {
            Pace::Typed if !typed.is_empty() => {
                if !self.is_in_line {
                    self.screen.show(b"> ")?;
                }
                self.screen.show(typed)
            }
            _ => Ok(()),
        }
    }
}

impl Source for Keyboard<'_> {
    ghost use Rattle.std.specs.Prelude.{None};

    ghost flow = { λ _. None };

    ghost faults = { λ s. s.faults };

    fn read(&mut self, into: &mut [u8]) -> Result<usize, Failed> {
        let next = self.next_size();
        let size = next.min(into.len());
        let (given, rest) = self.rest.split_at(size);
        if self.echo(given).is_err() {
            self.faults = self.faults.saturating_add(1);
            return Err(Failed);
        }
        into[..size].copy_from_slice(given);
        self.is_in_line = size < next;
        self.rest = rest;
        Ok(size)
    }
}

/// Takes what the program writes to the screen.
#[derive(Drop)]
pub struct Display<'a> {
    screen: &'a Screen,
    faults: u64,
}

impl<'a> Display<'a> {
    /// Writes to this screen.
    pub fn new(screen: &'a Screen) -> Display<'a> {
        Display { screen, faults: 0 }
    }
}

impl Sink for Display<'_> {
    ghost use Rattle.std.specs.Prelude.{None};

    ghost taken = { λ _. None };

    ghost faults = { λ s. s.faults };

    fn write(&mut self, bytes: &[u8]) -> Result<usize, Failed> {
        match self.screen.show(bytes) {
            Ok(()) => Ok(bytes.len()),
            Err(Failed) => {
                self.faults = self.faults.saturating_add(1);
                Err(Failed)
            }
        }
    }
}
