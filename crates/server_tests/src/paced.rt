//! Streams that keep step with one another, and with a gate, by one word that counts what has come.

ghost use Rattle.std.specs.Prelude.{◌≡◌};

use outside::{Failed, Gate, MemorySink, Sink, Source};
use std::alloc::{AllocError, Global};
use std::hint::spin_loop;
use std::sync::atomic::{AtomicU64, Ordering};

/// How many looks at the word are many enough for another thread to come.
pub const MANY_LOOKS: u64 = 200_000_000;

/// How many lines end among these bytes.
pub fn lines_in(bytes: &[u8]) -> u64 {
    bytes.iter().filter(|byte| **byte == b'\n').count() as u64
}

/// A word that counts the lines that were replied and the gates that were reached, and what came too late.
#[derive(Drop)]
pub struct Steps {
    done: AtomicU64,
    missed: AtomicU64,
}

impl Steps {
    pub fn new() -> Steps {
        Steps {
            done: AtomicU64::new(0),
            missed: AtomicU64::new(0),
        }
    }

    fn add(&self, count: u64) {
        self.done.fetch_add(count, Ordering::SeqCst);
    }

    /// Counts the lines among these bytes.
    pub fn add_lines(&self, bytes: &[u8]) {
        self.add(lines_in(bytes));
    }

    // Looks at the word until it is so far, and notes a miss where that is not within so many looks.
    fn wait(&self, due: u64, looks: u64) {
        for _ in 0..looks {
            if self.done.load(Ordering::SeqCst) >= due {
                return;
            }
            spin_loop();
        }
        self.missed.fetch_add(1, Ordering::SeqCst);
    }

    /// Whether there were as many steps as that, and each in time.
    pub fn are(&self, count: u64) -> bool {
        self.done.load(Ordering::SeqCst) == count && self.missed.load(Ordering::SeqCst) == 0
    }
}

/// A piece of an input, which comes once there were so many steps.
pub type Piece = (u64, &'static str);

/// Gives one piece after another, each with the step that it waits for.
#[derive(Drop)]
pub struct PacedSource<'a> {
    pieces: &'static [Piece],
    next: usize,
    steps: &'a Steps,
    looks: u64,
}

impl<'a> PacedSource<'a> {
    pub fn new(pieces: &'static [Piece], steps: &'a Steps, looks: u64) -> PacedSource<'a> {
        PacedSource {
            pieces,
            next: 0,
            steps,
            looks,
        }
    }
}

impl Source for PacedSource<'_> {
    ghost use Rattle.std.specs.Prelude.{None};

    ghost flow = { λ _. None };

    ghost faults = { λ _. 0 };

    fn read(&mut self, into: &mut [u8]) -> Result<usize, Failed> {
        let Some((due, piece)) = self.pieces.get(self.next) else {
            return Ok(0);
        };
        self.steps.wait(*due, self.looks);
        self.next = self.next.saturating_add(1);
        let n = piece.len().min(into.len());
        into[..n].copy_from_slice(&piece.as_bytes()[..n]);
        Ok(n)
    }
}

/// Keeps each write with a bar behind it, and counts its lines.
#[derive(Drop)]
pub struct BarSink<'a> {
    sink: MemorySink,
    steps: &'a Steps,
}

impl<'a> BarSink<'a> {
    /// The write with the number `failing` fails, the first being 1; none where it is 0.
    pub fn new(alloc: Global, steps: &'a Steps, failing: u64) -> Result<BarSink<'a>, AllocError> {
        let mut sink = MemorySink::new(alloc, 1 << 18)?;
        // Each write is two of the sink below, the text's and the bar's.
        sink.fail_at(failing.saturating_mul(2).saturating_sub(1))?;
        Ok(BarSink { sink, steps })
    }

    pub fn bytes(&self) -> &[u8] {
        self.sink.bytes()
    }
}

impl Sink for BarSink<'_> {
    ghost use Rattle.std.specs.Prelude.{None};

    ghost taken = { λ _. None };

    ghost faults = { λ s. s.sink.faults };

    fn write(&mut self, bytes: &[u8]) -> Result<usize, Failed> {
        let n = self.sink.write(bytes)?;
        self.steps.add_lines(&bytes[..n]);
        match self.sink.write(b"|") {
            Ok(_) | Err(Failed) => Ok(n),
        }
    }
}

/// A gate that is a step, and lets a worker through once there were so many.
#[derive(Drop)]
pub struct PacedGate<'a> {
    due: u64,
    steps: &'a Steps,
}

impl<'a> PacedGate<'a> {
    pub fn new(due: u64, steps: &'a Steps) -> PacedGate<'a> {
        PacedGate { due, steps }
    }
}

impl Gate for PacedGate<'_> {
    fn enter(&self, _piece: u64) {
        self.steps.add(1);
        self.steps.wait(self.due, MANY_LOOKS);
    }
}
