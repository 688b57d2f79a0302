//! How long a door waits where the system is short of what a connection takes.

ghost use Rattle.std.specs.Prelude.{◌≡◌, ◌≤◌, ◌+◌, ◌*◌, ◌↔◌, IsNone, IfSome, IfNone};
ghost use Rattle.std.specs.Duration.{as_nanos};

use crate::refusal::{Refusal, refusal_of};
use std::time::{Clock, Duration};
use std::{io, thread};

/// The waits of one call, in milliseconds: the next one, and what is left of all. Each is twice as long as the one before,
/// and at most a second; together they are a minute.
#[derive(Drop)]
pub(crate) struct Patience {
    next: u64,
    left: u64,
    ghost bounded: { next ≤ 1000 },
}

const FIRST_WAIT: u64 = 8;

const LONGEST_WAIT: u64 = 1_000;

const ALL_WAITS: u64 = 60_000;

impl Patience {
    /// The patience of a new call.
    pub(crate) fn new() -> Patience
        ensures { result.left ≡ 60_000 }
    {
        Patience {
            next: FIRST_WAIT,
            left: ALL_WAITS,
        }
    }

    // The next wait; none where a minute was waited.
    fn next_wait(&mut self) -> Option<Duration>
        ensures over { IsNone result ↔ (self.old.left ≡ 0) }
        ensures stays { IfNone result (self.new ≡ self.old) }
        ensures taken { IfSome result (λ wait. as_nanos wait + self.new.left * 1_000_000 ≡ self.old.left * 1_000_000) }
        ensures most { IfSome result (λ wait. as_nanos wait ≤ 1_000_000_000) }
    {
        if self.left == 0 {
            return None;
        }
        let wait = self.next.max(1).min(self.left);
        self.left -= wait;
        self.next = (wait * 2).min(LONGEST_WAIT);
        Some(Duration::from_millis(wait))
    }

    /// Whether the call is to be tried again behind this fault. Where the machine is short, it waits first.
    pub(crate) fn tries_again<R: Clock>(&mut self, rt: &R, error: &io::Error) -> bool {
        match refusal_of(error) {
            Refusal::Gone => true,
            Refusal::Short => {
                match self.next_wait() {
                    Some(wait) => {
                        thread::sleep(rt, wait);
                        true
                    }
                    None => false,
                }
            }
            Refusal::Lasting => false,
        }
    }
}
