//! Clocks, which tell the moments at which commands are asked.
ghost use Rattle.std.specs.Prelude.{◌≡◌, ◌==◌, ℕ, Bool, true};

use std::time;

/// A clock that tells moments.
pub trait Clock: Sync {
    // Whether it may tell a moment.
    ghost tells: { Self → ℕ → Bool };

    /// How many seconds have gone by since the first of 1970 began in UTC. It takes no memory.
    fn now(&self) -> u64
        ensures { tells self.now result ≡ true };
}

/// A clock that tells one moment alone.
#[derive(Clone, Copy, Drop)]
pub struct MemoryClock {
    moment: u64,
}

impl MemoryClock {
    /// The clock of this moment.
    pub fn new(moment: u64) -> MemoryClock
        ensures { result.moment ≡ moment }
    {
        MemoryClock { moment }
    }
}

impl Clock for MemoryClock {
    ghost tells = { λ clock moment. moment == clock.moment };

    fn now(&self) -> u64 {
        self.moment
    }
}

/// The clock of the system, by a runtime that reaches it. It tells 0 where the system tells nothing, and may tell every moment.
#[derive(Drop)]
pub struct SystemClock<'a, R: time::Clock + Sync> {
    rt: &'a R,
}

impl<'a, R: time::Clock + Sync> SystemClock<'a, R> {
    /// The clock that a runtime reaches.
    pub fn new(rt: &'a R) -> SystemClock<'a, R> {
        SystemClock { rt }
    }
}

impl<'a, R: time::Clock + Sync> Clock for SystemClock<'a, R> {
    ghost tells = { λ clock moment. true };

    fn now(&self) -> u64 {
        match self.rt.since_1970() {
            Ok(passed) => passed.as_secs(),
            Err(_) => 0,
        }
    }
}
