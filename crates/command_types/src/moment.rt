//! Moments of commands.

ghost use Rattle.std.specs.Prelude.{◌≡◌, ◌≤◌, min};
ghost use Rattle.command_types.specs.declared.moment.TheConstants.{MOST_MOMENT};

use std::marker::Model;

/// The last second of the year 9999.
pub const MOST_MOMENT: u64 = 253_402_300_799;

/// When a command was asked, in seconds from the beginning of 1970 in UTC. Contracts see it as the number.
#[derive(Clone, Copy)]
pub struct Moment {
    seconds: u64,
}

impl Model for Moment {
    ghost use Rattle.std.specs.Prelude.{ℕ, ◌≤◌};
    ghost use Rattle.command_types.specs.declared.moment.TheConstants.{MOST_MOMENT};

    ghost Value = { ℕ };

    ghost view = { λ m. m.seconds };

    ghost invariant = { λ m. m.seconds ≤ MOST_MOMENT };

    ghost inverse = { λ n. record { seconds = n } };
}

impl Moment {
    /// The moment of this number, or the last one where the number is larger.
    pub fn new(seconds: u64) -> Moment
        ensures { result ≡ min seconds MOST_MOMENT }
    {
        Moment {
            seconds: seconds.min(MOST_MOMENT),
        }
    }

    /// The number.
    pub fn seconds(self) -> u64
        ensures value { result ≡ self }
        ensures most { result ≤ MOST_MOMENT }
    {
        self.seconds
    }
}
