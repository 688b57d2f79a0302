//! Floors, ceilings and other amounts that may be nothing.

ghost use Rattle.std.specs.Prelude.{◌≡◌, ◌≤◌, nat_le, if◌then◌else◌, Some, None};
ghost use Rattle.units_core.specs.declared.limits.TheConstants.{MOST_GROSS};

use std::marker::Model;
use units_core::MOST_GROSS;

/// A whole number from 0 to 10^18, in units of the contract's currency. Contracts see it as the number.
#[derive(Clone, Copy)]
pub struct Level {
    value: u64,
}

impl Model for Level {
    ghost use Rattle.std.specs.Prelude.{ℕ, ◌≤◌};
    ghost use Rattle.units_core.specs.declared.limits.TheConstants.{MOST_GROSS};

    ghost Value = { ℕ };

    ghost view = { λ l. l.value };

    ghost invariant = { λ l. l.value ≤ MOST_GROSS };

    ghost inverse = { λ n. record { value = n } };
}

impl Level {
    /// The largest level, 10^18.
    pub const MOST: u64 = MOST_GROSS;

    /// The level of this number, exactly where the number is at most 10^18.
    pub fn new(n: u64) -> Option<Level>
        ensures { result ≡ (if nat_le n MOST_GROSS then Some n else None) }
    {
        if n <= Level::MOST {
            Some(Level { value: n })
        } else {
            None
        }
    }

    /// The number, from 0 to 10^18.
    pub fn get(self) -> u64
        ensures value { result ≡ self }
        ensures most { result ≤ MOST_GROSS }
    {
        self.value
    }
}
