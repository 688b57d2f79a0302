//! The notional amount of a trade.
ghost use Rattle.std.specs.Prelude.{◌≡◌, ◌≤◌, ◌&&◌, nat_le, if◌then◌else◌, IfSome, Some, None, Ok};
ghost use Rattle.units_core.specs.Number.{is_amount, amount_of};
ghost use Rattle.units_core.specs.declared.limits.TheConstants.{MOST_GROSS};

use crate::limits::MOST_GROSS;
use crate::number::{NumberFault, read_number};
use std::marker::Model;

/// A whole number from 1 to 10^18. Contracts see it as that number.
#[derive(Clone, Copy, PartialEq, Eq)]
pub struct Amount {
    value: u64,
}

impl Model for Amount {
    ghost use Rattle.std.specs.Prelude.{ℕ, ◌≤◌};
    ghost use Rattle.units_core.specs.declared.limits.TheConstants.{MOST_GROSS};

    ghost Value = { ℕ };

    ghost view = { λ a. a.value };

    ghost invariant = { λ a. (1 ≤ a.value) × (a.value ≤ MOST_GROSS) };

    ghost inverse = { λ n. record { value = n } };
}

// The amount that a text of up to 18 digits writes, read in one pass. Other texts are for `read_number`.
fn read_few_digits(text: &[u8]) -> Option<Amount>
    ensures { IfSome result (λ amount. amount_of text.now ≡ Ok amount) }
{
    if text.is_empty() || text.len() > 18 || text[0] == b'0' {
        return None;
    }
    let mut value = 0u64;
    for byte in text {
        if !byte.is_ascii_digit() {
            return None;
        }
        value = value * 10 + u64::from(*byte - b'0');
    }
    Amount::new(value)
}

impl Amount {
    /// The largest amount, 10^18.
    pub const MOST: u64 = MOST_GROSS;

    /// The amount of this number, exactly where the number is from 1 to 10^18.
    pub fn new(n: u64) -> Option<Amount>
        ensures { result ≡ (if is_amount n then Some n else None) }
    {
        if (1..=Amount::MOST).contains(&n) {
            Some(Amount { value: n })
        } else {
            None
        }
    }

    /// The amount that a text writes, or the first fault of the text.
    pub fn read(text: &[u8]) -> Result<Amount, NumberFault>
        ensures { result ≡ amount_of text.now }
    {
        if let Some(amount) = read_few_digits(text) {
            return Ok(amount);
        }
        match read_number(text, Amount::MOST) {
            Ok(value) => {
                if value == 0 {
                    return Err(NumberFault::Zero);
                }
                Ok(Amount { value })
            }
            Err(fault) => Err(fault),
        }
    }

    /// The number, from 1 to 10^18.
    pub fn get(self) -> u64
        ensures value { result ≡ self }
        ensures least { 1 ≤ result }
        ensures most { result ≤ MOST_GROSS }
    {
        self.value
    }
}
