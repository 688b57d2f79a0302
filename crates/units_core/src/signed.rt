//! Signed whole numbers in decimal digits, with one spelling each.
ghost use Rattle.std.specs.Prelude.{◌≡◌};
ghost use Rattle.units_core.specs.Number.{number_of};
ghost use Rattle.units_core.specs.Signed.{signed_of, minus_of, plus_of};
ghost use Rattle.units_core.specs.declared.limits.TheConstants.{MOST_POTENTIAL};

use crate::limits::MOST_POTENTIAL;
use crate::number::{NumberFault, read_number};

// The number of the digits behind a minus sign.
fn read_minus(digits: &[u8]) -> Result<i32, NumberFault>
    ensures { result ≡ minus_of (number_of digits.now MOST_POTENTIAL) }
{
    match read_number(digits, MOST_POTENTIAL as u64) {
        Ok(0) => Err(NumberFault::Zero),
        Ok(size) => Ok(-(size as i32)),
        Err(NumberFault::NotDigit { at }) => Err(NumberFault::NotDigit { at: at + 1 }),
        Err(fault) => Err(fault),
    }
}

// The number of digits with no sign in front.
fn read_plus(digits: &[u8]) -> Result<i32, NumberFault>
    ensures { result ≡ plus_of (number_of digits.now MOST_POTENTIAL) }
{
    match read_number(digits, MOST_POTENTIAL as u64) {
        Ok(size) => Ok(size as i32),
        Err(fault) => Err(fault),
    }
}

/// The number from -1,000,000 to 1,000,000 that a text writes, as digits with or without a `-` in front, or the
/// first fault of the text. The fault of `-0` is `Zero`, and the place in a fault counts from the text's start.
pub fn read_signed(text: &[u8]) -> Result<i32, NumberFault>
    ensures { result ≡ signed_of text.now }
{
    if !text.is_empty() && text[0] == b'-' {
        return read_minus(&text[1..]);
    }
    read_plus(text)
}
