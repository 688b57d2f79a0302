//! Whole numbers in decimal digits, with one spelling each.
ghost use Rattle.std.specs.Prelude.{◌≡◌, not, if◌then◌else◌, nat_lt, Some, None, position};
ghost use Rattle.units_core.specs.Number.{is_digit, value_of, number_of};

use thiserror::Error;

/// Why a text is no number. Where several of these hold, the first of them in this order is told.
#[derive(Clone, Copy, Debug, PartialEq, Eq, Error)]
pub enum NumberFault {
    /// There is no digit.
    #[error("no digit")]
    Empty,
    /// The byte at this place, counted from the text's start, is the first that is no digit.
    #[error("no digit at byte {at}")]
    NotDigit { at: usize },
    /// There is more than one digit, with 0 in front.
    #[error("a zero in front of other digits")]
    LeadingZero,
    /// The number is 0 where only others are allowed.
    #[error("the number is zero")]
    Zero,
    /// The number is above the largest that is allowed.
    #[error("the number is too large")]
    TooLarge,
}

fn first_other(text: &[u8]) -> Option<usize>
    ensures { result ≡ position (λ c. not (is_digit c)) text.now }
{
    text.iter().position(|byte| !byte.is_ascii_digit())
}

// The number that the digits write, if it is not too large.
fn value_up_to(text: &[u8], most: u64) -> Option<u64>
    ensures { result ≡ (if nat_lt most (value_of text.now) then None else Some (value_of text.now)) }
{
    let mut value = 0u64;
    for byte in text {
        let next = u128::from(value) * 10 + u128::from(byte.saturating_sub(b'0'));
        if next > u128::from(most) {
            return None;
        }
        value = next as u64;
    }
    Some(value)
}

/// The number from 0 to `most` that a text writes in digits, or the first fault of the text.
pub fn read_number(text: &[u8], most: u64) -> Result<u64, NumberFault>
    ensures { result ≡ number_of text.now most }
{
    if text.is_empty() {
        return Err(NumberFault::Empty);
    }
    if let Some(at) = first_other(text) {
        return Err(NumberFault::NotDigit { at });
    }
    if text.len() > 1 && text[0] == b'0' {
        return Err(NumberFault::LeadingZero);
    }
    match value_up_to(text, most) {
        None => Err(NumberFault::TooLarge),
        Some(value) => Ok(value),
    }
}
