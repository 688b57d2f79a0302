//! The kinds of words: what a word of each kind says, exactly where it is of the kind.

ghost use Rattle.std.specs.Prelude.{◌≡◌};
ghost use Rattle.command_types.specs.Grammar.{amount_word, number_word, signed_word, side_word, ceiling_word};

use command_types::{Level, Side};
use units_core::{Amount, MOST_NUMBER, read_number, read_signed};

/// An amount, from 1 to 10^18.
pub(crate) fn amount_of(word: &[u8]) -> Option<Amount>
    ensures { result ≡ amount_word word.now }
{
    Amount::read(word).ok()
}

/// A number, from 0 to 10^18.
pub(crate) fn number_of(word: &[u8]) -> Option<u64>
    ensures { result ≡ number_word word.now }
{
    read_number(word, MOST_NUMBER).ok()
}

/// A number, from 0 to 10^18, as a level.
pub(crate) fn level_of(word: &[u8]) -> Option<Level>
    ensures { result ≡ number_word word.now }
{
    match number_of(word) {
        None => None,
        Some(number) => Level::new(number),
    }
}

/// A signed number, from -1,000,000 to 1,000,000.
pub(crate) fn signed_of(word: &[u8]) -> Option<i32>
    ensures { result ≡ signed_word word.now }
{
    read_signed(word).ok()
}

/// `out` or `in`.
pub(crate) fn side_of(word: &[u8]) -> Option<Side>
    ensures { result ≡ side_word word.now }
{
    if word == b"out".as_slice() {
        Some(Side::Out)
    } else if word == b"in".as_slice() {
        Some(Side::In)
    } else {
        None
    }
}

/// A level, or `-` for no ceiling.
pub(crate) fn ceiling_of(word: &[u8]) -> Option<Option<Level>>
    ensures { result ≡ ceiling_word word.now }
{
    if word == b"-".as_slice() {
        return Some(None);
    }
    match level_of(word) {
        None => None,
        Some(ceiling) => Some(Some(ceiling)),
    }
}
