//! The fields of a line: the next word, read as a word of one kind. A missing word is told at the line's length, and
//! one of another kind at its place.

ghost use Rattle.std.specs.Prelude.{◌≡◌};
ghost use Rattle.command_types.specs.Grammar.{name_word, amount_word, number_word, signed_word, day_word, mode_word, side_word, ceiling_word, next, ended};
ghost use Rattle.command_text.specs.ReadOf.{read_of};
ghost use Rattle.command_text.specs.Reading.{taken_of};

use crate::bad_line::BadLine;
use crate::kinds::{amount_of, ceiling_of, level_of, number_of, side_of, signed_of};
use crate::words::Words;
use command_types::{Level, Line, Mode, Side};
use units_core::{Amount, Day, Name};

/// The next word as a name.
pub(crate) fn next_name(words: &mut Words<'_>) -> Result<Name, BadLine>
    ensures { taken_of result words.new ≡ next name_word words.old }
{
    let place = words.place();
    match words.next_word() {
        None => Err(BadLine { at: words.size() }),
        Some(word) => Name::read(word).ok_or(BadLine { at: place }),
    }
}

/// The next word as an amount.
pub(crate) fn next_amount(words: &mut Words<'_>) -> Result<Amount, BadLine>
    ensures { taken_of result words.new ≡ next amount_word words.old }
{
    let place = words.place();
    match words.next_word() {
        None => Err(BadLine { at: words.size() }),
        Some(word) => amount_of(word).ok_or(BadLine { at: place }),
    }
}

/// The next word as a number.
pub(crate) fn next_number(words: &mut Words<'_>) -> Result<u64, BadLine>
    ensures { taken_of result words.new ≡ next number_word words.old }
{
    let place = words.place();
    match words.next_word() {
        None => Err(BadLine { at: words.size() }),
        Some(word) => number_of(word).ok_or(BadLine { at: place }),
    }
}

/// The next word as a level.
pub(crate) fn next_level(words: &mut Words<'_>) -> Result<Level, BadLine>
    ensures { taken_of result words.new ≡ next number_word words.old }
{
    let place = words.place();
    match words.next_word() {
        None => Err(BadLine { at: words.size() }),
        Some(word) => level_of(word).ok_or(BadLine { at: place }),
    }
}

/// The next word as a signed number.
pub(crate) fn next_signed(words: &mut Words<'_>) -> Result<i32, BadLine>
    ensures { taken_of result words.new ≡ next signed_word words.old }
{
    let place = words.place();
    match words.next_word() {
        None => Err(BadLine { at: words.size() }),
        Some(word) => signed_of(word).ok_or(BadLine { at: place }),
    }
}

/// The next word as a day.
pub(crate) fn next_day(words: &mut Words<'_>) -> Result<Day, BadLine>
    ensures { taken_of result words.new ≡ next day_word words.old }
{
    let place = words.place();
    match words.next_word() {
        None => Err(BadLine { at: words.size() }),
        Some(word) => Day::read(word).ok_or(BadLine { at: place }),
    }
}

/// The next word as a mode.
pub(crate) fn next_mode(words: &mut Words<'_>) -> Result<Mode, BadLine>
    ensures { taken_of result words.new ≡ next mode_word words.old }
{
    let place = words.place();
    match words.next_word() {
        None => Err(BadLine { at: words.size() }),
        Some(word) => Mode::read(word).ok_or(BadLine { at: place }),
    }
}

/// The next word as a side.
pub(crate) fn next_side(words: &mut Words<'_>) -> Result<Side, BadLine>
    ensures { taken_of result words.new ≡ next side_word words.old }
{
    let place = words.place();
    match words.next_word() {
        None => Err(BadLine { at: words.size() }),
        Some(word) => side_of(word).ok_or(BadLine { at: place }),
    }
}

/// The next word as a ceiling.
pub(crate) fn next_ceiling(words: &mut Words<'_>) -> Result<Option<Level>, BadLine>
    ensures { taken_of result words.new ≡ next ceiling_word words.old }
{
    let place = words.place();
    match words.next_word() {
        None => Err(BadLine { at: words.size() }),
        Some(word) => ceiling_of(word).ok_or(BadLine { at: place }),
    }
}

/// The line, if no word is left. One too many is told at its place.
pub(crate) fn ended(line: Line, words: &mut Words<'_>) -> Result<Line, BadLine>
    ensures { result ≡ read_of (ended line words.old) }
{
    let place = words.place();
    match words.next_word() {
        None => Ok(line),
        Some(_) => Err(BadLine { at: place }),
    }
}
