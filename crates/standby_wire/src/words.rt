//! Words, numbers, names and days, read at a place of the input. Each call moves the place behind what it read.
ghost use Rattle.std.specs.Prelude.{◌≡◌, ◌≤◌, drop, IfOk};
ghost use Rattle.units_core.specs.declared.limits.TheConstants.{MOST_NUMBER};
ghost use Rattle.units_core.specs.Name.{is_name_byte};
ghost use Rattle.units_core.specs.Number.{is_digit};
ghost use Rattle.standby_wire.specs.Gives.{seen, Chooses};
ghost use Rattle.standby_wire.specs.Words.{word, digits, number, name_bytes, name, day};

use crate::stop::Stop;
use units_core::Day;

fn is_byte_of_name(byte: u8) -> bool
    ensures { result ≡ is_name_byte byte }
{
    byte.is_ascii_uppercase() || byte.is_ascii_digit() || byte == b'-'
}

fn is_digit(byte: u8) -> bool
    ensures { result ≡ is_digit byte }
{
    byte.is_ascii_digit()
}

/// These bytes.
#[tactic(auto, using(crate::proofs::WordFacts::word_on, crate::proofs::WordFacts::word_off, crate::proofs::WordFacts::word_more, crate::proofs::WordFacts::word_done))]
pub(crate) fn word(input: &[u8], at: &mut usize, text: &[u8]) -> Result<(), Stop>
    ensures { word text.now (drop at.old input.now) ≡ seen result (drop at.new input.now) }
{
    let mut end = *at;
    for byte in text {
        if end >= input.len() {
            return Err(Stop::More);
        }
        if input[end] != *byte {
            return Err(Stop::Bad);
        }
        end += 1;
    }
    *at = end;
    Ok(())
}

/// Whether these bytes come, which it then reads.
pub(crate) fn takes(input: &[u8], at: &mut usize, text: &[u8]) -> Result<bool, Stop>
    ensures { Chooses (word text.now (drop at.old input.now)) (drop at.old input.now) result (drop at.new input.now) }
{
    let mut end = *at;
    match word(input, &mut end, text) {
        Ok(()) => {
            *at = end;
            Ok(true)
        }
        Err(Stop::Bad) => Ok(false),
        Err(Stop::More) => Err(Stop::More),
    }
}

// The digits behind those of a number, up to a byte that is none.
#[tactic(auto, using(crate::proofs::WordFacts::digits_on, crate::proofs::WordFacts::digits_over, crate::proofs::WordFacts::digits_zero, crate::proofs::WordFacts::digits_done, crate::proofs::WordFacts::digits_more))]
fn digits(input: &[u8], at: &mut usize, most: u64, first: u64) -> Result<u64, Stop>
    requires most { most ≤ MOST_NUMBER }
    requires first { first ≤ most }
    ensures gives { digits most first (drop at.old input.now) ≡ seen result (drop at.new input.now) }
    ensures within { IfOk result (λ n. n ≤ most) }
{
    let mut value = first;
    let mut end = *at;
    while end < input.len() {
        let byte = input[end];
        if !is_digit(byte) {
            *at = end;
            return Ok(value);
        }
        if value == 0 {
            return Err(Stop::Bad);
        }
        let longer = 10 * value + u64::from(byte.saturating_sub(b'0'));
        if longer > most {
            return Err(Stop::Bad);
        }
        value = longer;
        end += 1;
    }
    Err(Stop::More)
}

/// A number of at most so many.
#[tactic(auto, using(crate::proofs::WordFacts::number_more, crate::proofs::WordFacts::number_off, crate::proofs::WordFacts::number_over, crate::proofs::WordFacts::number_on))]
pub(crate) fn number(input: &[u8], at: &mut usize, most: u64) -> Result<u64, Stop>
    requires { most ≤ MOST_NUMBER }
    ensures gives { number most (drop at.old input.now) ≡ seen result (drop at.new input.now) }
    ensures within { IfOk result (λ n. n ≤ most) }
{
    let start = *at;
    if start >= input.len() {
        return Err(Stop::More);
    }
    let byte = input[start];
    if !is_digit(byte) {
        return Err(Stop::Bad);
    }
    let first = u64::from(byte.saturating_sub(b'0'));
    if first > most {
        return Err(Stop::Bad);
    }
    *at = start + 1;
    digits(input, at, most, first)
}

// The bytes of a name behind its first.
#[tactic(auto, using(crate::proofs::WordFacts::name_on, crate::proofs::WordFacts::name_over, crate::proofs::WordFacts::name_done, crate::proofs::WordFacts::name_more))]
fn name_bytes(input: &[u8], at: &mut usize) -> Result<(), Stop>
    ensures { name_bytes 15 (drop at.old input.now) ≡ seen result (drop at.new input.now) }
{
    let mut room: usize = 15;
    let mut end = *at;
    while end < input.len() {
        if !is_byte_of_name(input[end]) {
            *at = end;
            return Ok(());
        }
        if room == 0 {
            return Err(Stop::Bad);
        }
        room -= 1;
        end += 1;
    }
    Err(Stop::More)
}

/// A name.
#[tactic(auto, using(crate::proofs::WordFacts::name_none, crate::proofs::WordFacts::name_off, crate::proofs::WordFacts::name_begun))]
pub(crate) fn name(input: &[u8], at: &mut usize) -> Result<(), Stop>
    ensures { name (drop at.old input.now) ≡ seen result (drop at.new input.now) }
{
    let start = *at;
    if start >= input.len() {
        return Err(Stop::More);
    }
    if !is_byte_of_name(input[start]) {
        return Err(Stop::Bad);
    }
    *at = start + 1;
    name_bytes(input, at)
}

/// A day.
#[tactic(auto, using(crate::proofs::WordFacts::day_short))]
pub(crate) fn day(input: &[u8], at: &mut usize) -> Result<(), Stop>
    ensures { day (drop at.old input.now) ≡ seen result (drop at.new input.now) }
{
    let start = *at;
    if start > input.len() || input.len() - start < 10 {
        return Err(Stop::More);
    }
    match Day::read(&input[start..start + 10]) {
        None => Err(Stop::Bad),
        Some(_) => {
            *at = start + 10;
            Ok(())
        }
    }
}
