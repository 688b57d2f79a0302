//! Lines that refuse.
ghost use Rattle.std.specs.Prelude.{◌≡◌, drop};
ghost use Rattle.standby_wire.specs.Gives.{seen};
ghost use Rattle.standby_wire.specs.Refusals.{low_refusal, middle_refusal, high_refusal, refusal, refused};

use crate::stop::Stop;
use crate::values::{Value, named};
use crate::words::{number, word};
use units_core::MOST_NUMBER;

// The largest number of a refusal.
const MOST_REFUSAL: u64 = 32;

#[tactic(auto, unfolding(crate::specs::Refusals::low_refusal))]
fn low_refusal(input: &[u8], at: &mut usize, number: u64) -> Result<(), Stop>
    ensures { low_refusal number (drop at.old input.now) ≡ seen result (drop at.new input.now) }
{
    match number {
        1 => named(input, at, b"not-greeted", Value::Nothing),
        2 => named(input, at, b"bad-key", Value::Nothing),
        3 => named(input, at, b"bad-line", Value::Number),
        4 => named(input, at, b"unknown-member", Value::Nothing),
        5 => named(input, at, b"unknown-product", Value::Nothing),
        6 => named(input, at, b"own-trade", Value::Nothing),
        7 => named(input, at, b"not-party", Value::Nothing),
        8 => named(input, at, b"amount-over", Value::Nothing),
        9 => named(input, at, b"gross-over", Value::Nothing),
        10 => named(input, at, b"trades-full", Value::Nothing),
        11 => named(input, at, b"unknown-trade", Value::Nothing),
        _ => Err(Stop::Bad),
    }
}

#[tactic(auto, unfolding(crate::specs::Refusals::middle_refusal))]
fn middle_refusal(input: &[u8], at: &mut usize, number: u64) -> Result<(), Stop>
    ensures { middle_refusal number (drop at.old input.now) ≡ seen result (drop at.new input.now) }
{
    match number {
        12 => named(input, at, b"wrong-trade-state", Value::State),
        13 => named(input, at, b"trade-frozen", Value::Number),
        14 => named(input, at, b"not-operator", Value::Nothing),
        15 => named(input, at, b"cycle-open", Value::Number),
        16 => named(input, at, b"wrong-cycle", Value::Number),
        17 => named(input, at, b"wrong-phase", Value::Phase),
        18 => named(input, at, b"wrong-version", Value::Number),
        19 => named(input, at, b"not-touched", Value::Nothing),
        20 => named(input, at, b"already-accepted", Value::Nothing),
        21 => named(input, at, b"cycle-broken", Value::Number),
        _ => Err(Stop::Bad),
    }
}

#[tactic(auto, unfolding(crate::specs::Refusals::high_refusal))]
fn high_refusal(input: &[u8], at: &mut usize, number: u64) -> Result<(), Stop>
    ensures { high_refusal number (drop at.old input.now) ≡ seen result (drop at.new input.now) }
{
    match number {
        22 => named(input, at, b"matured", Value::Day),
        23 => named(input, at, b"floor-over-ceiling", Value::Nothing),
        24 => named(input, at, b"bad-certificate", Value::Clash),
        25 => named(input, at, b"journal-full", Value::Number),
        26 => named(input, at, b"stopped", Value::Number),
        27 => named(input, at, b"disk-fault", Value::Nothing),
        28 => named(input, at, b"memory", Value::Nothing),
        29 => named(input, at, b"draft-full", Value::Nothing),
        31 => named(input, at, b"gone", Value::Number),
        32 => named(input, at, b"ahead", Value::Number),
        _ => Err(Stop::Bad),
    }
}

// What stands behind a refusal's number.
#[tactic(auto, unfolding(crate::specs::Refusals::refusal))]
fn refusal(input: &[u8], at: &mut usize, number: u64) -> Result<(), Stop>
    ensures { refusal number (drop at.old input.now) ≡ seen result (drop at.new input.now) }
{
    if number < 12 {
        return low_refusal(input, at, number);
    }
    if number < 22 {
        return middle_refusal(input, at, number);
    }
    high_refusal(input, at, number)
}

/// Behind `no `: a position, a refusal's number, its name and its value. It gives the number.
#[tactic(auto, unfolding(crate::specs::Refusals::refused))]
pub(crate) fn refused(input: &[u8], at: &mut usize) -> Result<u8, Stop>
    ensures { refused (drop at.old input.now) ≡ seen result (drop at.new input.now) }
{
    let _position = number(input, at, MOST_NUMBER)?;
    word(input, at, b" ")?;
    let number = number(input, at, MOST_REFUSAL)?;
    refusal(input, at, number)?;
    word(input, at, b"\n")?;
    Ok(number as u8)
}
