//! The values of refusals.
ghost use Rattle.std.specs.Prelude.{◌≡◌, drop};
ghost use Rattle.standby_wire.specs.Gives.{seen};
ghost use Rattle.standby_wire.specs.Refusals.{state_word, phase_word, spaced_number, spaced_day, spaced_name, spaced_pair, clash_word, product_clash, posting_fault, value_word, named};

use crate::stop::Stop;
use crate::words::{day, name, number, takes, word};
use units_core::MOST_NUMBER;

/// What stands behind the name of a refusal, with a space in front.
#[derive(Clone, Copy)]
pub(crate) enum Value {
    Nothing,
    Number,
    Day,
    State,
    Phase,
    Clash,
}

#[tactic(auto, unfolding(crate::specs::Refusals::state_word))]
fn state(input: &[u8], at: &mut usize) -> Result<(), Stop>
    ensures { state_word (drop at.old input.now) ≡ seen result (drop at.new input.now) }
{
    if takes(input, at, b" alleged")? {
        return Ok(());
    }
    if takes(input, at, b" live")? {
        return Ok(());
    }
    word(input, at, b" ended")
}

#[tactic(auto, unfolding(crate::specs::Refusals::phase_word))]
fn phase(input: &[u8], at: &mut usize) -> Result<(), Stop>
    ensures { phase_word (drop at.old input.now) ≡ seen result (drop at.new input.now) }
{
    if takes(input, at, b" none")? {
        return Ok(());
    }
    if takes(input, at, b" frozen")? {
        return Ok(());
    }
    if takes(input, at, b" solving")? {
        return Ok(());
    }
    if takes(input, at, b" proposed")? {
        return Ok(());
    }
    word(input, at, b" broken")
}

#[tactic(auto, unfolding(crate::specs::Refusals::spaced_number))]
fn spaced_number(input: &[u8], at: &mut usize) -> Result<(), Stop>
    ensures { spaced_number (drop at.old input.now) ≡ seen result (drop at.new input.now) }
{
    word(input, at, b" ")?;
    let _number = number(input, at, MOST_NUMBER)?;
    Ok(())
}

#[tactic(auto, unfolding(crate::specs::Refusals::spaced_day))]
fn spaced_day(input: &[u8], at: &mut usize) -> Result<(), Stop>
    ensures { spaced_day (drop at.old input.now) ≡ seen result (drop at.new input.now) }
{
    word(input, at, b" ")?;
    day(input, at)
}

#[tactic(auto, unfolding(crate::specs::Refusals::spaced_name))]
fn spaced_name(input: &[u8], at: &mut usize) -> Result<(), Stop>
    ensures { spaced_name (drop at.old input.now) ≡ seen result (drop at.new input.now) }
{
    word(input, at, b" ")?;
    name(input, at)
}

#[tactic(auto, unfolding(crate::specs::Refusals::spaced_pair))]
fn spaced_pair(input: &[u8], at: &mut usize) -> Result<(), Stop>
    ensures { spaced_pair (drop at.old input.now) ≡ seen result (drop at.new input.now) }
{
    spaced_name(input, at)?;
    spaced_name(input, at)
}

#[tactic(auto, unfolding(crate::specs::Refusals::clash_word))]
fn clash(input: &[u8], at: &mut usize) -> Result<(), Stop>
    ensures { clash_word (drop at.old input.now) ≡ seen result (drop at.new input.now) }
{
    if takes(input, at, b" below")? {
        return spaced_pair(input, at);
    }
    if takes(input, at, b" above")? {
        return spaced_pair(input, at);
    }
    if takes(input, at, b" net")? {
        return spaced_name(input, at);
    }
    if takes(input, at, b" open")? {
        return spaced_pair(input, at);
    }
    if takes(input, at, b" slack")? {
        return spaced_pair(input, at);
    }
    Err(Stop::Bad)
}

#[tactic(auto, unfolding(crate::specs::Refusals::product_clash))]
fn product_clash(input: &[u8], at: &mut usize) -> Result<(), Stop>
    ensures { product_clash (drop at.old input.now) ≡ seen result (drop at.new input.now) }
{
    spaced_name(input, at)?;
    clash(input, at)
}

#[tactic(auto, unfolding(crate::specs::Refusals::posting_fault))]
fn posting_fault(input: &[u8], at: &mut usize) -> Result<(), Stop>
    ensures { posting_fault (drop at.old input.now) ≡ seen result (drop at.new input.now) }
{
    if takes(input, at, b" shape")? {
        return Ok(());
    }
    product_clash(input, at)
}

#[tactic(auto, unfolding(crate::specs::Refusals::value_word))]
fn value_word(input: &[u8], at: &mut usize, value: Value) -> Result<(), Stop>
    ensures { value_word value (drop at.old input.now) ≡ seen result (drop at.new input.now) }
{
    match value {
        Value::Nothing => Ok(()),
        Value::Number => spaced_number(input, at),
        Value::Day => spaced_day(input, at),
        Value::State => state(input, at),
        Value::Phase => phase(input, at),
        Value::Clash => posting_fault(input, at),
    }
}

/// A refusal's name, and its value.
#[tactic(auto, unfolding(crate::specs::Refusals::named))]
pub(crate) fn named(input: &[u8], at: &mut usize, text: &[u8], value: Value) -> Result<(), Stop>
    ensures { named text.now value (drop at.old input.now) ≡ seen result (drop at.new input.now) }
{
    word(input, at, b" ")?;
    word(input, at, text)?;
    value_word(input, at, value)
}
