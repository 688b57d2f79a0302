//! The desk over three dealers, their operator and one product: rows of commands, each with its party, the position of
//! its reply and its answer. What lines of a session show stands in transcripts.

pub mod answers;
mod bases;
pub mod commands;
mod matching;
mod misfits;
mod open_cycles;
mod rests;
mod sheets;
mod standing;
mod starts;
mod taking_back;
mod unsaid;
pub mod words;
mod writable;

ghost use Rattle.std.specs.Prelude.{◌≡◌, IfOk};
ghost use Rattle.command_types.specs.History.{end_of};

use crate::market::three_dealers;
use answers::{Told, is_told};
use command_types::{Ask, Desk, Moment};
use commands::{Said, command_of};
use cycle_states::{Machine, PlainDesk};
use std::alloc::{AllocError, Global};
use std::test::Fail;
use words::Word;

/// Who asks, what it asks, the position of the reply, and the answer.
pub type Row = (Word, Said, u64, Told);

/// A desk without a trade.
pub fn empty_desk(alloc: Global) -> Result<PlainDesk, AllocError>
    ensures { IfOk result (λ desk. end_of desk ≡ 0) }
{
    let machine = Machine::new(alloc, three_dealers(alloc)?)?;
    Ok(PlainDesk::new(alloc, machine))
}

/// What is asked for by this party.
pub fn ask_of(alloc: Global, by: Word, said: Said) -> Result<Ask, Fail> {
    Ok(Ask {
        what: command_of(alloc, said)?,
        by: Some(by.name()),
        moment: Moment::new(0),
    })
}

fn is_answered(desk: &mut PlainDesk, ask: Ask, at: u64, told: Told) -> bool {
    let reply = desk.ask(7, ask);
    reply.at == at && desk.length() == at && is_told(&reply.answer, told)
}

fn goes(alloc: Global, desk: &mut PlainDesk, rows: &[Row]) -> Result<bool, Fail> {
    for (by, said, at, told) in rows {
        if !is_answered(desk, ask_of(alloc, *by, *said)?, *at, *told) {
            return Ok(false);
        }
    }
    Ok(true)
}

fn goes_all(alloc: Global, desk: &mut PlainDesk, tables: &[&[Row]]) -> Result<bool, Fail> {
    for rows in tables {
        if !goes(alloc, desk, rows)? {
            return Ok(false);
        }
    }
    Ok(true)
}

/// Whether a desk of the three dealers answers the rows of these tables so, one after the other.
pub fn plays(alloc: Global, tables: &[&[Row]]) -> Result<bool, Fail> {
    let mut desk = empty_desk(alloc)?;
    goes_all(alloc, &mut desk, tables)
}
