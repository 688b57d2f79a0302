//! The command of a line.

ghost use Rattle.std.specs.Prelude.{◌≡◌, ◌≤◌, false, take, length, IfOk, OnErr, Ok};
ghost use Rattle.command_types.specs.Lines.{ended_line, without_return};
ghost use Rattle.command_types.specs.Session.{what_by, what_or_fault, draft_size, draft_sum, capped, noted_row, noted_potential};
ghost use Rattle.session.specs.Asks.{read_within, line_read, is_vote};
ghost use Rattle.session.specs.KeptDraft.{draft_of};

use crate::draft::Draft;
use crate::draft_potentials::PlaceKey;
use crate::draft_rows::PairKey;
use crate::solutions::draft_solutions;
use command_text::{BadLine, read_line};
use command_types::{Line, Roster, What};
use std::alloc::{AllocError, Global};
use units_core::{Amount, MOST_LINE, Name};

// How long the line is without a carriage return at its end.
fn size_without_return(line: &[u8]) -> usize
    ensures size { take result line.now ≡ without_return line.now }
    ensures within { result ≤ length line.now }
{
    if line.len() > 0 && line[line.len() - 1] == b'\r' {
        return line.len() - 1;
    }
    line.len()
}

/// A line that a line feed ended, without one carriage return before it. A line that is too long stays as it is.
pub fn ended(line: &[u8]) -> &[u8]
    ensures { result.now ≡ ended_line line.now }
{
    if line.len() > MOST_LINE {
        return line;
    }
    &line[..size_without_return(line)]
}

/// What a line says, of which at least the first 4,097 bytes are given.
pub fn read_within(line: &[u8]) -> Result<Line, BadLine>
    ensures { result ≡ read_within line.now }
{
    if line.len() > MOST_LINE {
        return Err(BadLine {
            at: MOST_LINE as u32,
        });
    }
    read_line(line)
}

// A ROW, with the draft's size and the product's sum as they would be.
fn what_of_row(draft: &Draft, product: Name, seller: Name, buyer: Name, amount: Amount) -> What
    ensures { let after = noted_row (draft_of draft.now) product seller buyer amount in result ≡ What.Row product seller buyer amount (draft_size after) (capped (draft_sum product after.rows)) }
{
    let key = PairKey {
        product,
        seller,
        buyer,
    };
    What::Row {
        product,
        seller,
        buyer,
        amount,
        size: draft.size_with_row(&key),
        sum: draft.sum_with_row(&key, amount),
    }
}

// A POT, with the draft's size as it would be.
fn what_of_potential(draft: &Draft, product: Name, member: Name, value: i32) -> What
    ensures { result ≡ What.Pot product member value (draft_size (noted_potential (draft_of draft.now) product member value)) }
{
    What::Pot {
        product,
        member,
        value,
        size: draft.size_with_potential(&PlaceKey { product, member }),
    }
}

// The command of a line of the grammar. The only error is want of memory, for the solutions of a POST; a vote takes none.
fn what_of_line(
    alloc: Global,
    roster: &Roster,
    draft: &Draft,
    line: &Line,
) -> Result<What, AllocError>
    ensures what { IfOk result (λ what. what ≡ what_by roster.now (draft_of draft.now) line.now) }
    ensures other { OnErr result (is_vote (Ok line.now) ≡ false) }
{
    Ok(match *line {
        Line::Hello { name, key } => What::Hello { name, key },
        Line::Trade {
            seller,
            buyer,
            product,
            amount,
            day,
        } => What::Trade {
            seller,
            buyer,
            product,
            amount,
            day,
        },
        Line::Affirm { trade } => What::Affirm { trade },
        Line::End { trade } => What::End { trade },
        Line::Hold { trade } => What::Hold { trade },
        Line::Free { trade } => What::Free { trade },
        Line::Tol {
            other,
            product,
            side,
            floor,
            ceiling,
        } => What::Tol {
            other,
            product,
            side,
            floor,
            ceiling,
        },
        Line::Nets { product } => What::Nets { product },
        Line::Statement => What::Statement,
        Line::Freeze { day } => What::Freeze { day },
        Line::Begin { cycle, mode } => What::Begin { cycle, mode },
        Line::Limits { product } => What::Limits { product },
        Line::Row {
            product,
            seller,
            buyer,
            amount,
        } => what_of_row(draft, product, seller, buyer, amount),
        Line::Pot {
            product,
            member,
            value,
        } => what_of_potential(draft, product, member, value),
        Line::Post { cycle, version } => {
            let solutions = draft_solutions(alloc, roster, draft)?;
            What::Post {
                cycle,
                version,
                solutions,
            }
        }
        Line::Propose { cycle, mode } => What::Begin { cycle, mode },
        Line::Next { position } => What::Next { position },
        Line::Plan { cycle } => What::Plan { cycle },
        Line::Proof { cycle } => What::Proof { cycle },
        Line::Accept { cycle, version } => What::Accept { cycle, version },
        Line::Decline { cycle, version } => What::Decline { cycle, version },
        Line::Cancel { cycle } => What::Cancel { cycle },
        Line::Bye => What::Bye,
    })
}

/// The command of what was read of a line, with what the draft has for it. The only error is want of memory.
pub fn what_of_read(
    alloc: Global,
    roster: &Roster,
    draft: &Draft,
    read: &Result<Line, BadLine>,
) -> Result<What, AllocError>
    ensures what { IfOk result (λ what. what ≡ what_or_fault roster.now (draft_of draft.now) (line_read read.now)) }
    ensures other { OnErr result (is_vote (line_read read.now) ≡ false) }
{
    match read {
        Ok(line) => what_of_line(alloc, roster, draft, line),
        Err(fault) => Ok(What::Unreadable { at: fault.at }),
    }
}
