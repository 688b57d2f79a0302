//! Runs of commands, each asked in as few turns as the desk takes.

ghost use Rattle.std.specs.Prelude.{◌≡◌, ◌<◌, ◌≤◌, All, IfOk, IfSome, length, vec_len};
ghost use Rattle.command_types.specs.History.{end_of};
ghost use Rattle.command_types.specs.declared.desk.TheConstants.{MOST_TOGETHER};
ghost use Rattle.cycle_lock.specs.Passes.{IsPassOf};

use crate::machine::answers::is_told;
use crate::machine::{Row, ask_of};
use command_types::{Desk, Entry, Reply};
use cycle_lock::{Pass, Turns};
use std::alloc::{AllocError, Global};
use std::mem;
use std::sync::Wait;
use std::test::Fail;

// The commands of these rows, under this number.
fn commands_of(alloc: Global, seat: u32, rows: &[Row]) -> Result<Vec<Entry>, Fail>
    ensures seats { IfOk result (λ commands. All (λ command. command.seat ≡ seat) commands.items) }
    ensures count { IfOk result (λ commands. vec_len commands ≡ length rows.now) }
{
    let mut commands = Vec::new(alloc);
    for row in rows {
        let ask = ask_of(alloc, row.0, row.1)?;
        commands.push(Entry { seat, ask })?;
    }
    Ok(commands)
}

// Whether these replies are told so, as the first of the rows.
fn are_told(replies: &[Reply], rows: &[Row]) -> bool {
    replies.len() <= rows.len()
        && replies.iter().zip(rows.iter()).all(|(reply, row)| reply.at == row.2
            && is_told(&reply.answer, row.3))
}

// Whether the first of these rows are answered so, in one turn, and how many.
fn turn<R: Wait, D: Desk>(
    rt: &R,
    alloc: Global,
    turns: &Turns<D>,
    pass: &mut Pass,
    rows: &[Row],
) -> Result<Option<usize>, Fail>
    requires own { IsPassOf turns.now pass.old }
    requires some { 0 < length rows.now }
    requires few { length rows.now ≤ MOST_TOGETHER }
    ensures own { IsPassOf turns.now pass.new }
    ensures count { IfOk result (λ told. IfSome told (λ count. count ≤ length rows.now)) }
{
    let mut commands = commands_of(alloc, pass.seat(), rows)?;
    let mut replies = Vec::new(alloc);
    replies.reserve(commands.len())?;
    turns.call_all(rt, pass, &mut commands, &mut replies);
    let count = replies.len();
    let sees = pass.position() == replies[count - 1].at;
    Ok((sees && are_told(&replies, rows)).then_some(count))
}

// Whether this run is answered so. A desk may answer a front of it, so that it takes several turns.
fn run<R: Wait, D: Desk>(
    rt: &R,
    alloc: Global,
    turns: &Turns<D>,
    pass: &mut Pass,
    rows: &[Row],
) -> Result<bool, Fail>
    requires own { IsPassOf turns.now pass.old }
    requires few { length rows.now ≤ MOST_TOGETHER }
    ensures own { IsPassOf turns.now pass.new }
{
    let mut first = 0;
    for _ in 0..rows.len() {
        if first < rows.len() {
            match turn(rt, alloc, turns, pass, &rows[first..])? {
                Some(count) => first += count,
                None => return Ok(false),
            }
        }
    }
    Ok(first == rows.len())
}

/// Whether a desk answers these rows so, cut into runs of this size, each under the other of two passes.
pub fn goes_in_runs<R: Wait, D: Desk>(
    rt: &R,
    alloc: Global,
    desk: D,
    rows: &[Row],
    size: usize,
) -> Result<bool, Fail>
    requires new { end_of (D.history desk) ≡ (D.figures desk).opening }
    requires some { 0 < size }
    requires few { size ≤ MOST_TOGETHER }
{
    let Ok((turns, mut pass)) = Turns::new(alloc, desk) else {
        return Err(AllocError)?;
    };
    let mut other = turns.split(&mut pass);
    let mut first = 0;
    for _ in 0..rows.len() {
        let end = first + size.min(rows.len() - first);
        if !run(rt, alloc, &turns, &mut pass, &rows[first..end])? {
            return Ok(false);
        }
        mem::swap(&mut pass, &mut other);
        first = end;
    }
    turns.join(&mut pass, other);
    let desk = turns.close(rt, pass);
    let at = match rows.last() {
        Some(row) => row.2,
        None => 0,
    };
    Ok(desk.length() == at)
}
