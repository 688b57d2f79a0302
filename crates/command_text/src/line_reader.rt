//! What a line says, by its first word.

ghost use Rattle.std.specs.Prelude.{◌≡◌, ◌≤◌, length};
ghost use Rattle.command_types.specs.Grammar.{line_by, line_of};
ghost use Rattle.command_text.specs.ReadOf.{read_of};
ghost use Rattle.units_core.specs.declared.limits.TheConstants.{MOST_LINE};

use crate::bad_line::BadLine;
use crate::commands::{
    read_accept, read_affirm, read_begin, read_cancel, read_decline, read_end, read_free,
    read_freeze, read_hello, read_hold, read_limits, read_nets, read_next, read_plan, read_post,
    read_potential, read_proof, read_propose, read_row, read_tolerance, read_trade,
};
use crate::fields::ended;
use crate::words::Words;
use command_types::Line;

// What the words behind a command's first word say.
fn read_command(verb: &[u8], words: &mut Words<'_>) -> Result<Line, BadLine>
    ensures { result ≡ read_of (line_by verb.now words.old) }
{
    if verb == b"HELLO".as_slice() {
        return read_hello(words);
    }
    if verb == b"TRADE".as_slice() {
        return read_trade(words);
    }
    if verb == b"AFFIRM".as_slice() {
        return read_affirm(words);
    }
    if verb == b"END".as_slice() {
        return read_end(words);
    }
    if verb == b"HOLD".as_slice() {
        return read_hold(words);
    }
    if verb == b"FREE".as_slice() {
        return read_free(words);
    }
    if verb == b"TOL".as_slice() {
        return read_tolerance(words);
    }
    if verb == b"NETS".as_slice() {
        return read_nets(words);
    }
    if verb == b"STATEMENT".as_slice() {
        return ended(Line::Statement, words);
    }
    if verb == b"FREEZE".as_slice() {
        return read_freeze(words);
    }
    if verb == b"BEGIN".as_slice() {
        return read_begin(words);
    }
    if verb == b"LIMITS".as_slice() {
        return read_limits(words);
    }
    if verb == b"ROW".as_slice() {
        return read_row(words);
    }
    if verb == b"POT".as_slice() {
        return read_potential(words);
    }
    if verb == b"POST".as_slice() {
        return read_post(words);
    }
    if verb == b"PROPOSE".as_slice() {
        return read_propose(words);
    }
    if verb == b"NEXT".as_slice() {
        return read_next(words);
    }
    if verb == b"PLAN".as_slice() {
        return read_plan(words);
    }
    if verb == b"PROOF".as_slice() {
        return read_proof(words);
    }
    if verb == b"ACCEPT".as_slice() {
        return read_accept(words);
    }
    if verb == b"DECLINE".as_slice() {
        return read_decline(words);
    }
    if verb == b"CANCEL".as_slice() {
        return read_cancel(words);
    }
    if verb == b"BYE".as_slice() {
        return ended(Line::Bye, words);
    }
    Err(BadLine { at: 0 })
}

/// What a line says, exactly as the line grammar has it, or the place of the first word that is not of the form. A
/// line has no line feed, and at most 4,096 bytes. No memory is taken.
pub fn read_line(line: &[u8]) -> Result<Line, BadLine>
    requires { length line.now ≤ MOST_LINE }
    ensures { result ≡ read_of (line_of line.now) }
{
    let mut words = Words::new(line);
    match words.next_word() {
        None => Err(BadLine { at: 0 }),
        Some(verb) => read_command(verb, &mut words),
    }
}
