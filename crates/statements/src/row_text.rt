//! The text of a row.

ghost use Rattle.std.specs.Prelude.{◌≡◌, ◌+◌, ◌≤◌, ◌++◌, length, take};
ghost use Rattle.statements.specs.Details.{row_text};
ghost use Rattle.statements.specs.declared.row_text.TheConstants.{MOST_ROW};

use crate::details::DetailRow;
use crate::plan_text::{put_limit, put_plan};
use crate::proof_text::put_proof;
use crate::replay_text::{put_execution, put_member_count, put_moment};
use crate::trade_text::put_trade;
use command_text::put::PAIR;
use command_types::Roster;
use units_core::MOST_NAME;

/// The most bytes of a row's line, its line feed included.
pub const MOST_ROW: usize = MOST_NAME + PAIR + 104;

/// Writes the line of a row at a place of the buffer, behind what stands before it, and says where the line ends. A line
/// has at most 154 bytes (`MOST_ROW`), its line feed included. A place that the roster has not is told without a name.
pub fn put_row(into: &mut [u8], at: usize, roster: &Roster, row: &DetailRow) -> usize
    requires { at + MOST_ROW ≤ length into.old }
    ensures end { result ≤ at + MOST_ROW }
    ensures text { take result into.new ≡ take at into.old ++ row_text roster.now row.now }
{
    match *row {
        DetailRow::Trade(ref trade) => put_trade(into, at, roster, trade),
        DetailRow::Limit(ref line) => put_limit(into, at, roster, line),
        DetailRow::Plan(ref step) => put_plan(into, at, roster, step),
        DetailRow::Proof(ref row) => put_proof(into, at, roster, row),
        DetailRow::Member { member, count } => put_member_count(into, at, roster, member, count),
        DetailRow::Execution(ref line) => put_execution(into, at, line),
        DetailRow::Asked(moment) => put_moment(into, at, moment),
    }
}

/// Writes the line of a row at the buffer's start, and says how many bytes it has, its line feed included. It always
/// fits, and takes no memory. A place that the roster has not is told without a name.
pub fn write_row(row: &DetailRow, roster: &Roster, into: &mut [u8; 4096]) -> usize
    ensures fits { result ≤ MOST_ROW }
    ensures text { take result into.new ≡ row_text roster.now row.now }
{
    put_row(into, 0, roster, row)
}
