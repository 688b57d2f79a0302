//! The lines of a replay: a member, an execution, and when it was asked.

ghost use Rattle.std.specs.Prelude.{◌≡◌, ◌+◌, ◌≤◌, ◌++◌, length, take, codes};
ghost use Rattle.statements.specs.Details.{member_text, execution_text, moment_text};
ghost use Rattle.units_core.specs.declared.limits.TheConstants.{MOST_NAME};

use crate::details::ExecutionLine;
use command_text::put::{put, put_member, put_numbers, put_told};
use command_types::{Moment, Roster};
use units_core::MemberNo;

/// Writes a member and a count at a place of the buffer, and says where they end.
pub(crate) fn put_member_count(
    into: &mut [u8],
    at: usize,
    roster: &Roster,
    member: MemberNo,
    count: u64,
) -> usize
    requires { at + (MOST_NAME + 29) ≤ length into.old }
    ensures end { result ≤ at + (MOST_NAME + 29) }
    ensures text { take result into.new ≡ take at into.old ++ member_text roster.now member count }
{
    let end = put(into, at, b"member ");
    let end = put_member(into, end, roster, member.0);
    let end = put_told(into, end, b" ", count);
    put(into, end, b"\n")
}

/// Writes an execution at a place of the buffer, of at most 136 bytes, and says where it ends.
pub(crate) fn put_execution(into: &mut [u8], at: usize, line: &ExecutionLine) -> usize
    requires { at + 136 ≤ length into.old }
    ensures end { result ≤ at + 136 }
    ensures text { take result into.new ≡ take at into.old ++ execution_text line.now }
{
    let end = put_told(into, at, b"execution ", line.position);
    let end = put_numbers(into, end, line.cycle, line.version);
    let end = put_numbers(into, end, line.ended, line.cut);
    let end = put_told(into, end, b" ", line.made);
    put(into, end, b"\n")
}

/// Writes a moment at a place of the buffer, of at most 24 bytes, and says where it ends.
pub(crate) fn put_moment(into: &mut [u8], at: usize, moment: Moment) -> usize
    requires { at + 24 ≤ length into.old }
    ensures end { result ≤ at + 24 }
    ensures text { take result into.new ≡ take at into.old ++ moment_text moment }
{
    let end = put_told(into, at, b"at ", moment.seconds());
    put(into, end, b"\n")
}
