//! The text of a clash: a word, and the pair or the member where it is.

ghost use Rattle.std.specs.Prelude.{◌≡◌, ◌+◌, ◌≤◌, ◌++◌, length, take};
ghost use Rattle.command_types.specs.Text.{clash_text};
ghost use Rattle.command_text.specs.declared.put.TheConstants.{PAIR};

use crate::put::{put, put_member, put_pair};
use command_types::{Clash, Roster};

/// Writes what clashes, with the names of the members. A place without a member has no name.
pub fn put_clash(into: &mut [u8], at: usize, roster: &Roster, clash: Clash) -> usize
    requires { at + (PAIR + 6) ≤ length into.old }
    ensures end { result ≤ at + (PAIR + 6) }
    ensures text { take result into.new ≡ take at into.old ++ clash_text roster.now clash }
{
    match clash {
        Clash::Below { seller, buyer } => {
            let end = put(into, at, b"below");
            put_pair(into, end, roster, seller, buyer)
        }
        Clash::Above { seller, buyer } => {
            let end = put(into, at, b"above");
            put_pair(into, end, roster, seller, buyer)
        }
        Clash::Net { member } => {
            let end = put(into, at, b"net ");
            put_member(into, end, roster, member)
        }
        Clash::Open { seller, buyer } => {
            let end = put(into, at, b"open");
            put_pair(into, end, roster, seller, buyer)
        }
        Clash::Slack { seller, buyer } => {
            let end = put(into, at, b"slack");
            put_pair(into, end, roster, seller, buyer)
        }
    }
}
