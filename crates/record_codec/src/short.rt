//! The record of an ACCEPT, written without memory.
//!
//! | bytes | 8 | 4 | 1 | 1 to 16 | 1 | 8 | 8 |
//! |---|---|---|---|---|---|---|---|
//! | what | moment | seat | length of the name | party's name | the tag 10 | cycle | version |
ghost use Rattle.std.specs.Prelude.{◌≡◌, ◌≤◌, ◌+◌, ◌++◌, length, take};
ghost use Rattle.command_types.specs.declared.spelling.Spelling.TheVariants.{Second};
ghost use Rattle.command_types.specs.Spelling.{spelling, Spells};
ghost use Rattle.record_codec.specs.Votes.{accept_by};
ghost use Rattle.units_core.specs.declared.limits.TheConstants.{MOST_NAME};

use command_types::Moment;
use units_core::Name;

// Writes the bytes at a place, and gives the place behind them.
fn put_at(into: &mut [u8], at: usize, bytes: &[u8]) -> usize
    requires { at + length bytes.now ≤ length into.old }
    ensures end { result ≡ at + length bytes.now }
    ensures text { take result into.new ≡ take at into.old ++ bytes.now }
{
    for (i, byte) in bytes.iter().enumerate() {
        into[at + i] = *byte;
    }
    at + bytes.len()
}

/// Writes the record of this party's ACCEPT to the front of `into`, its second spelling, and gives how many bytes it has,
/// 46 at most, since a name has at most 16. It takes no memory.
pub fn encode_short(
    seat: u32,
    by: &Name,
    cycle: u64,
    version: u64,
    moment: Moment,
    into: &mut [u8; 64],
) -> usize
    ensures short { result ≤ MOST_NAME + 30 }
    ensures exact { take result into.new ≡ spelling Second (accept_by seat by.now cycle version moment) }
    ensures spells { Spells Second (take result into.new) (accept_by seat by.now cycle version moment) }
{
    let text = by.text();
    let end = put_at(into, 0, &moment.seconds().to_le_bytes());
    let end = put_at(into, end, &seat.to_le_bytes());
    let end = put_at(into, end, &[text.len() as u8]);
    let end = put_at(into, end, text);
    let end = put_at(into, end, &[10]);
    let end = put_at(into, end, &cycle.to_le_bytes());
    put_at(into, end, &version.to_le_bytes())
}
