//! The line of a trade.

ghost use Rattle.std.specs.Prelude.{◌≡◌, ◌+◌, ◌≤◌, ◌++◌, length, take};
ghost use Rattle.command_types.specs.Books.{is_held};
ghost use Rattle.command_types.specs.Details.{held_text, trade_line};
ghost use Rattle.statements.specs.Details.{parties_text, standing_text};
ghost use Rattle.command_text.specs.declared.put.TheConstants.{PAIR};
ghost use Rattle.units_core.specs.declared.limits.TheConstants.{MOST_NAME};

use command_text::put::{put, put_pair, put_product, put_state, put_told};
use command_types::{Roster, TradeRow};

// Whether a party keeps the trade out of compression.
fn put_held(into: &mut [u8], at: usize, row: &TradeRow) -> usize
    requires { at + 4 ≤ length into.old }
    ensures end { result ≤ at + 4 }
    ensures text { take result into.new ≡ take at into.old ++ held_text (is_held row.now) }
{
    if row.hold_out || row.hold_in {
        return put(into, at, b"held");
    }
    put(into, at, b"-")
}

// The trade's number, its parties and its product.
fn put_parties(into: &mut [u8], at: usize, roster: &Roster, row: &TradeRow) -> usize
    requires { at + (MOST_NAME + PAIR + 27) ≤ length into.old }
    ensures end { result ≤ at + (MOST_NAME + PAIR + 27) }
    ensures text { take result into.new ≡ take at into.old ++ parties_text roster.now row.now }
{
    let end = put_told(into, at, b"trade ", row.number);
    let end = put_pair(into, end, roster, row.seller.0, row.buyer.0);
    let end = put(into, end, b" ");
    put_product(into, end, roster, row.product.0)
}

// The trade's amount, its day and how far it has come.
fn put_standing(into: &mut [u8], at: usize, row: &TradeRow) -> usize
    requires { at + 45 ≤ length into.old }
    ensures end { result ≤ at + 45 }
    ensures text { take result into.new ≡ take at into.old ++ standing_text row.now }
{
    let end = put_told(into, at, b" ", row.amount.get());
    let end = put(into, end, b" ");
    let end = put(into, end, &row.day.text());
    let end = put(into, end, b" ");
    let end = put_state(into, end, row.state);
    let end = put(into, end, b" ");
    put_held(into, end, row)
}

/// Writes the line of a trade at a place of the buffer, and says where it ends.
pub(crate) fn put_trade(into: &mut [u8], at: usize, roster: &Roster, row: &TradeRow) -> usize
    requires { at + (MOST_NAME + PAIR + 73) ≤ length into.old }
    ensures end { result ≤ at + (MOST_NAME + PAIR + 73) }
    ensures text { take result into.new ≡ take at into.old ++ trade_line roster.now row.now }
{
    let end = put_parties(into, at, roster, row);
    let end = put_standing(into, end, row);
    put(into, end, b"\n")
}
