//! The lines of a pair's limits and of a plan's steps.

ghost use Rattle.std.specs.Prelude.{◌≡◌, ◌+◌, ◌≤◌, ◌++◌, length, take, codes, decimal};
ghost use Rattle.command_types.specs.Text.{numbers_text};
ghost use Rattle.command_types.specs.Details.{upper_text, limit_text, plan_text};
ghost use Rattle.statements.specs.Details.{new_text};
ghost use Rattle.command_text.specs.declared.put.TheConstants.{PAIR};
ghost use Rattle.units_core.specs.declared.limits.TheConstants.{MOST_NAME};

use command_text::put::{put, put_number, put_numbers, put_pair, put_product, put_told};
use command_types::{LimitLine, PlanRow, Roster};
use units_core::{Amount, MemberNo, ProductNo};

// The most that a pair may come to.
pub(crate) fn put_upper(into: &mut [u8], at: usize, upper: Option<u64>) -> usize
    requires { at + 20 ≤ length into.old }
    ensures end { result ≤ at + 20 }
    ensures text { take result into.new ≡ take at into.old ++ upper_text upper }
{
    match upper {
        None => put(into, at, b"-"),
        Some(most) => put_number(into, at, most),
    }
}

/// Writes the limits of a pair at a place of the buffer, and says where they end.
pub(crate) fn put_limit(into: &mut [u8], at: usize, roster: &Roster, line: &LimitLine) -> usize
    requires { at + (PAIR + 69) ≤ length into.old }
    ensures end { result ≤ at + (PAIR + 69) }
    ensures text { take result into.new ≡ take at into.old ++ limit_text roster.now line.entry.now }
{
    let end = put(into, at, b"limit");
    let end = put_pair(into, end, roster, line.seller, line.buyer);
    let end = put_numbers(into, end, line.lower, line.now);
    let end = put(into, end, b" ");
    let end = put_upper(into, end, line.upper);
    put(into, end, b"\n")
}

// A trade that a plan makes.
fn put_new(
    into: &mut [u8],
    at: usize,
    roster: &Roster,
    product: ProductNo,
    seller: MemberNo,
    buyer: MemberNo,
    amount: Amount,
) -> usize
    requires { at + (MOST_NAME + PAIR + 26) ≤ length into.old }
    ensures end { result ≤ at + (MOST_NAME + PAIR + 26) }
    ensures text { take result into.new ≡ take at into.old ++ new_text roster.now product seller buyer amount }
{
    let end = put(into, at, b"new");
    let end = put_pair(into, end, roster, seller.0, buyer.0);
    let end = put(into, end, b" ");
    let end = put_product(into, end, roster, product.0);
    let end = put_told(into, end, b" ", amount.get());
    put(into, end, b"\n")
}

// A trade whose amount a plan cuts.
fn put_cut(into: &mut [u8], at: usize, trade: u64, from: u64, to: u64) -> usize
    requires { at + 67 ≤ length into.old }
    ensures end { result ≤ at + 67 }
    ensures text { take result into.new ≡ take at into.old ++ (codes "cut " ++ decimal trade ++ numbers_text from to ++ codes "\n") }
{
    let end = put_told(into, at, b"cut ", trade);
    let end = put_numbers(into, end, from, to);
    put(into, end, b"\n")
}

// A trade that a plan ends.
fn put_end(into: &mut [u8], at: usize, trade: u64) -> usize
    requires { at + 25 ≤ length into.old }
    ensures end { result ≤ at + 25 }
    ensures text { take result into.new ≡ take at into.old ++ (codes "end " ++ decimal trade ++ codes "\n") }
{
    let end = put_told(into, at, b"end ", trade);
    put(into, end, b"\n")
}

/// Writes a step of a plan at a place of the buffer, and says where it ends.
pub(crate) fn put_plan(into: &mut [u8], at: usize, roster: &Roster, row: &PlanRow) -> usize
    requires { at + (MOST_NAME + PAIR + 26) ≤ length into.old }
    ensures end { result ≤ at + (MOST_NAME + PAIR + 26) }
    ensures text { take result into.new ≡ take at into.old ++ plan_text roster.now row.now }
{
    match *row {
        PlanRow::End { trade } => put_end(into, at, trade),
        PlanRow::Cut { trade, from, to } => put_cut(into, at, trade, from, to),
        PlanRow::New {
            product,
            seller,
            buyer,
            amount,
            day: _,
        } => put_new(into, at, roster, product, seller, buyer, amount),
    }
}
