//! The lines of a PROOF: potentials, and pairs with whose their bounds are.

ghost use Rattle.std.specs.Prelude.{◌≡◌, ◌+◌, ◌≤◌, ◌++◌, length, take, codes, decimal};
ghost use Rattle.command_types.specs.declared.proof.ProofRow.TheVariants.{Potential};
ghost use Rattle.command_types.specs.Details.{upper_text, whose_text, pair_line_text, proof_text};
ghost use Rattle.command_text.specs.declared.put.TheConstants.{PAIR};
ghost use Rattle.units_core.specs.declared.limits.TheConstants.{MOST_NAME};

use crate::plan_text::put_upper;
use command_text::put::{
    put, put_member, put_number, put_numbers, put_pair, put_product, put_signed,
};
use command_types::{PairLine, ProofRow, Roster, Whose};

// Whose a bound is.
fn put_whose(into: &mut [u8], at: usize, whose: Whose) -> usize
    requires { at + 6 ≤ length into.old }
    ensures end { result ≤ at + 6 }
    ensures text { take result into.new ≡ take at into.old ++ whose_text whose }
{
    match whose {
        Whose::Seller => put(into, at, b"seller"),
        Whose::Buyer => put(into, at, b"buyer"),
        Whose::Hold => put(into, at, b"hold"),
        Whose::Now => put(into, at, b"now"),
        Whose::Nobody => put(into, at, b"none"),
    }
}

// The least that a pair may come to, and whose that is.
fn put_lower(into: &mut [u8], at: usize, lower: u64, whose: Whose) -> usize
    requires { at + 28 ≤ length into.old }
    ensures end { result ≤ at + 28 }
    ensures text { take result into.new ≡ take at into.old ++ (codes " " ++ decimal lower ++ codes " " ++ whose_text whose) }
{
    let end = put(into, at, b" ");
    let end = put_number(into, end, lower);
    let end = put(into, end, b" ");
    put_whose(into, end, whose)
}

// The most that it may come to, and whose that is.
fn put_most(into: &mut [u8], at: usize, upper: Option<u64>, whose: Whose) -> usize
    requires { at + 28 ≤ length into.old }
    ensures end { result ≤ at + 28 }
    ensures text { take result into.new ≡ take at into.old ++ (codes " " ++ upper_text upper ++ codes " " ++ whose_text whose) }
{
    let end = put(into, at, b" ");
    let end = put_upper(into, end, upper);
    let end = put(into, end, b" ");
    put_whose(into, end, whose)
}

// A pair with its bounds.
fn put_bounds(into: &mut [u8], at: usize, roster: &Roster, line: &PairLine) -> usize
    requires { at + (MOST_NAME + PAIR + 104) ≤ length into.old }
    ensures end { result ≤ at + (MOST_NAME + PAIR + 104) }
    ensures text { take result into.new ≡ take at into.old ++ pair_line_text roster.now line.entry.now }
{
    let end = put(into, at, b"pair ");
    let end = put_product(into, end, roster, line.product);
    let end = put_pair(into, end, roster, line.seller, line.buyer);
    let end = put_lower(into, end, line.lower, line.lower_of);
    let end = put_numbers(into, end, line.now, line.next);
    let end = put_most(into, end, line.upper, line.upper_of);
    put(into, end, b"\n")
}

// A member's potential in a product.
fn put_potential(
    into: &mut [u8],
    at: usize,
    roster: &Roster,
    product: u16,
    member: u16,
    value: i32,
) -> usize
    requires { at + (PAIR + 25) ≤ length into.old }
    ensures end { result ≤ at + (PAIR + 25) }
    ensures text { take result into.new ≡ take at into.old ++ proof_text roster.now (Potential product member value) }
{
    let end = put(into, at, b"pot ");
    let end = put_product(into, end, roster, product);
    let end = put(into, end, b" ");
    let end = put_member(into, end, roster, member);
    let end = put(into, end, b" ");
    let end = put_signed(into, end, i64::from(value));
    put(into, end, b"\n")
}

/// Writes what a member is told of a proposal at a place of the buffer, and says where it ends.
pub(crate) fn put_proof(into: &mut [u8], at: usize, roster: &Roster, row: &ProofRow) -> usize
    requires { at + (MOST_NAME + PAIR + 104) ≤ length into.old }
    ensures end { result ≤ at + (MOST_NAME + PAIR + 104) }
    ensures text { take result into.new ≡ take at into.old ++ proof_text roster.now row.now }
{
    match *row {
        ProofRow::Potential {
            product,
            member,
            value,
        } => put_potential(into, at, roster, product, member, value),
        ProofRow::Pair(ref line) => put_bounds(into, at, roster, line),
    }
}
