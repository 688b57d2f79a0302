//! Bytes, numbers, names and words put into a buffer, one behind the other. Each call writes at a place of the buffer and
//! says where what it wrote ends; what stands before that place stays.

ghost use Rattle.std.specs.Prelude.{◌≡◌, ◌+◌, ◌<◌, ◌≤◌, ◌++◌, length, take, decimal};
ghost use Rattle.std.specs.Fmt.{signed_decimal};
ghost use Rattle.command_types.specs.Text.{member_name, product_name, state_text, mode_text, pair_text, numbers_text};
ghost use Rattle.command_text.specs.declared.put.TheConstants.{PAIR};
ghost use Rattle.units_core.specs.declared.limits.TheConstants.{MOST_NAME};

use command_types::{Mode, Roster, TradeState};
use itoa::Buffer;
use units_core::MOST_NAME;

/// The most bytes of two names with a space in front of each.
pub const PAIR: usize = MOST_NAME + MOST_NAME + 2;

/// Writes bytes at a place of the buffer, and says where they end.
pub fn put(into: &mut [u8], at: usize, bytes: &[u8]) -> usize
    requires { at + length bytes.now ≤ length into.old }
    ensures end { result ≡ at + length bytes.now }
    ensures text { take result into.new ≡ take at into.old ++ bytes.now }
{
    let end = at + bytes.len();
    into[at..end].copy_from_slice(bytes);
    end
}

/// Writes a number, of at most 20 digits.
pub fn put_number(into: &mut [u8], at: usize, number: u64) -> usize
    requires { at + 20 ≤ length into.old }
    ensures end { result ≤ at + 20 }
    ensures text { take result into.new ≡ take at into.old ++ decimal number }
{
    if number == 0 {
        return put(into, at, b"0");
    }
    let mut buffer = Buffer::new();
    put(into, at, buffer.format(number).as_bytes())
}

/// Writes a large number, of at most 39 digits.
pub fn put_large(into: &mut [u8], at: usize, number: u128) -> usize
    requires { at + 40 ≤ length into.old }
    ensures end { result ≤ at + 40 }
    ensures text { take result into.new ≡ take at into.old ++ decimal number }
{
    let mut buffer = Buffer::new();
    put(into, at, buffer.format(number).as_bytes())
}

/// Writes a signed number, of at most 20 bytes.
pub fn put_signed(into: &mut [u8], at: usize, number: i64) -> usize
    requires { at + 20 ≤ length into.old }
    ensures end { result ≤ at + 20 }
    ensures text { take result into.new ≡ take at into.old ++ signed_decimal number }
{
    let mut buffer = Buffer::new();
    put(into, at, buffer.format(number).as_bytes())
}

/// Writes two numbers with a space in front of each.
pub fn put_numbers(into: &mut [u8], at: usize, first: u64, second: u64) -> usize
    requires { at + 42 ≤ length into.old }
    ensures end { result ≤ at + 42 }
    ensures text { take result into.new ≡ take at into.old ++ numbers_text first second }
{
    let end = put(into, at, b" ");
    let end = put_number(into, end, first);
    let end = put(into, end, b" ");
    put_number(into, end, second)
}

/// Writes bytes and a number behind them.
pub fn put_told(into: &mut [u8], at: usize, bytes: &[u8], number: u64) -> usize
    requires { at + length bytes.now + 20 ≤ length into.old }
    ensures end { result ≤ at + length bytes.now + 20 }
    ensures text { take result into.new ≡ take at into.old ++ bytes.now ++ decimal number }
{
    let end = put(into, at, bytes);
    put_number(into, end, number)
}

/// Writes the name of the member at a place of the roster. A place without a member has no name.
pub fn put_member(into: &mut [u8], at: usize, roster: &Roster, member: u16) -> usize
    requires { at + MOST_NAME ≤ length into.old }
    ensures end { result ≤ at + MOST_NAME }
    ensures text { take result into.new ≡ take at into.old ++ member_name roster.now member }
{
    match roster.members().get(usize::from(member)) {
        None => at,
        Some(row) => put(into, at, row.name.text()),
    }
}

/// Writes the name of the product at a place of the roster. A place without a product has no name.
pub fn put_product(into: &mut [u8], at: usize, roster: &Roster, product: u16) -> usize
    requires { at + MOST_NAME ≤ length into.old }
    ensures end { result ≤ at + MOST_NAME }
    ensures text { take result into.new ≡ take at into.old ++ product_name roster.now product }
{
    match roster.products().get(usize::from(product)) {
        None => at,
        Some(row) => put(into, at, row.name.text()),
    }
}

/// Writes the names of two members, with a space in front of each.
pub fn put_pair(into: &mut [u8], at: usize, roster: &Roster, seller: u16, buyer: u16) -> usize
    requires { at + PAIR ≤ length into.old }
    ensures end { result ≤ at + PAIR }
    ensures text { take result into.new ≡ take at into.old ++ pair_text roster.now seller buyer }
{
    let end = put(into, at, b" ");
    let end = put_member(into, end, roster, seller);
    let end = put(into, end, b" ");
    put_member(into, end, roster, buyer)
}

/// Writes the word of a trade's state, of at most 7 bytes.
pub fn put_state(into: &mut [u8], at: usize, state: TradeState) -> usize
    requires { at + 7 ≤ length into.old }
    ensures end { result ≤ at + 7 }
    ensures text { take result into.new ≡ take at into.old ++ state_text state }
{
    match state {
        TradeState::Alleged => put(into, at, b"alleged"),
        TradeState::Live => put(into, at, b"live"),
        TradeState::Ended => put(into, at, b"ended"),
    }
}

/// Writes the word of a mode, of at most 12 bytes.
pub fn put_mode(into: &mut [u8], at: usize, mode: Mode) -> usize
    requires { at + 12 ≤ length into.old }
    ensures end { result ≤ at + 12 }
    ensures text { take result into.new ≡ take at into.old ++ mode_text mode }
{
    match mode {
        Mode::Conservative => put(into, at, b"conservative"),
        Mode::Hybrid => put(into, at, b"hybrid"),
        Mode::Free => put(into, at, b"free"),
    }
}
