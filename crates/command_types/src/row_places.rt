//! Looking for a row by its name, with one place tried first.
ghost use Rattle.std.specs.Prelude.{◌≡◌, ◌<◌, IfSome, None, length, map, position, true, if◌then◌else◌};
ghost use Rattle.std.specs.Str.{bytes_eq};
ghost use Rattle.units_core.specs.Name.{is_name};
ghost use Rattle.command_types.specs.Roster.{are_different};

use crate::roster::{MemberRow, ProductRow};
use units_core::Name;

// Whether two texts are the same. Names are so short that byte by byte is fastest.
fn is_same(a: &[u8], b: &[u8]) -> bool
    ensures { result ≡ bytes_eq a.now b.now }
{
    if a.len() != b.len() {
        return false;
    }
    for i in 0..a.len() {
        if a[i] != b[i] {
            return false;
        }
    }
    true
}

fn place_of_member(members: &[MemberRow], name: &Name) -> Option<usize>
    ensures place { result ≡ position (λ row. bytes_eq row.name name.now) members.now }
    ensures within { IfSome result (λ place. place < length members.now) }
{
    members.iter().position(|row| row.name.is(name))
}

fn place_of_product(products: &[ProductRow], name: &Name) -> Option<usize>
    ensures place { result ≡ position (λ row. bytes_eq row.name name.now) products.now }
    ensures within { IfSome result (λ place. place < length products.now) }
{
    products.iter().position(|row| row.name.is(name))
}

// The place of the one among all members whose name the text is.
#[cold]
#[inline(never)]
fn member_among(members: &[MemberRow], text: &[u8]) -> Option<usize>
    ensures place { result ≡ (if is_name text.now then position (λ row. bytes_eq row.name text.now) members.now else None) }
    ensures within { IfSome result (λ place. place < length members.now) }
{
    match Name::read(text) {
        None => None,
        Some(name) => place_of_member(members, &name),
    }
}

// The place of the one among all products whose name the text is.
#[cold]
#[inline(never)]
fn product_among(products: &[ProductRow], text: &[u8]) -> Option<usize>
    ensures place { result ≡ (if is_name text.now then position (λ row. bytes_eq row.name text.now) products.now else None) }
    ensures within { IfSome result (λ place. place < length products.now) }
{
    match Name::read(text) {
        None => None,
        Some(name) => place_of_product(products, &name),
    }
}

/// The place of the member whose name the text is, where this place is tried first.
#[inline(never)]
pub(crate) fn member_at(members: &[MemberRow], text: &[u8], place: usize) -> Option<usize>
    requires { are_different (map (λ row. row.name) members.now) ≡ true }
    ensures place { result ≡ (if is_name text.now then position (λ row. bytes_eq row.name text.now) members.now else None) }
    ensures within { IfSome result (λ place. place < length members.now) }
{
    if place < members.len() && is_same(members[place].name.text(), text) {
        return Some(place);
    }
    member_among(members, text)
}

/// The same of products.
#[inline(never)]
pub(crate) fn product_at(products: &[ProductRow], text: &[u8], place: usize) -> Option<usize>
    requires { are_different (map (λ row. row.name) products.now) ≡ true }
    ensures place { result ≡ (if is_name text.now then position (λ row. bytes_eq row.name text.now) products.now else None) }
    ensures within { IfSome result (λ place. place < length products.now) }
{
    if place < products.len() && is_same(products[place].name.text(), text) {
        return Some(place);
    }
    product_among(products, text)
}
