//! Names of a roster, found by their slots, and by going through the rows.

use command_types::Roster;
use std::alloc::{AllocError, Global};
use std::test::Fail;
use trade_file::read_roster;
use units_core::{MemberNo, Name, ProductNo};

/// Names in slots that they share: the first five in one, the next three in one, the last two in one. They have up to six
/// bytes and more.
const SHARED: &[&str] = &[
    "AK",
    "BA",
    "C077",
    "GHI",
    "DEALER-893",
    "AAKAAK",
    "AAKABA",
    "ABAABA",
    "LONG-NAME-AK",
    "LONG-NAME-BA",
];

/// The roster of these customers and products.
fn roster_of(alloc: Global, members: &[&str], products: &[&str]) -> Result<Roster, AllocError> {
    let mut text = String::from_str(alloc, "name,role,key\n")?;
    for &name in members {
        text.push_str(format!(in alloc; "{name},customer,K\n")?.as_str())?;
    }
    for &name in products {
        text.push_str(format!(in alloc; "{name},product,2031-06-30\n")?.as_str())?;
    }
    read_roster(alloc, text.as_bytes()).ok().ok_or(AllocError)
}

/// The first member whose name this text is, with one row after another compared.
fn member_among(roster: &Roster, text: &[u8]) -> Option<MemberNo> {
    for (place, row) in roster.members().iter().enumerate() {
        if row.name.text() == text {
            return Some(MemberNo(place as u16));
        }
    }
    None
}

/// The first product whose name this text is, with one row after another compared.
fn product_among(roster: &Roster, text: &[u8]) -> Option<ProductNo> {
    for (place, row) in roster.products().iter().enumerate() {
        if row.name.text() == text {
            return Some(ProductNo(place as u16));
        }
    }
    None
}

/// Whether a text is looked up as going through the rows finds it, as a name too if it is one.
fn is_looked_up(roster: &Roster, text: &[u8]) -> bool {
    let member = member_among(roster, text);
    let product = product_among(roster, text);
    if let Some(name) = Name::read(text) {
        if roster.member_named(&name) != member || roster.product_named(&name) != product {
            return false;
        }
    }
    roster.member_spelt(text) == member && roster.product_spelt(text) == product
}

/// Whether a member and a product stand at this place.
fn are_at(member: Option<MemberNo>, product: Option<ProductNo>, place: usize) -> bool {
    match (member, product) {
        (Some(member), Some(product)) => member.index() == place && product.index() == place,
        _ => false,
    }
}

/// Whether each of these is the name of the member at its place, and of the product at its place in a roster of products.
fn have_their_places(alloc: Global, names: &[&str]) -> Result<bool, AllocError> {
    let members = roster_of(alloc, names, &[])?;
    let products = roster_of(alloc, &[], names)?;
    for (place, &name) in names.iter().enumerate() {
        let text = name.as_bytes();
        let member = members.member_spelt(text);
        let product = products.product_spelt(text);
        if !are_at(member, product, place) || !is_looked_up(&members, text) {
            return Ok(false);
        }
    }
    Ok(members.members().len() == names.len() && products.products().len() == names.len())
}

#[test]
fn names_that_share_a_slot_have_their_places(rt: HostRuntime) -> Result<(), Fail> {
    assert!(rt; have_their_places(rt.alloc(), SHARED)?);
    Ok(())
}

/// Whether none of these texts is found among these members and products.
fn are_nobodys(
    alloc: Global,
    members: &[&str],
    products: &[&str],
    texts: &[&str],
) -> Result<bool, AllocError> {
    let roster = roster_of(alloc, members, products)?;
    for &text in texts {
        let text = text.as_bytes();
        let is_found = roster.member_spelt(text).is_some() || roster.product_spelt(text).is_some();
        if is_found || !is_looked_up(&roster, text) {
            return Ok(false);
        }
    }
    Ok(true)
}

/// What no member and no product has as its name: texts in the slots of names, parts of names, and no names at all.
const NOBODYS: &[&str] = &[
    "BA",
    "C077",
    "DEALER-893",
    "AAKABA",
    "LONG-NAME-BA",
    "A",
    "AKA",
    "AAKAA",
    "AAKAAKA",
    "LONG-NAME-A",
    "LONG-NAME-AK-7-89",
    "",
    "\0",
    "\0AK",
    "AK\0",
    "ak",
    "\"AK\"",
];

#[test]
fn what_is_nobodys_name_is_not_found(rt: HostRuntime) -> Result<(), Fail> {
    let members = ["AK", "AAKAAK", "LONG-NAME-AK"];
    let products = ["GHI", "ABAABA"];
    assert!(rt; are_nobodys(rt.alloc(), &members, &products, NOBODYS)?);
    assert!(rt; are_nobodys(rt.alloc(), &[], &[], NOBODYS)?);
    Ok(())
}

/// The bytes that a name may have.
const BYTES: &[u8; 37] = b"ABCDEFGHIJKLMNOPQRSTUVWXYZ0123456789-";

/// A text of so many bytes of names, drawn by this state, which goes on.
fn drawn(alloc: Global, state: &mut u64, size: usize) -> Result<String, AllocError> {
    let mut text = String::new(alloc);
    for _ in 0..size {
        *state = state
            .wrapping_mul(6_364_136_223_846_793_005)
            .wrapping_add(1_442_695_040_888_963_407);
        let at = (*state >> 33) % 37;
        text.push(char::from(BYTES[at as usize]))?;
    }
    Ok(text)
}

/// Whether 256 members with drawn names of 3 to 16 bytes are found at their places, and as many further texts of 1 to 17
/// as going through the rows finds them.
fn are_found(alloc: Global, seed: u64) -> Result<bool, AllocError> {
    let mut state = seed;
    let mut text = String::from_str(alloc, "name,role,key\n")?;
    for number in 0..256usize {
        let name = drawn(alloc, &mut state, 3 + number % 14)?;
        text.push_str(format!(in alloc; "{name},customer,K\n")?.as_str())?;
    }
    let Ok(roster) = read_roster(alloc, text.as_bytes()) else {
        return Err(AllocError);
    };
    for (place, row) in roster.members().iter().enumerate() {
        let is_here = roster.member_named(&row.name) == Some(MemberNo(place as u16));
        let other = drawn(alloc, &mut state, 1 + place % 17)?;
        if !is_here
            || !is_looked_up(&roster, row.name.text())
            || !is_looked_up(&roster, other.as_bytes())
        {
            return Ok(false);
        }
    }
    Ok(roster.members().len() == 256)
}

#[test]
fn drawn_names_have_their_places(rt: HostRuntime) -> Result<(), Fail> {
    assert!(rt; are_found(rt.alloc(), 1)?);
    Ok(())
}
