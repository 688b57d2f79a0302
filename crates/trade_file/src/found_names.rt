//! The names that a trade file had so far, each found again while it is read.
//!
//! A short text's key is the number that its bytes write to the base 1,034, and its slot the key's remainder by 1,024. In
//! the slot stand the stamp of the last name that came to it, which no other short text has, and what that name stands
//! for. A name that lost its slot, comes first or is longer is looked for in the roster.
ghost use Rattle.std.specs.Prelude.{◌≡◌, ◌<◌, ◌≤◌, ◌+◌, ◌*◌, ◌^◌, List, ℕ, Option, Some, IfSome, replicate};
ghost use Rattle.command_types.specs.Roster.{Rows};
ghost use Rattle.trade_file.specs.TradeFile.{member_of, product_of};
ghost use Rattle.trade_file.specs.FoundNames.{Knows, AreFound, IsShort, IsShortFront, IsNamed};

use crate::plain_row::comma_place;
use command_types::Roster;

/// Texts of up to so many bytes have keys below 2^61.
const SHORT: usize = 6;

/// The base of keys.
const BASE: u64 = 1034;

/// As many slots as there are remainders.
const SLOTS: u64 = 1024;

/// By a slot a name's stamp, or 0 where none came, and what the name stands for.
#[derive(Drop)]
pub(crate) struct FoundNames {
    stamps: [u64; 1024],
    places: [u16; 1024],
}

// The stamp of a text that has this key and this size.
fn stamp_of(key: u64, size: usize) -> u64
    requires small { key < 2 ^ 61 }
    requires few { size ≤ 6 }
    ensures { result ≡ key * 8 + size + 1 }
{
    key * 8 + size as u64 + 1
}

// The key and the size of a short text that stands before the first comma.
fn key_before_comma(text: &[u8]) -> Option<(u64, usize)>
    ensures { IfSome result (λ front. IsShortFront text.now front.0 front.1) }
{
    let most = text.len().min(SHORT);
    let mut key = 0u64;
    for at in 0..most {
        let byte = text[at];
        if byte == b',' {
            return Some((key, at));
        }
        key = key * BASE + u64::from(byte);
    }
    if most < text.len() && text[most] == b',' {
        return Some((key, most));
    }
    None
}

impl FoundNames {
    // No name.
    fn new() -> FoundNames
        ensures { result.stamps ≡ replicate 1024 0 }
    {
        FoundNames {
            stamps: [0; 1024],
            places: [0; 1024],
        }
    }

    // What the name that has this key and this size stands for, if it is the last that came to its slot.
    fn place(&self, key: u64, size: usize) -> Option<u16>
        requires small { key < 2 ^ 61 }
        requires few { size ≤ 6 }
        ensures { IfSome result (λ place. (read : List ℕ → Option ℕ) (name : List ℕ) → Knows read self.now → IsShort name key size → read name ≡ Some place) }
    {
        let slot = (key % SLOTS) as usize;
        if self.stamps[slot] == stamp_of(key, size) {
            Some(self.places[slot])
        } else {
            None
        }
    }

    // Keeps what the name that has this key and this size stands for.
    fn keep(&mut self, key: u64, size: usize, place: u16)
        requires small { key < 2 ^ 61 }
        requires few { size ≤ 6 }
        ensures { (read : List ℕ → Option ℕ) (name : List ℕ) → Knows read self.old → IsShort name key size → read name ≡ Some place → Knows read self.new }
    {
        let slot = (key % SLOTS) as usize;
        self.stamps[slot] = stamp_of(key, size);
        self.places[slot] = place;
    }
}

// The member whose name stands before the first comma, and where the comma stands.
fn member_before_comma(roster: &Roster, text: &[u8]) -> Option<(u16, usize)>
    ensures { IfSome result (λ front. IsNamed (member_of roster.now) text.now front.0 front.1) }
{
    let end = comma_place(text)?;
    let member = roster.member_spelt(&text[..end])?;
    Some((member.0, end))
}

// The same of a product.
fn product_before_comma(roster: &Roster, text: &[u8]) -> Option<(u16, usize)>
    ensures { IfSome result (λ front. IsNamed (product_of roster.now) text.now front.0 front.1) }
{
    let end = comma_place(text)?;
    let product = roster.product_spelt(&text[..end])?;
    Some((product.0, end))
}

/// The members' names and the products'.
#[derive(Drop)]
pub(crate) struct TradeNames {
    members: FoundNames,
    products: FoundNames,
}

impl TradeNames {
    /// No name.
    pub(crate) fn new() -> TradeNames
        ensures { (rows : Rows) → AreFound rows result }
    {
        TradeNames {
            members: FoundNames::new(),
            products: FoundNames::new(),
        }
    }

    /// The member whose name stands before a comma at the text's front, and where the comma stands.
    #[inline(always)]
    pub(crate) fn member(&mut self, roster: &Roster, text: &[u8]) -> Option<(u16, usize)>
        requires { AreFound roster.now self.old }
        ensures found { AreFound roster.now self.new }
        ensures named { IfSome result (λ front. IsNamed (member_of roster.now) text.now front.0 front.1) }
    {
        let Some((key, end)) = key_before_comma(text) else {
            return member_before_comma(roster, text);
        };
        if let Some(place) = self.members.place(key, end) {
            return Some((place, end));
        }
        let member = roster.member_spelt(&text[..end])?;
        self.members.keep(key, end, member.0);
        Some((member.0, end))
    }

    /// The same of a product.
    #[inline(always)]
    pub(crate) fn product(&mut self, roster: &Roster, text: &[u8]) -> Option<(u16, usize)>
        requires { AreFound roster.now self.old }
        ensures found { AreFound roster.now self.new }
        ensures named { IfSome result (λ front. IsNamed (product_of roster.now) text.now front.0 front.1) }
    {
        let Some((key, end)) = key_before_comma(text) else {
            return product_before_comma(roster, text);
        };
        if let Some(place) = self.products.place(key, end) {
            return Some((place, end));
        }
        let product = roster.product_spelt(&text[..end])?;
        self.products.keep(key, end, product.0);
        Some((product.0, end))
    }
}
