//! Where a roster's names may stand, so that a look-up need not go through the rows.
//!
//! - A text's key is the number that its bytes write to the base 1,034, and its slot the key's remainder by 1,024. There
//!   the base leaves 10, so names that differ in their last digits alone have slots of their own.
//! - A slot has the place of the last row whose name came to it, or 0 where none did.
//! - By each place stands the stamp of the name there: its key and its size in one number, and 0 where the name has
//!   more than six bytes or no row stands. A text of at most six bytes is the name at its slot's place exactly where
//!   it has the stamp that stands there. A longer text is compared with the row's name.
//! - A name that lost its slot to another, and a text that is nobody's name, are looked for among all rows.
//!
//! The tables lie in place: they take no memory from an allocator.
ghost use Rattle.std.specs.Prelude.{◌≡◌, ◌≤◌, ◌<◌, ◌^◌, IsTrue, length, get_or, map, replicate, true};
ghost use Rattle.units_core.specs.Name.{is_name};
ghost use Rattle.units_core.specs.declared.limits.TheConstants.{MOST_MEMBERS, MOST_PRODUCTS};
ghost use Rattle.command_types.specs.Stamps.{key_number, stamp, kept_stamp, AreStamps, IsPut};

use crate::roster::{MemberRow, ProductRow};
use std::marker::Model;
use units_core::Name;

/// As many slots as there are remainders.
const SLOTS: u64 = 1024;

/// The base of keys.
const BASE: u64 = 1034;

/// Texts of up to so many bytes have keys below 2^61, and are told apart by their stamps.
const SHORT: usize = 6;

/// The places of names. Contracts see the stamps: nothing is said of slots, which only tell where to look first.
#[derive(Drop)]
pub(crate) struct NameIndex {
    /// By a slot the place of a row whose name may be the text.
    slots: [u8; 1024],
    /// By a place what is kept of the name there.
    stamps: [u64; 256],
}

impl Model for NameIndex {
    ghost use Rattle.std.specs.Prelude.{List, ℕ};

    ghost Value = { List ℕ };

    ghost view = { λ i. i.stamps };
}

/// The number that the bytes write to the base, modulo 2^64.
pub(crate) fn key_of(text: &[u8]) -> u64
    ensures number { length text.now ≤ 6 → result ≡ key_number text.now }
    ensures small { length text.now ≤ 6 → result < 2 ^ 61 }
{
    let mut key = 0u64;
    for byte in text {
        key = key.wrapping_mul(BASE).wrapping_add(u64::from(*byte));
    }
    key
}

// The stamp of a short text that has this key.
fn stamp_of(text: &[u8], key: u64) -> u64
    requires short { length text.now ≤ 6 }
    requires number { key ≡ key_number text.now }
    requires small { key < 2 ^ 61 }
    ensures { result ≡ stamp text.now }
{
    key * 8 + text.len() as u64 + 1
}

// What is kept of a name that has this key.
fn kept_stamp_of(text: &[u8], key: u64) -> u64
    requires number { length text.now ≤ 6 → key ≡ key_number text.now }
    requires small { length text.now ≤ 6 → key < 2 ^ 61 }
    ensures { result ≡ kept_stamp text.now }
{
    if text.len() > SHORT {
        return 0;
    }
    stamp_of(text, key)
}

impl NameIndex {
    // The index without a name.
    fn empty() -> NameIndex
        ensures { result ≡ replicate 256 0 }
    {
        NameIndex {
            slots: [0; 1024],
            stamps: [0; 256],
        }
    }

    // Puts a name at its place, where none stood.
    fn put(&mut self, place: u8, name: &Name)
        ensures put { IsPut self.old self.new place name.now }
        ensures named { IsTrue (is_name name.now) }
    {
        let text = name.text();
        let key = key_of(text);
        self.slots[(key % SLOTS) as usize] = place;
        self.stamps[place as usize] = kept_stamp_of(text, key);
    }

    /// The index of these members' names.
    pub(crate) fn of_members(rows: &[MemberRow]) -> NameIndex
        requires { length rows.now ≤ MOST_MEMBERS }
        ensures { AreStamps (map (λ row. row.name) rows.now) result }
    {
        let mut index = NameIndex::empty();
        for (place, row) in rows.iter().enumerate() {
            index.put(place as u8, &row.name);
        }
        index
    }

    /// The index of these products' names.
    pub(crate) fn of_products(rows: &[ProductRow]) -> NameIndex
        requires { length rows.now ≤ MOST_PRODUCTS }
        ensures { AreStamps (map (λ row. row.name) rows.now) result }
    {
        let mut index = NameIndex::empty();
        for (place, row) in rows.iter().enumerate() {
            index.put(place as u8, &row.name);
        }
        index
    }

    /// An equal index.
    pub(crate) fn copy(&self) -> NameIndex
        ensures { result ≡ self.now }
    {
        NameIndex {
            slots: self.slots,
            stamps: self.stamps,
        }
    }

    /// The place where the name that has this key may stand.
    pub(crate) fn place(&self, key: u64) -> u8 {
        self.slots[(key % SLOTS) as usize]
    }

    /// Whether this text, which has this key, is short and has the stamp at this place.
    pub(crate) fn has_stamp(&self, place: u8, text: &[u8], key: u64) -> bool
        requires number { length text.now ≤ 6 → key ≡ key_number text.now }
        requires small { length text.now ≤ 6 → key < 2 ^ 61 }
        ensures { result ≡ true → (length text.now ≤ 6) × (get_or self.now place 0 ≡ stamp text.now) }
    {
        text.len() <= SHORT && self.stamps[place as usize] == stamp_of(text, key)
    }
}
