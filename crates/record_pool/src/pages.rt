//! Bytes one behind another in pages, so that more of them come without a copy of those before.
ghost use Rattle.std.specs.Prelude.{◌≡◌, ◌+◌, ◌*◌, ◌<◌, ◌≤◌, ◌^◌, [], ◌∷◌, ◌++◌, length, take, drop, slice_index, OnOk, OnErr};
ghost use Rattle.std.specs.Int.{w32, to_le_bytes};
ghost use Rattle.std.specs.List.{concat};
ghost use Rattle.record_pool.specs.Pages.{AreFull};

use crate::page::{PAGE, Page};
use std::alloc::{AllocError, Global};
use std::marker::Model;

// The most bytes for which there is ever room: more is told as want of memory.
const MOST: u64 = 4_611_686_018_427_387_904;

/// Bytes one behind another in pages of 65,536. Contracts see the bytes, and for how many more there is room.
///
/// Only [`Pages::make_room`] takes memory for them. It copies none of those that are there.
#[derive(Drop)]
pub(crate) struct Pages {
    pages: Vec<Page>,
    used: u64,
    room: u64,
}

impl Model for Pages {
    ghost use Rattle.std.specs.Prelude.{◌≡◌, ◌+◌, ◌*◌, ◌≤◌, length, take};
    ghost use Rattle.std.specs.List.{concat};
    ghost use Rattle.record_pool.specs.Pages.{PagesView, AreFull};

    ghost Value = { PagesView };

    ghost view = { λ p. record { bytes = take p.used (concat p.pages.items); room = p.room } };

    ghost invariant = { λ p. AreFull p.pages.items × (p.used + p.room ≡ 65536 * length p.pages.items) × (p.used + p.room ≤ 4611686018427387904) };
}

// Puts the first of the bytes over those at a place, up to the end of its page, and says how many.
fn put_front(pages: &mut Vec<Page>, at: u64, bytes: &[u8]) -> usize
    requires full { AreFull pages.old.items }
    requires place { at < 65536 * length pages.old.items }
    ensures full { AreFull pages.new.items }
    ensures same { length pages.new.items ≡ length pages.old.items }
    ensures some { 0 < length bytes.now → 0 < result }
    ensures most { result ≤ length bytes.now }
    ensures bytes { take (at + result) (concat pages.new.items) ≡ take at (concat pages.old.items) ++ take result bytes.now }
{
    let place = (at % PAGE as u64) as usize;
    let count = bytes.len().min(PAGE - place);
    let page = &mut pages[(at / PAGE as u64) as usize];
    page.put(place, &bytes[..count]);
    count
}

// Puts bytes over those from a place on.
fn put_all(pages: &mut Vec<Page>, from: u64, bytes: &[u8])
    requires full { AreFull pages.old.items }
    requires room { from + length bytes.now ≤ 65536 * length pages.old.items }
    requires few { from + length bytes.now < 2 ^ 63 }
    ensures full { AreFull pages.new.items }
    ensures same { length pages.new.items ≡ length pages.old.items }
    ensures bytes { take (from + length bytes.now) (concat pages.new.items) ≡ take from (concat pages.old.items) ++ bytes.now }
{
    let mut rest = bytes;
    let mut at = from;
    while !rest.is_empty() {
        let count = put_front(pages, at, rest);
        rest = &rest[count..];
        at += count as u64;
    }
}

// The bytes from a place on, up to the end of its page, at most so many.
fn front(pages: &[Page], at: u64, most: u64) -> &[u8]
    requires full { AreFull pages.now }
    requires place { at < 65536 * length pages.now }
    ensures some { 0 < most → 0 < length result.now }
    ensures most { length result.now ≤ most }
    ensures bytes { result.now ≡ take (length result.now) (drop at (concat pages.now)) }
{
    let place = (at % PAGE as u64) as usize;
    let count = most.min((PAGE - place) as u64) as usize;
    let page = &pages[(at / PAGE as u64) as usize];
    page.part(place, count)
}

// The byte at a place.
fn byte_at(pages: &[Page], at: u64) -> u8
    requires full { AreFull pages.now }
    requires place { at < 65536 * length pages.now }
    ensures { result ≡ slice_index (concat pages.now) at }
{
    front(pages, at, 1)[0]
}

// The number that four bytes spell, the lowest first.
fn number_of(first: u8, second: u8, third: u8, fourth: u8) -> u32
    ensures { to_le_bytes w32 result ≡ first ∷ second ∷ third ∷ fourth ∷ [] }
{
    u32::from_le_bytes([first, second, third, fourth])
}

// The number that four bytes from a place on spell.
fn number_at(pages: &[Page], at: u64) -> u32
    requires full { AreFull pages.now }
    requires within { at + 4 ≤ 65536 * length pages.now }
    requires few { at + 4 < 2 ^ 63 }
    ensures { to_le_bytes w32 result ≡ take 4 (drop at (concat pages.now)) }
{
    number_of(
        byte_at(pages, at),
        byte_at(pages, at + 1),
        byte_at(pages, at + 2),
        byte_at(pages, at + 3),
    )
}

// Puts so many bytes from a place on behind others.
fn copy_all(pages: &[Page], from: u64, count: u64, into: &mut Vec<u8>) -> Result<(), AllocError>
    requires full { AreFull pages.now }
    requires within { from + count ≤ 65536 * length pages.now }
    requires few { from + count < 2 ^ 63 }
    ensures { OnOk result (into.new.items ≡ into.old.items ++ take count (drop from (concat pages.now))) }
{
    into.reserve(count as usize)?;
    let mut at = from;
    let mut left = count;
    while left > 0 {
        let piece = front(pages, at, left);
        into.extend_from_slice(piece)?;
        at += piece.len() as u64;
        left -= piece.len() as u64;
    }
    Ok(())
}

impl Pages {
    /// No bytes, and no room for any.
    pub(crate) fn new(alloc: Global) -> Pages
        ensures { result ≡ record { bytes = []; room = 0 } }
    {
        Pages {
            pages: Vec::new(alloc),
            used: 0,
            room: 0,
        }
    }

    /// How many bytes there are.
    pub(crate) fn len(&self) -> u64
        ensures count { result ≡ length self.now.bytes }
        ensures few { result + self.now.room < 2 ^ 63 }
    {
        self.used
    }

    /// The number that four bytes from a place on spell, the lowest first.
    pub(crate) fn number(&self, at: u64) -> u32
        requires { at + 4 ≤ length self.now.bytes }
        ensures { to_le_bytes w32 result ≡ take 4 (drop at self.now.bytes) }
    {
        number_at(&self.pages, at)
    }

    // For how many more there is room.
    fn room(&self) -> u64
        ensures room { result ≡ self.now.room }
        ensures few { length self.now.bytes + result < 2 ^ 63 }
    {
        self.room
    }

    // Makes room for one page more. The only error is want of memory, which changes nothing.
    fn add_page(&mut self, alloc: Global) -> Result<(), AllocError>
        ensures ok { OnOk result (self.new ≡ record self.old { room = self.old.room + 65536 }) }
        ensures err { OnErr result (self.new ≡ self.old) }
        ensures few { OnOk result (self.old.room + 65536 < 2 ^ 63) }
    {
        if self.used + self.room > MOST - PAGE as u64 {
            return Err(AllocError);
        }
        let page = Page::new(alloc)?;
        self.pages.push(page)?;
        self.room += PAGE as u64;
        Ok(())
    }

    /// Makes room for so many more bytes. The only error is want of memory, which leaves the bytes, and some of the room that
    /// was made.
    pub(crate) fn make_room(&mut self, alloc: Global, more: u64) -> Result<(), AllocError>
        ensures bytes { self.new.bytes ≡ self.old.bytes }
        ensures keeps { self.old.room ≤ self.new.room }
        ensures room { OnOk result (more ≤ self.new.room) }
        ensures few { length self.new.bytes + self.new.room < 2 ^ 63 }
    {
        while self.room() < more {
            self.add_page(alloc)?;
        }
        Ok(())
    }

    /// Puts bytes behind the others, for which there is room. It takes no memory.
    pub(crate) fn put(&mut self, bytes: &[u8])
        requires { length bytes.now ≤ self.old.room }
        ensures bytes { self.new.bytes ≡ self.old.bytes ++ bytes.now }
        ensures room { self.new.room + length bytes.now ≡ self.old.room }
    {
        put_all(&mut self.pages, self.used, bytes);
        self.used += bytes.len() as u64;
        self.room -= bytes.len() as u64;
    }

    /// Puts so many bytes from a place on behind others. The only error is want of memory for those.
    pub(crate) fn copy(&self, from: u64, count: u64, into: &mut Vec<u8>) -> Result<(), AllocError>
        requires { from + count ≤ length self.now.bytes }
        ensures { OnOk result (into.new.items ≡ into.old.items ++ take count (drop from self.now.bytes)) }
    {
        copy_all(&self.pages, from, count, into)?;
        Ok(())
    }
}
