//! Records that were appended since a journal was opened.
ghost use Rattle.std.specs.Prelude.{◌≡◌, ◌+◌, ◌<◌, ◌≤◌, ◌^◌, [], ◌∷◌, ◌++◌, length, slice_index_or, OnOk, OnErr};
ghost use Rattle.record_pool.specs.Marks.{place_at};

use crate::marks::{Marks, STEP};
use crate::pages::Pages;
use std::alloc::{AllocError, Global};
use std::marker::Model;

// The bytes of a frame before its record.
const LEAD: u64 = 5;

/// Records in memory, each in its frame. Contracts see the records, and for how many more bytes of frames there is room.
#[derive(Drop)]
pub(crate) struct Appended {
    pages: Pages,
    marks: Marks,
    room: u64,
}

impl Model for Appended {
    ghost use Rattle.record_pool.specs.Appended.{AppendedView, IsAppended};

    ghost Value = { AppendedView };

    ghost view = { λ a. record { records = a.marks.records; room = a.room } };

    ghost invariant = { λ a. IsAppended a.pages a.marks a.room };
}

impl Appended {
    /// No records, and no room for any.
    pub(crate) fn new(alloc: Global) -> Appended
        ensures { result ≡ record { records = []; room = 0 } }
    {
        Appended {
            pages: Pages::new(alloc),
            marks: Marks::new(alloc),
            room: 0,
        }
    }

    /// How many there are.
    pub(crate) fn len(&self) -> u64
        ensures count { result ≡ length self.now.records }
        ensures few { result < 2 ^ 63 }
    {
        self.marks.len()
    }

    /// Makes room for so many more bytes of frames, five and the record's for each. The only error is want of memory, which
    /// changes nothing.
    pub(crate) fn make_room(&mut self, alloc: Global, more: u64) -> Result<(), AllocError>
        ensures records { self.new.records ≡ self.old.records }
        ensures keeps { self.old.room ≤ self.new.room }
        ensures room { OnOk result (more ≤ self.new.room) }
        ensures err { OnErr result (self.new ≡ self.old) }
    {
        self.pages.make_room(alloc, more)?;
        self.marks.make_room(more / LEAD + 1)?;
        self.room = self.room.max(more);
        Ok(())
    }

    /// Puts a record behind the others, for which there is room. It takes no memory.
    pub(crate) fn push(&mut self, record_bytes: &[u8])
        requires small { length record_bytes.now < 2 ^ 32 }
        requires room { 5 + length record_bytes.now ≤ self.old.room }
        ensures records { self.new.records ≡ self.old.records ++ record_bytes.now ∷ [] }
        ensures room { self.new.room + (5 + length record_bytes.now) ≡ self.old.room }
    {
        let at = self.pages.len();
        self.marks.push(at, record_bytes);
        self.pages.put(&[1]);
        self.pages.put(&(record_bytes.len() as u32).to_le_bytes());
        self.pages.put(record_bytes);
        self.room -= LEAD + record_bytes.len() as u64;
    }

    // The place of a record.
    fn place(&self, number: u64) -> u64
        requires { number < length self.now.records }
        ensures { result ≡ place_at self.now.records number }
    {
        let mut at = self.marks.near(number);
        for _before in 0..number % STEP {
            at += LEAD + self.pages.number(at + 1) as u64;
        }
        at
    }

    /// Puts a record's bytes behind others. The only error is want of memory for those.
    pub(crate) fn copy(&self, number: u64, into: &mut Vec<u8>) -> Result<(), AllocError>
        requires { number < length self.now.records }
        ensures { OnOk result (into.new.items ≡ into.old.items ++ slice_index_or self.now.records number []) }
    {
        let at = self.place(number);
        let size = self.pages.number(at + 1);
        self.pages.copy(at + LEAD, size as u64, into)?;
        Ok(())
    }
}
