//! The places of records whose frames stand one behind another: of the first of each sixteen.
ghost use Rattle.std.specs.Prelude.{◌≡◌, ◌+◌, ◌*◌, ◌/◌, ◌<◌, ◌≤◌, ◌^◌, [], ◌∷◌, ◌++◌, length, OnOk, OnErr};
ghost use Rattle.record_pool.specs.Marks.{place_at};

use crate::log::Log;
use std::alloc::{AllocError, Global};
use std::marker::Model;

// How many records there are from one mark to the next.
pub(crate) const STEP: u64 = 16;

/// Where records begin. Contracts see the records, and for how many more there is room.
///
/// Only [`Marks::make_room`] takes memory.
#[derive(Drop)]
pub(crate) struct Marks {
    places: Vec<u64>,
    count: u64,
    room: u64,
    log: Log,
}

impl Model for Marks {
    ghost use Rattle.std.specs.Prelude.{◌≡◌, ◌+◌, ◌/◌, ◌≤◌, length, vec_capacity};
    ghost use Rattle.record_pool.specs.Marks.{MarksView, AreMarks};

    ghost Value = { MarksView };

    ghost view = { λ m. record { records = m.log.items; room = m.room } };

    ghost invariant = { λ m. AreMarks m.log.items m.places.items × (m.count ≡ length m.log.items) × ((m.count + m.room + 15) / 16 ≤ vec_capacity m.places) };
}

impl Marks {
    /// No records, and no room for any.
    pub(crate) fn new(alloc: Global) -> Marks
        ensures { result ≡ record { records = []; room = 0 } }
    {
        Marks {
            places: Vec::new(alloc),
            count: 0,
            room: 0,
            log: Log::new(),
        }
    }

    /// How many records there are.
    pub(crate) fn len(&self) -> u64
        ensures { result ≡ length self.now.records }
    {
        self.count
    }

    /// Makes room for so many more records. The only error is want of memory, which changes nothing.
    pub(crate) fn make_room(&mut self, more: u64) -> Result<(), AllocError>
        ensures records { self.new.records ≡ self.old.records }
        ensures keeps { self.old.room ≤ self.new.room }
        ensures room { OnOk result (more ≤ self.new.room) }
        ensures err { OnErr result (self.new ≡ self.old) }
    {
        self.places.reserve((more / STEP + 1) as usize)?;
        self.room = self.room.max(more);
        Ok(())
    }

    /// Puts a record behind the others, where its frame begins at this place. It takes no memory.
    pub(crate) fn push(&mut self, at: u64, record_bytes: &[u8])
        requires room { 1 ≤ self.old.room }
        requires place { at ≡ place_at self.old.records (length self.old.records) }
        requires few { length self.old.records + 1 < 2 ^ 63 }
        ensures records { self.new.records ≡ self.old.records ++ record_bytes.now ∷ [] }
        ensures room { self.new.room + 1 ≡ self.old.room }
    {
        if self.count % STEP == 0 {
            self.places.push_reserved(at);
        }
        self.log = Log::with(&self.log, record_bytes);
        self.count += 1;
        self.room -= 1;
    }

    /// The place of the first of the sixteen records among which this one is.
    pub(crate) fn near(&self, number: u64) -> u64
        requires { number < length self.now.records }
        ensures { result ≡ place_at self.now.records (16 * (number / 16)) }
    {
        self.places[(number / STEP) as usize]
    }
}
