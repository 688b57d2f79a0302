//! Changes that are made in memory, to be put on the disk together.
//!
//! ```text
//!   decide, undo_of     bytes          room for them      frame           commit     ..     append_all      on the disk
//!        |                |                 |               |               |                   |                |
//!        +-- fits --------+-- encode -------+-- make_room --+-- push -------+-- push -------..--+-- put_into: can't fail
//!            all stays       (memory)          (memory)        (memory)        can't fail           or take_back: can't fail
//! ```
ghost use Rattle.std.specs.Prelude.{◌≡◌, ◌<◌, ◌≤◌, ◌+◌, ◌^◌, ◌↔◌, ◌++◌, ◌∷◌, [], length, vec_capacity, is_some, IsTrue, IfOk, OnOk, OnErr};
ghost use Rattle.command_types.specs.declared.desk.TheConstants.{MOST_TOGETHER};
ghost use Rattle.command_types.specs.Machine.{changes};
ghost use Rattle.command_types.specs.History.{longer};
ghost use Rattle.command_types.specs.Sizes.{record_size, journal_limit};
ghost use Rattle.command_types.specs.Spelling.{Spells, posted, most_solutions};
ghost use Rattle.command_types.specs.declared.figures.State.{State};
ghost use Rattle.command_types.specs.declared.spelling.Spelling.TheVariants.{Second};
ghost use Rattle.journal_core.specs.Frame.{frames_length};
ghost use Rattle.house.specs.Batch.{empty_batch, end_of_batch, size_of_batch, FitsJournal, TakeBack};
ghost use Rattle.house.specs.Step.{IsWritten};
ghost use Rattle.house.specs.declared.chronicle.TheConstants.{VOTES_ROOM};
ghost use Rattle.house.specs.Storing.{any_kept};
ghost use Rattle.std.specs.List.{AllZip};

use crate::chronicle::Chronicle;
use crate::storing::record_of;
use command_types::{Entry, MOST_TOGETHER};
use cycle_states::{Machine, Undo};
use journal_core::{Frame, Frames};
use std::alloc::{AllocError, Global};
use std::marker::Model;
use units_core::MOST_JOURNAL;

/// Changes that the machine has made and the disk has not, the newest last: they, what takes each back, and their records. It has room
/// for `MOST_TOGETHER`. Behind a fault of the disk, which stops a house, it keeps those on which the disk failed.
#[derive(Drop)]
pub(crate) struct Batch {
    // The position and the journal's bytes behind which they are made.
    at: u64,
    size: u64,
    entries: Vec<Entry>,
    undos: Vec<Undo>,
    records: Vec<Vec<u8>>,
    frames: Frames,
}

impl Model for Batch {
    ghost use Rattle.std.specs.Prelude.{◌≡◌, ◌≤◌, map, vec_capacity};
    ghost use Rattle.house.specs.Batch.{BatchView};
    ghost use Rattle.command_types.specs.declared.desk.TheConstants.{MOST_TOGETHER};

    ghost Value = { BatchView };

    ghost view = { λ b. record { at = b.at; size = b.size; entries = b.entries.items; undos = b.undos.items; records = b.frames } };

    ghost invariant = { λ b. (MOST_TOGETHER ≤ vec_capacity b.entries) × (MOST_TOGETHER ≤ vec_capacity b.undos) × (MOST_TOGETHER ≤ vec_capacity b.records)
        × (map (λ r. r.items) b.records.items ≡ b.frames) };
}

// Takes all changes back that were made since the first state, the newest first.
fn go_back(machine: &mut Machine, undos: &mut Vec<Undo>)
    requires { (first : State) × TakeBack machine.old.state undos.old.items first }
    ensures back { (first : State) → TakeBack machine.old.state undos.old.items first → machine.new.state ≡ first }
    ensures none { undos.new.items ≡ [] }
    ensures capacity { vec_capacity undos.new ≡ vec_capacity undos.old }
{
    while let Some(undo) = undos.pop() {
        machine.undo(&undo);
    }
}

impl Batch {
    /// Without a change. The only error is want of memory.
    pub(crate) fn new(alloc: Global) -> Result<Batch, AllocError>
        ensures { IfOk result (λ b. b ≡ empty_batch 0 0) }
    {
        let entries = Vec::with_capacity(alloc, MOST_TOGETHER)?;
        let undos = Vec::with_capacity(alloc, MOST_TOGETHER)?;
        let records = Vec::with_capacity(alloc, MOST_TOGETHER)?;
        let frames = Frames::new(alloc)?;
        Ok(Batch {
            at: 0,
            size: 0,
            entries,
            undos,
            records,
            frames,
        })
    }

    /// Whether it has a change. This and all below but `write` takes no memory.
    pub(crate) fn any(&self) -> bool
        ensures { result ≡ any_kept self.now.entries }
    {
        !self.entries.is_empty()
    }

    /// The position behind which its changes are made.
    pub(crate) fn at(&self) -> u64
        ensures { result ≡ self.now.at }
    {
        self.at
    }

    /// The position behind them.
    pub(crate) fn end(&self) -> u64
        requires at { self.now.at < 2 ^ 63 }
        requires few { length self.now.entries < 2 ^ 63 }
        ensures { result ≡ end_of_batch self.now }
    {
        self.at + self.entries.len() as u64
    }

    /// The journal's bytes behind their records.
    pub(crate) fn size(&self) -> u64
        requires { FitsJournal self.now }
        ensures { result ≡ size_of_batch self.now }
    {
        self.size.saturating_add(self.frames.size())
    }

    /// Whether a record of this length fits behind them into a journal.
    pub(crate) fn fits(&self, length: u64) -> bool
        ensures { IsTrue result ↔ (size_of_batch self.now + 4 + length + 1 ≤ journal_limit) }
    {
        let behind = self.size.saturating_add(self.frames.size());
        behind.saturating_add(length).saturating_add(5) <= MOST_JOURNAL
    }

    /// Takes all of them away; others are made behind this position and so many bytes.
    pub(crate) fn begin(&mut self, at: u64, size: u64)
        ensures { self.new ≡ empty_batch at size }
    {
        self.at = at;
        self.size = size;
        self.entries.clear();
        self.undos.clear();
        self.records.clear();
        self.frames.clear();
    }

    /// With this change alone, on which the disk failed.
    pub(crate) fn keep(&mut self, entry: Entry)
        ensures { self.new ≡ record self.old { entries = entry ∷ [] } }
    {
        self.entries.clear();
        self.entries.push_reserved(entry);
    }

    /// Puts a change's record behind the others, and makes room for all of them where the history's records are, and for the votes of
    /// all members. The only error is want of memory, which leaves it and the history as they were.
    pub(crate) fn write(&mut self, past: &mut Chronicle, entry: &Entry) -> Result<(), AllocError>
        requires change { IsTrue (changes entry.now.ask.what) }
        requires party { IsTrue (is_some entry.now.ask.by) }
        requires posted { posted entry.now.ask.what ≤ most_solutions }
        requires few { length self.old.records < MOST_TOGETHER }
        requires small { size_of_batch self.old + 5 + record_size entry.now.ask ≤ journal_limit }
        ensures written { OnOk result (IsWritten self.old self.new entry.now) }
        ensures room { OnOk result (frames_length self.new.records + VOTES_ROOM ≤ past.new.room) }
        ensures same { OnErr result (self.new ≡ self.old) }
        ensures keeps { past.old.room ≤ past.new.room }
        ensures history { past.new.history ≡ past.old.history }
    {
        let bytes = record_of(past.allocator(), entry)?;
        past.make_room_all(self.frames.size() + 5 + bytes.len() as u64)?;
        let frame = Frame::of(past.allocator(), &bytes)?;
        self.frames.push(&frame)?;
        self.records.push_reserved(bytes);
        Ok(())
    }

    /// Puts a change behind the others, which was made in the machine and is taken back so.
    pub(crate) fn push(&mut self, entry: Entry, undo: Undo)
        requires entries { length self.old.entries < MOST_TOGETHER }
        requires undos { length self.old.undos < MOST_TOGETHER }
        ensures { self.new ≡ record self.old { entries = self.old.entries ++ entry ∷ []; undos = self.old.undos ++ undo ∷ [] } }
    {
        self.entries.push_reserved(entry);
        self.undos.push_reserved(undo);
    }

    /// Their records, as they are appended.
    pub(crate) fn frames(&self) -> &Frames
        ensures { result.now ≡ self.now.records }
    {
        &self.frames
    }

    /// Puts them behind a history, with their records, for which there is room.
    pub(crate) fn put_into(&self, past: &mut Chronicle)
        requires few { length past.old.history.entries + length self.now.entries < 2 ^ 62 }
        requires spells { AllZip (Spells Second) self.now.records self.now.entries }
        requires small { frames_length self.now.records < 2 ^ 32 }
        requires room { frames_length self.now.records + VOTES_ROOM ≤ past.old.room }
        ensures { past.new.history ≡ longer past.old.history self.now.entries }
    {
        past.push_all(&self.entries, &self.records);
    }

    /// Takes all of them back in the machine, where they were made since the first state. They are kept without their records.
    pub(crate) fn take_back(&mut self, machine: &mut Machine)
        requires { (first : State) × TakeBack machine.old.state self.old.undos first }
        ensures back { (first : State) → TakeBack machine.old.state self.old.undos first → machine.new.state ≡ first }
        ensures kept { self.new ≡ record self.old { undos = []; records = [] } }
    {
        go_back(machine, &mut self.undos);
        self.records.clear();
        self.frames.clear();
    }
}
