//! The history of a house, and the records of its changes.
ghost use Rattle.std.specs.Prelude.{◌≡◌, ◌⊎◌, ◌<◌, ◌≤◌, ◌+◌, ◌-◌, ◌^◌, [], ◌∷◌, length, drop, map, IsTrue, OnOk, OnErr};
ghost use Rattle.command_types.specs.declared.answer.Answer.TheVariants.{No};
ghost use Rattle.command_types.specs.declared.refusal.Refusal.TheVariants.{Memory};
ghost use Rattle.command_types.specs.declared.spelling.Spelling.TheVariants.{Second};
ghost use Rattle.command_types.specs.History.{end_of, longer};
ghost use Rattle.command_types.specs.Offers.{first_behind};
ghost use Rattle.command_types.specs.Spelling.{Spells};
ghost use Rattle.std.specs.List.{AllZip};
ghost use Rattle.journal_core.specs.Frame.{frames_length};
ghost use Rattle.cycle_states.specs.Offers.{ArePlaces};
ghost use Rattle.cycle_states.specs.Replayed.{IsReplayed, IsSmall};
ghost use Rattle.house.specs.Chronicle.{AreRecords, HasVoteRoom};
ghost use Rattle.house.specs.Pools.{HaveVotesRoom};
ghost use Rattle.house.specs.declared.chronicle.TheConstants.{VOTES_ROOM};
ghost use Rattle.house.specs.Folding.{MayBeFolded, opened_with};

use crate::past::Past;
use crate::pools::Pools;
use command_types::{Answer, Entry, Listed, Refusal};
use cycle_states::{Machine, Places};
use record_pool::Pool;
use std::alloc::{AllocError, Global};
use std::marker::Model;

/// The bytes of a vote's record in memory: 46 at most, and the five of its frame.
pub(crate) const VOTE_ROOM: u64 = 51;

/// Those of the votes of 256 members.
pub(crate) const VOTES_ROOM: u64 = 13_056;

/// A history from any base on, and each change's record. Contracts see the history, and for how many more bytes of records, each
/// with five more than it has, there is room: while a plan is proposed, for the votes that are missing.
#[derive(Drop)]
pub(crate) struct Chronicle {
    alloc: Global,
    past: Past,
    pool: Pool,
}

impl Model for Chronicle {
    ghost use Rattle.house.specs.Chronicle.{ChronicleView, AreRecords, HasVoteRoom};

    ghost Value = { ChronicleView };

    ghost view = { λ c. record { history = c.past; room = c.pool.room } };

    ghost invariant = { λ c. AreRecords c.pool.changes c.past.entries × HasVoteRoom c.past c.pool.room };
}

impl Chronicle {
    /// A history with the records of its changes, or, where it is folded, the one without a change that begins where the machine
    /// stands at its end. It takes no memory.
    pub(crate) fn opened(
        alloc: Global,
        machine: &Machine,
        past: Past,
        pools: Pools,
        folded: bool,
    ) -> Chronicle
        requires records { AreRecords pools.read.changes past.entries }
        requires pools { HaveVotesRoom pools }
        requires replayed { IsReplayed machine.now.state past }
        requires small { IsTrue folded → MayBeFolded past }
        ensures { result.history ≡ opened_with folded past }
    {
        if folded {
            return Chronicle {
                alloc,
                past: Past::at(machine, past.length()),
                pool: pools.empty,
            };
        }
        Chronicle {
            alloc,
            past,
            pool: pools.read,
        }
    }

    /// How many changes it has, fewer than 2^62.
    pub(crate) fn count(&self) -> u64
        ensures count { result ≡ length self.now.history.entries }
        ensures few { length self.now.history.entries < 2 ^ 62 }
    {
        self.past.count()
    }

    /// The position of its end.
    pub(crate) fn length(&self) -> u64
        ensures length { result ≡ end_of self.now.history }
        ensures few { length self.now.history.entries < 2 ^ 62 }
        ensures small { IsSmall self.now.history.base }
        ensures short { result < 2 ^ 63 }
    {
        self.past.length()
    }

    /// The positions at which it begins and ends, and that of its last change that begins a version.
    pub(crate) fn places(&self) -> Places
        ensures { ArePlaces self.now.history.base self.now.history.entries result }
    {
        self.past.places()
    }

    /// Where its memory comes from.
    pub(crate) fn allocator(&self) -> Global {
        self.alloc
    }

    /// That there is room for the votes that are missing. It does nothing.
    pub(crate) fn has_vote_room(&self)
        ensures { HasVoteRoom self.now.history self.now.room }
    {
        let _pool = &self.pool;
    }

    /// Makes room for a record of so many bytes, and for the votes of all members behind it. The only error is want of memory,
    /// which changes nothing.
    pub(crate) fn make_room(&mut self, bytes: usize) -> Result<(), AllocError>
        requires { bytes < 2 ^ 32 }
        ensures history { self.new.history ≡ self.old.history }
        ensures room { OnOk result (5 + bytes + VOTES_ROOM ≤ self.new.room) }
        ensures err { OnErr result (self.new ≡ self.old) }
    {
        self.pool
            .make_room(self.alloc, bytes as u64 + 5 + VOTES_ROOM)?;
        Ok(())
    }

    /// Makes room for records of so many bytes, with five more for each, and for the votes of all members behind them. The only error
    /// is want of memory, which changes nothing.
    pub(crate) fn make_room_all(&mut self, more: u64) -> Result<(), AllocError>
        requires { more < 2 ^ 32 }
        ensures history { self.new.history ≡ self.old.history }
        ensures keeps { self.old.room ≤ self.new.room }
        ensures room { OnOk result (more + VOTES_ROOM ≤ self.new.room) }
        ensures err { OnErr result (self.new ≡ self.old) }
    {
        self.pool.make_room(self.alloc, more + VOTES_ROOM)?;
        Ok(())
    }

    /// Puts a change behind the others, with its record, for which there is room, and for the votes that are missing then. It takes
    /// no memory.
    pub(crate) fn push(&mut self, entry: &Entry, record_bytes: &[u8])
        requires few { length self.old.history.entries + 1 < 2 ^ 62 }
        requires spells { Spells Second record_bytes.now entry.now }
        requires small { length record_bytes.now < 2 ^ 32 }
        requires room { 5 + length record_bytes.now ≤ self.old.room }
        requires votes { HasVoteRoom (longer self.old.history (entry.now ∷ [])) (self.old.room - (5 + length record_bytes.now)) }
        ensures history { self.new.history ≡ longer self.old.history (entry.now ∷ []) }
        ensures left { self.new.room + (5 + length record_bytes.now) ≡ self.old.room }
    {
        self.past.push(entry);
        self.pool.push(record_bytes);
    }

    /// Puts changes behind the others, with their records, for which there is room, and for the votes of all members. It takes no
    /// memory.
    pub(crate) fn push_all(&mut self, entries: &[Entry], records: &[Vec<u8>])
        requires few { length self.old.history.entries + length entries.now < 2 ^ 62 }
        requires spells { AllZip (Spells Second) (map (λ r. r.items) records.now) entries.now }
        requires small { frames_length (map (λ r. r.items) records.now) < 2 ^ 32 }
        requires room { frames_length (map (λ r. r.items) records.now) + VOTES_ROOM ≤ self.old.room }
        ensures { self.new.history ≡ longer self.old.history entries.now }
    {
        for (place, entry) in entries.iter().enumerate() {
            self.push(entry, &records[place]);
        }
    }

    /// The entry behind a position where there is one, or that there is no memory for it.
    pub(crate) fn entry_behind(&self, position: u64) -> Answer
        requires from { self.now.history.base.position ≤ position }
        requires within { position < end_of self.now.history }
        ensures { (result ≡ No Memory) ⊎ (result ≡ first_behind position (drop (position - self.now.history.base.position) self.now.history.entries)) }
    {
        let places = self.places();
        match self.pool.get(self.alloc, position - places.base) {
            Ok(bytes) => Answer::EntryBytes {
                position: position + 1,
                bytes: Listed::new(bytes),
            },
            Err(_) => Answer::No(Refusal::Memory),
        }
    }
}
