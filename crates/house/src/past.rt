//! The history of a house. Contracts see all of it; at run time there is where it begins, the number of its changes, and which of
//! them began a version last.
ghost use Rattle.std.specs.Prelude.{◌≡◌, ◌<◌, ◌≤◌, ◌+◌, ◌^◌, [], ◌∷◌, ◌++◌, List, length, IsTrue};
ghost use Rattle.std.specs.Borrow.{ftrue};
ghost use Rattle.command_types.specs.declared.ask.Entry.{Entry};
ghost use Rattle.command_types.specs.History.{end_of, longer};
ghost use Rattle.command_types.specs.Offers.{last_begin};
ghost use Rattle.cycle_states.specs.Offers.{ArePlaces};
ghost use Rattle.cycle_states.specs.Replayed.{base_at, history_from, IsReplayed, IsSmall};

use command_types::Entry;
use cycle_states::{Machine, Places, is_begin};
use std::marker::Model;
use std::snapshot::Snapshot;

/// A list that contracts alone read. It has no bytes, and what is asked of it does nothing.
#[derive(Drop)]
pub(crate) struct Log {
    pub(crate) ghost items: { List Entry },
}

impl Model for Log {
    ghost also_owns = { λ _. ftrue };
}

impl Log {
    /// The empty list.
    pub(crate) fn new() -> Log
        ensures { result.items ≡ [] }
    {
        Log {}
    }

    /// The list with one more.
    pub(crate) fn with(_before: &Log, _entry: &Entry) -> Log
        ensures { result.items ≡ _before.now.items ++ _entry.now ∷ [] }
    {
        Log {}
    }
}

/// A history, from any base on. Contracts see all of it; at run time there are the position of its base, the number of its
/// changes, and which of them began a version last.
#[derive(Drop)]
pub struct Past {
    // The machine at its base, for contracts alone.
    begun: Snapshot<Machine>,
    // The position of its base.
    position: u64,
    log: Log,
    count: u64,
    // The number of the last change that begins a version, from 1; 0 where there is none.
    begun_at: u64,
}

impl Model for Past {
    ghost use Rattle.std.specs.Prelude.{◌≡◌, ◌<◌, ◌≤◌, ◌^◌, length};
    ghost use Rattle.command_types.specs.History.{History};
    ghost use Rattle.command_types.specs.Offers.{last_begin};
    ghost use Rattle.cycle_states.specs.Replayed.{base_at, history_from, IsSmall};

    ghost Value = { History };

    ghost view = { λ p. history_from p.position p.begun.value.state p.log.items };

    ghost invariant = { λ p. IsSmall (base_at p.position p.begun.value.state) × (p.count ≡ length p.log.items) × (p.count < 2 ^ 62)
        × (p.begun_at ≡ last_begin p.log.items) × (p.begun_at ≤ p.count) };
}

impl Past {
    /// The history that begins at this position with the machine as it is.
    pub(crate) fn at(machine: &Machine, position: u64) -> Past
        requires { IsSmall (base_at position machine.now.state) }
        ensures { result ≡ history_from position machine.now.state [] }
    {
        Past {
            begun: Snapshot::of(machine),
            position,
            log: Log::new(),
            count: 0,
            begun_at: 0,
        }
    }

    /// How many changes it has, fewer than 2^62.
    pub fn count(&self) -> u64
        ensures count { result ≡ length self.now.entries }
        ensures few { length self.now.entries < 2 ^ 62 }
        ensures small { IsSmall self.now.base }
    {
        self.count
    }

    /// The position of its end: that of its base, and how many changes it has.
    pub fn length(&self) -> u64
        ensures length { result ≡ end_of self.now }
        ensures few { length self.now.entries < 2 ^ 62 }
        ensures small { IsSmall self.now.base }
        ensures short { result < 2 ^ 63 }
    {
        self.position + self.count
    }

    /// The positions at which it begins and ends, and that of its last change that begins a version.
    pub(crate) fn places(&self) -> Places
        ensures { ArePlaces self.now.base self.now.entries result }
    {
        Places {
            base: self.position,
            end: self.position + self.count,
            begun: self.position + self.begun_at,
        }
    }

    // The number of the last change that begins a version, where this one comes behind the others.
    #[tactic(auto, using(crate::proofs::PastFacts::begun_now, crate::proofs::PastFacts::begun_before))]
    fn begun_behind(&self, entry: &Entry) -> u64
        requires { length self.now.entries + 1 < 2 ^ 62 }
        ensures last { result ≡ last_begin (self.now.entries ++ entry.now ∷ []) }
        ensures most { result ≤ length self.now.entries + 1 }
    {
        if is_begin(&entry.ask.what) {
            return self.count + 1;
        }
        self.begun_at
    }

    /// Puts a change behind the others.
    pub(crate) fn push(&mut self, entry: &Entry)
        requires { length self.old.entries + 1 < 2 ^ 62 }
        ensures { self.new ≡ longer self.old (entry.now ∷ []) }
    {
        let begun_at = self.begun_behind(entry);
        self.log = Log::with(&self.log, entry);
        self.count += 1;
        self.begun_at = begun_at;
    }
}
