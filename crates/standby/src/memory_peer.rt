//! A peer in memory, which has some entries to give.
ghost use Rattle.std.specs.Prelude.{◌≡◌, ◌++◌, [], false, map};
ghost use Rattle.standby.specs.Log.{sent_of, offer_of, came_of};
ghost use Rattle.standby.specs.Sent.{offer_in, IsOfChange};

use crate::log::{Offered, Outcome, Shown, note_heard, note_said};
use crate::peer::{Heard, Peer, Said, SayFault};
use command_types::{Answer, Entry};
use cycle_states::is_recorded;
use house::House;
use outside::{Disk, Failed};
use std::alloc::Global;
use std::collections::VecDeque;

/// A peer that gives its entries, one for each NEXT, whatever position that has, and then nothing.
#[derive(Drop)]
pub struct MemoryPeer<D: Disk> {
    entries: VecDeque<Entry>,
    said: Vec<Shown<D>>,
    heard: Vec<Offered>,
    last: Option<Outcome>,
}

impl<D: Disk> MemoryPeer<D> {
    /// A peer with these entries, to which nothing was said. It takes no memory.
    pub fn new(alloc: Global, entries: VecDeque<Entry>) -> MemoryPeer<D>
        ensures said { map sent_of result.said.items ≡ [] }
        ensures heard { map offer_of result.heard.items ≡ [] }
    {
        MemoryPeer {
            entries,
            said: Vec::new(alloc),
            heard: Vec::new(alloc),
            last: None,
        }
    }

    // Gives the next entry, if there is one.
    fn give(&mut self, position: u64) -> Heard
        ensures change { IsOfChange result }
        ensures said { self.new.said ≡ self.old.said }
        ensures heard { map offer_of self.new.heard.items ≡ map offer_of self.old.heard.items ++ offer_in result }
    {
        let Some(entry) = self.entries.pop_front() else {
            return Heard::Nothing;
        };
        if !is_recorded(&entry.ask.what, &Answer::Bye) {
            return Heard::Broken { at: 0 };
        }
        let next = position.saturating_add(1);
        match note_heard(&mut self.heard, next, &entry) {
            Ok(()) => Heard::Entry {
                due: 0,
                position: next,
                entry,
            },
            Err(_) => Heard::Memory,
        }
    }
}

impl<D: Disk, S, K> Peer<D, S, K> for MemoryPeer<D> {
    ghost said = { λ p. map sent_of p.said.items };

    ghost heard = { λ p. map offer_of p.heard.items };

    ghost last = { λ p. came_of p.last };

    ghost cut = { λ p. false };

    ghost Start = { Unit {0} };

    ghost start = { λ p. tt };

    ghost Holds = { λ p source sink. Unit {0} };

    fn say(&mut self, _sink: &mut K, house: &House<D>, line: Said) -> Result<(), SayFault> {
        match note_said(&mut self.said, house, line) {
            Ok(()) => Ok(()),
            Err(_) => Err(SayFault::Memory),
        }
    }

    fn hear(&mut self, _source: &mut S, position: u64) -> Result<Heard, Failed> {
        let heard = Ok(self.give(position));
        self.last = Some(Outcome::of(position, &heard));
        heard
    }
}
