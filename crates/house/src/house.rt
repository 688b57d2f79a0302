//! A desk over a disk.
ghost use Rattle.std.specs.Prelude.{◌≡◌, ◌<◌, ◌^◌};

use crate::batch::Batch;
use crate::chronicle::Chronicle;
use crate::past::Past;
use command_types::{Ask, Desk, Entry, Reply};
use cycle_states::Machine;
use journal_core::{Frame, Journal};
use outside::Disk;
use std::marker::Model;
use std::snapshot::Snapshot;

/// A machine, the history of its accepted changes with their records, and the journal that keeps them. Each change is on the disk before it is
/// answered. After a fault of the disk it makes no change any more, and is to be opened again.
#[derive(Drop)]
pub struct House<D: Disk> {
    pub(crate) machine: Machine,
    pub(crate) past: Chronicle,
    pub(crate) journal: Journal<D>,
    // The frame of an ACCEPT, which takes no memory.
    pub(crate) short: Frame,
    // Of a call of several, or, where the disk failed, the changes on which it did; else without a change.
    pub(crate) batch: Batch,
    // How many entries there were at the opening.
    pub(crate) opening: u64,
    // The history for which the disk's content stood, the disk as it was handed in, and the journal at the opening, for contracts alone.
    pub(crate) first: Snapshot<Past>,
    pub(crate) taken: Snapshot<D>,
    pub(crate) opened: Snapshot<Journal<D>>,
}

impl<D: Disk> Model for House<D> {
    ghost use Rattle.journal_core.specs.Journal.{disk_of, size_of};
    ghost use Rattle.house.specs.House.{HouseView, house_of, journal_of, now_of, IsHouse};

    ghost Value = { HouseView };

    ghost view = { λ h. house_of h.past.history h.opening (journal_of (size_of h.opened.value) (D.fault_count (disk_of h.opened.value))
        (D.history h.taken.value) (D.history (disk_of h.opened.value)) h.first.value) h.batch.entries (D.history (disk_of h.journal)) (D.fault_count (disk_of h.journal)) };

    ghost invariant = { λ h. IsHouse h.machine.state (now_of h.journal)
        (house_of h.past.history h.opening (journal_of (size_of h.opened.value) (D.fault_count (disk_of h.opened.value))
        (D.history h.taken.value) (D.history (disk_of h.opened.value)) h.first.value) h.batch.entries (D.history (disk_of h.journal)) (D.fault_count (disk_of h.journal))) };
}

impl<D: Disk> House<D> {
    ghost use Rattle.command_types.specs.History.{end_of};
    ghost use Rattle.command_types.specs.Roster.{IsRoster};
    ghost use Rattle.house.specs.House.{is_stopped, Keeps};

    /// Whether a disk fault stopped it. It takes no memory.
    pub fn is_stopped(&self) -> bool
        ensures stopped { result ≡ is_stopped self.now }
        ensures keeps { Keeps self.now }
    {
        self.batch.any()
    }

    /// The length of the history. It takes no memory.
    pub fn length(&self) -> u64
        ensures length { result ≡ end_of self.now.history }
        ensures short { end_of self.now.history < 2 ^ 63 }
        ensures roster { IsRoster self.now.history.base.state.roster }
        ensures keeps { Keeps self.now }
    {
        // A roster's members say that it keeps its limits.
        let _members = self.machine.roster().members();
        self.past.length()
    }

    /// The disk, given back. It takes no memory.
    pub fn end(self) -> D
        ensures disk { D.history result ≡ self.disk }
        ensures faults { D.fault_count result ≡ self.faults }
        ensures keeps { Keeps self }
    {
        let House {
            machine: _,
            past: _,
            journal,
            short: _,
            batch: _,
            opening: _,
            first: _,
            taken: _,
            opened: _,
        } = self;
        journal.end()
    }
}

// Here alone a disk must move to another thread: no method of a trait is proved that calls a function whose bounds bring `Send` along.
impl<D: Disk + Send> Desk for House<D> {
    ghost use Rattle.house.specs.House.{figures_of, is_stopped};

    ghost history = { λ house. house.history };

    ghost figures = { figures_of };

    ghost stopped = { is_stopped };

    fn ask(&mut self, seat: u32, ask: Ask) -> Reply {
        self.call(seat, ask)
    }

    fn ask_all(&mut self, commands: &mut [Entry], replies: &mut Vec<Reply>) {
        self.call_front(commands, replies);
        if !replies.is_empty() {
            return;
        }
        let Entry { seat, ask } = commands[0].take();
        let reply = self.call(seat, ask);
        replies.push_reserved(reply);
    }

    fn length(&self) -> u64 {
        House::length(self)
    }
}
