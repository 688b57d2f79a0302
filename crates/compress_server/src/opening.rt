//! A journal: a house on it, or what it holds.

ghost use Rattle.std.specs.Prelude.{◌≡◌, ◌++◌, Some, IfOk, IfErr, OnOk, option_map};
ghost use Rattle.outside.specs.Disk.{IsSettled};
ghost use Rattle.command_types.specs.Roster.{IsRoster};
ghost use Rattle.cycle_laws.specs.Bases.{IsWritable};
ghost use Rattle.cycle_states.specs.Replayed.{IsReplayed};
ghost use Rattle.house.specs.Executions.{told_of, executions_told};
ghost use Rattle.house.specs.House.{Keeps};
ghost use Rattle.house.specs.Opening.{IsOpened};
ghost use Rattle.house.specs.Storing.{ContentStandsFor};
ghost use Rattle.compress_server.specs.Housed.{disk_by, OpeningFails};
ghost use Rattle.compress_server.specs.Replay.{IsUnread};

use command_types::Roster;
use house::{Executions, House, Recovered, recover_noting};
use journal_core::JournalFault;
use outside::Disk;
use std::alloc::Global;

/// Opens a house of this roster on the journal of this name. Where none can be had, the disk comes back.
pub fn open_house<D: Disk + Send>(
    alloc: Global,
    roster: &Roster,
    journal: &str,
    disk: D,
) -> Result<House<D>, (JournalFault, D)>
    requires settled { IsSettled (D.history disk) }
    requires roster { IsRoster roster.now }
    ensures opened { IfOk result (λ house. IsOpened roster.now (D.history disk) (D.fault_count disk) house) }
    ensures keeps { IfOk result (λ house. Keeps house) }
    ensures fails { let seen = disk_by D.Disk in
        IfErr result (λ e. OpeningFails roster.now (seen disk) (seen e.1) e.0) }
{
    let mut disk = disk;
    if disk.attach(journal).is_err() {
        return Err((JournalFault::DiskFault, disk));
    }
    let Ok(copy) = roster.copy() else {
        return Err((JournalFault::Memory, disk));
    };
    House::new(alloc, copy, disk)
}

/// Reads the journal of this name, over this roster, whose executions are noted behind these. Nothing is written to the disk.
pub fn read_journal<D: Disk>(
    alloc: Global,
    roster: Roster,
    journal: &str,
    disk: &mut D,
    executions: Executions,
) -> Result<Recovered, JournalFault>
    ensures stands { IfOk result (λ r. ContentStandsFor (D.history disk.old) r.past) }
    ensures replayed { IfOk result (λ r. IsReplayed r.machine.state r.past) }
    ensures base { IfOk result (λ r. IsWritable roster r.past.base.state) }
    ensures told { IfOk result (λ r. told_of r.executions ≡ option_map (λ replies. replies ++ executions_told r.past.base.state r.past.base.position r.past.entries) (told_of executions)) }
    ensures unread { let seen = disk_by D.Disk in
        IfErr result (IsUnread roster (seen disk.old) (seen disk.new)) }
    ensures same { D.history disk.new ≡ D.history disk.old }
{
    disk.attach(journal)?;
    recover_noting(alloc, roster, disk, executions)
}
