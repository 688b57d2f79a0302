//! A house, opened on what a disk holds.
ghost use Rattle.std.specs.Prelude.{◌≡◌, ◌≢◌, ◌≤◌, [], length, true, false, IsTrue, IfOk, IfErr, Err};
ghost use Rattle.command_types.specs.Sizes.{journal_limit};
ghost use Rattle.command_types.specs.Spelling as spellings;
ghost use Rattle.cycle_laws.specs.Bases.{IsWritable};
ghost use Rattle.cycle_states.specs.Replayed.{IsReplayed};
ghost use Rattle.outside.specs.Disk.{IsSettled};
ghost use Rattle.outside.specs.Faults.{Rose};
ghost use Rattle.journal_core.specs.Journal.{disk_of, form_of, size_of, is_sound, EndsAt, HasForm, IsReady};
ghost use Rattle.journal_core.specs.Moments.{LeavesOnly};
ghost use Rattle.recovery.specs.Reading.{FindsSpelling};
ghost use Rattle.journal_core.specs.declared.fault.JournalFault.TheVariants.{DiskFault};
ghost use Rattle.house.specs.Chronicle.{AreRecords};
ghost use Rattle.house.specs.Due.{IsDue};
ghost use Rattle.house.specs.Folding.{LeavesOpenedAs, MayBeFolded, OpensOn, StandsForOne, opened_with};
ghost use Rattle.house.specs.Pools.{HaveVotesRoom};
ghost use Rattle.house.specs.Opening.{LeavesOpened, StandsForNone, FindsFault, IsOpened};
ghost use Rattle.house.specs.Storing.{AreStoredIn, ContentStandsFor, StoresTurned, TurnsOnly, end_turned};

use crate::batch::Batch;
use crate::chronicle::Chronicle;
use crate::folding::Folding;
use crate::past::Past;
use crate::pools::{Pools, pools_of};
use crate::recovering::{Recovered, recover};
use crate::turning::{frames, turned};
use crate::{Executions, House};
use command_types::{Roster, Spelling};
use cycle_states::Machine;
use journal_core::{Form, Frame, Journal, JournalFault};
use outside::{Disk, Failed};
use std::alloc::{AllocError, Global};
use std::snapshot::Snapshot;

// What a house needs of it, the fold that is due, the frame of the record that turns the journal, that of an ACCEPT, and an empty batch.
#[derive(Drop)]
pub(crate) struct Reopened {
    machine: Machine,
    past: Past,
    pools: Pools,
    short: Frame,
    batch: Batch,
    form: Form,
    end: u64,
    spelling: Spelling,
    folding: Option<Folding>,
    turn: Frame,
}

// The frame of the record that turns a journal, one for ACCEPTs, and an empty batch. The only error is want of memory.
fn parts(alloc: Global) -> Result<(Frame, Frame, Batch), AllocError>
    ensures turn { IfOk result (λ p. p.0 ≡ spellings.turn) }
    ensures empty { IfOk result (λ p. p.2.entries ≡ []) }
{
    let (turn, short) = frames(alloc)?;
    let batch = Batch::new(alloc)?;
    Ok((turn, short, batch))
}

// Reads a disk's journal, and makes its changes and its fold, if one is due. It writes nothing.
fn reopen<D: Disk>(alloc: Global, roster: Roster, disk: &mut D) -> Result<Reopened, JournalFault>
    ensures stands { IfOk result (λ r. ContentStandsFor (D.history disk.old) r.past) }
    ensures replayed { IfOk result (λ r. IsReplayed r.machine.state r.past) }
    ensures records { IfOk result (λ r. AreRecords r.pools.read.changes r.past.entries) }
    ensures room { IfOk result (λ r. HaveVotesRoom r.pools) }
    ensures base { IfOk result (λ r. IsWritable roster r.past.base.state) }
    ensures few { IfOk result (λ r. length r.past.entries ≤ journal_limit) }
    ensures ends { IfOk result (λ r. EndsAt (D.history disk.old) r.form r.end) }
    ensures form { IfOk result (λ r. HasForm (D.history disk.old) r.form) }
    ensures spelling { IfOk result (λ r. FindsSpelling (D.history disk.old) r.spelling) }
    ensures due { IfOk result (λ r. IsDue r.form r.past r.folding) }
    ensures turn { IfOk result (λ r. r.turn ≡ spellings.turn) }
    ensures empty { IfOk result (λ r. r.batch.entries ≡ []) }
    ensures fault { IfErr result (FindsFault roster (D.history disk.old)) }
    ensures same { D.history disk.new ≡ D.history disk.old }
    ensures never_falls { D.fault_count disk.old ≤ D.fault_count disk.new }
    ensures failed { result ≡ Err DiskFault → Rose (D.fault_count disk.old) (D.fault_count disk.new) }
{
    let (recovered, read) = recover(alloc, roster, disk, Executions::unkept())?;
    let Recovered {
        machine,
        past,
        form,
        end,
        spelling,
        executions: _,
    } = recovered;
    let Ok(pools) = pools_of(alloc, read) else {
        return Err(JournalFault::Memory);
    };
    let Ok((turn, short, batch)) = parts(alloc) else {
        return Err(JournalFault::Memory);
    };
    let Ok(folding) = Folding::of(alloc, &machine, &past, form) else {
        return Err(JournalFault::Memory);
    };
    Ok(Reopened {
        machine,
        past,
        pools,
        short,
        batch,
        form,
        end,
        spelling,
        folding,
        turn,
    })
}

// The journal, turned, and that it was not folded.
fn unfolded<D: Disk>(
    journal: Journal<D>,
    read: &Reopened,
) -> Result<(Journal<D>, bool), (Failed, D)>
    requires turn { read.now.turn ≡ spellings.turn }
    requires ready { IsReady (D.history (disk_of journal)) (form_of journal) (size_of journal) }
    requires sound { is_sound journal ≡ true }
    ensures plain { IfOk result (λ r. r.1 ≡ false) }
    ensures any_moment { IfOk result (λ r. TurnsOnly (D.history (disk_of journal)) journal read.now.spelling (D.history (disk_of r.0))) }
    ensures stored { IfOk result (λ r. StoresTurned (D.history (disk_of journal)) journal read.now.spelling (D.history (disk_of r.0)) r.0) }
    ensures size { IfOk result (λ r. size_of r.0 ≡ end_turned read.now.spelling (size_of journal)) }
    ensures is_sound { IfOk result (λ r. is_sound r.0 ≡ true) }
    ensures never_falls { IfOk result (λ r. D.fault_count (disk_of journal) ≤ D.fault_count (disk_of r.0)) }
    ensures any_moment_failed { IfErr result (λ e. TurnsOnly (D.history (disk_of journal)) journal read.now.spelling (D.history e.1)) }
    ensures never_falls_failed { IfErr result (λ e. D.fault_count (disk_of journal) ≤ D.fault_count e.1) }
    ensures failed { IfErr result (λ e. Rose (D.fault_count (disk_of journal)) (D.fault_count e.1)) }
{
    match turned(journal, read.spelling, &read.turn) {
        Ok(journal) => Ok((journal, false)),
        Err(failed) => Err(failed),
    }
}

// Starts the journal on a settled disk, as it was read, and folds it where a fold is due and fits; else it turns it, where it is in
// the first spelling and has room for that. The answer tells whether it folded.
fn start<D: Disk>(disk: D, read: &Reopened) -> Result<(Journal<D>, bool), (Failed, D)>
    requires settled { IsSettled (D.history disk) }
    requires stands { ContentStandsFor (D.history disk) read.now.past }
    requires ends { EndsAt (D.history disk) read.now.form read.now.end }
    requires form { HasForm (D.history disk) read.now.form }
    requires spelling { FindsSpelling (D.history disk) read.now.spelling }
    requires due { IsDue read.now.form read.now.past read.now.folding }
    requires turn { read.now.turn ≡ spellings.turn }
    ensures any_moment { IfOk result (λ r. LeavesOnly (D.history disk) (D.history (disk_of r.0)) (StandsForOne (opened_with r.1 read.now.past) read.now.past)) }
    ensures stored { IfOk result (λ r. AreStoredIn (D.history (disk_of r.0)) r.0 (opened_with r.1 read.now.past)) }
    ensures opens { IfOk result (λ r. OpensOn (D.history disk) read.now.past (opened_with r.1 read.now.past) (size_of r.0)) }
    ensures may { IfOk result (λ r. IsTrue r.1 → MayBeFolded read.now.past) }
    ensures sound { IfOk result (λ r. is_sound r.0 ≡ true) }
    ensures never_falls { IfOk result (λ r. D.fault_count disk ≤ D.fault_count (disk_of r.0)) }
    ensures any_moment_failed { IfErr result (λ e. LeavesOpenedAs (D.history disk) (D.history e.1) read.now.past) }
    ensures never_falls_failed { IfErr result (λ e. D.fault_count disk ≤ D.fault_count e.1) }
    ensures failed { IfErr result (λ e. Rose (D.fault_count disk) (D.fault_count e.1)) }
{
    let mut journal = match Journal::start(disk, read.form, read.end) {
        Ok(journal) => journal,
        Err(failed) => return Err(failed),
    };
    let Some(folding) = &read.folding else {
        return unfolded(journal, read);
    };
    if !journal.fold_fits(folding.size) {
        return unfolded(journal, read);
    }
    match folding.apply(&mut journal) {
        Ok(()) => Ok((journal, true)),
        Err(failed) => Err((failed, journal.end())),
    }
}

impl<D: Disk> House<D> {
    ghost use Rattle.house.specs.House.{Keeps};

    /// A house of this roster on a settled disk, with the history for which the disk's content stands, or, exactly where that is to
    /// be folded, with its fold. A journal that is not folded and is in the first spelling is turned where it has room for that.
    /// `Damaged` comes only where the content stands for no history that is legal for the roster, with
    /// the one place that is told. There the content stays as it is, whatever fails. A crash at any moment leaves what stands
    /// for the history or, where it is folded, for its fold.
    pub fn new(alloc: Global, roster: Roster, disk: D) -> Result<House<D>, (JournalFault, D)>
        requires { IsSettled (D.history disk) }
        ensures opened { IfOk result (λ house. IsOpened roster (D.history disk) (D.fault_count disk) house) }
        ensures keeps { IfOk result (λ house. Keeps house) }
        ensures any_moment { IfOk result (λ house. LeavesOpened roster (D.history disk) house.disk) }
        ensures fault { IfErr result (λ e. FindsFault roster (D.history disk) e.0) }
        ensures same { IfErr result (λ e. e.0 ≢ DiskFault → D.history e.1 ≡ D.history disk) }
        ensures untouched { StandsForNone roster (D.history disk) → IfErr result (λ e. D.history e.1 ≡ D.history disk) }
        ensures any_moment_failed { IfErr result (λ e. LeavesOpened roster (D.history disk) (D.history e.1)) }
        ensures never_falls { IfErr result (λ e. D.fault_count disk ≤ D.fault_count e.1) }
        ensures failed { IfErr result (λ e. e.0 ≡ DiskFault → Rose (D.fault_count disk) (D.fault_count e.1)) }
    {
        let mut disk = disk;
        let taken = Snapshot::of(&disk);
        let read = match reopen(alloc, roster, &mut disk) {
            Ok(read) => read,
            Err(fault) => return Err((fault, disk)),
        };
        match start(disk, &read) {
            Ok((journal, folded)) => {
                let first = Snapshot::of(&read.past);
                let (past, pools) = (read.past, read.pools);
                let past = Chronicle::opened(alloc, &read.machine, past, pools, folded);
                Ok(House {
                    opening: past.count(),
                    machine: read.machine,
                    past,
                    first,
                    opened: Snapshot::of(&journal),
                    journal,
                    short: read.short,
                    batch: read.batch,
                    taken,
                })
            }
            Err((_, disk)) => Err((JournalFault::DiskFault, disk)),
        }
    }
}
