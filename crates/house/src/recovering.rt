//! The history that a disk holds, made again.
ghost use Rattle.std.specs.Prelude.{◌≡◌, ◌≤◌, List, ◌∷◌, [], ◌++◌, length, option_map, IfOk, IfErr, IfSome, OnOk, Err};
ghost use Rattle.command_types.specs.Bases.{CanBeWritten};
ghost use Rattle.command_types.specs.Machine.{state_after, answer_to};
ghost use Rattle.command_types.specs.History.{IsAcceptedIn};
ghost use Rattle.command_types.specs.Sizes.{journal_limit};
ghost use Rattle.cycle_laws.specs.Bases.{IsWritable};
ghost use Rattle.cycle_states.specs.Replayed.{base_at, IsReplayed, IsSmall};
ghost use Rattle.cycle_states.specs.Machine.{IsYoung};
ghost use Rattle.outside.specs.Faults.{Rose};
ghost use Rattle.journal_core.specs.Journal.{EndsAt, HasForm};
ghost use Rattle.recovery.specs.declared.entries.EntryAt.{EntryAt};
ghost use Rattle.recovery.specs.Reading.{file_of, entries_in, start_of, FitsIn, FindsSpelling, IsRead, HasRead};
ghost use Rattle.journal_core.specs.declared.fault.JournalFault.TheVariants.{DiskFault};
ghost use Rattle.house.specs.Opening.{IsBeginFault, IsReplayFault, FindsFault};
ghost use Rattle.house.specs.Storing.{ContentStandsFor};
ghost use Rattle.house.specs.Executions.{executions_told, told_of};

use crate::Executions;
use crate::past::Past;
use command_types::{Answer, Entry, Roster, Spelling};
use cycle_states::{BaseFault, Decision, Machine};
use journal_core::{Form, JournalFault};
use outside::Disk;
use recovery::{BaseAt, Entries, EntryAt, read_entries};
use std::alloc::Global;

// Has the machine make the change, if it accepts it, and gives the change and its answer.
fn accept(machine: &mut Machine, item: EntryAt) -> Result<(Entry, Answer), JournalFault>
    requires { IsYoung machine.old.state.cycle }
    ensures entry { IfOk result (λ made. made.0 ≡ item.entry) }
    ensures answer { IfOk result (λ made. made.1 ≡ answer_to machine.old.state item.entry.ask) }
    ensures accepted { OnOk result (IsAcceptedIn machine.old.state item.entry) }
    ensures state { OnOk result (machine.new.state ≡ state_after machine.old.state item.entry.ask) }
    ensures fault { IfErr result (IsReplayFault machine.old.state (item ∷ [])) }
{
    let offset = item.at;
    let decision = machine.decide(item.entry)?;
    match decision {
        Decision::Told(_) => Err(JournalFault::Damaged { offset }),
        Decision::Ready(ready) => Ok(machine.commit(ready)),
    }
}

// The machine in the state in which a history of this roster begins, with this base or without one, and the position there.
fn begin(
    alloc: Global,
    roster: Roster,
    base: Option<BaseAt>,
) -> Result<(Machine, u64), JournalFault>
    requires { IfSome base (λ x. CanBeWritten x.base) }
    ensures start { IfOk result (λ r. base_at r.1 r.0.state ≡ start_of roster base) }
    ensures fits { OnOk result (FitsIn roster base) }
    ensures small { IfOk result (λ r. IsSmall (base_at r.1 r.0.state)) }
    ensures writable { IfOk result (λ r. IsWritable roster r.0.state) }
    ensures fault { IfErr result (IsBeginFault roster base) }
{
    // A roster's members say that it keeps its limits.
    let _members = roster.members();
    let Some(found) = base else {
        let machine = Machine::new(alloc, roster)?;
        return Ok((machine, 0));
    };
    let BaseAt { at, base } = found;
    let position = base.position;
    match Machine::of_base(alloc, roster, base) {
        Ok(machine) => Ok((machine, position)),
        Err(BaseFault::Misfit) => Err(JournalFault::Damaged { offset: at }),
        Err(BaseFault::Memory) => Err(JournalFault::Memory),
    }
}

// Has a machine make the changes that were read, one after another, if it accepts each at its place. They are those of a
// history that begins at this position with the machine as it is. The replies that tell an execution are noted behind those
// that were.
fn replay(
    alloc: Global,
    machine: &mut Machine,
    position: u64,
    read: &Entries,
    executions: &mut Executions,
) -> Result<Past, JournalFault>
    requires small { IsSmall (base_at position machine.old.state) }
    requires read { HasRead read.now }
    ensures base { IfOk result (λ past. past.base ≡ base_at position machine.old.state) }
    ensures entries { (list : List EntryAt) → IsRead (file_of read.now) list → IfOk result (λ past. past.entries ≡ entries_in list) }
    ensures replayed { IfOk result (λ past. IsReplayed machine.new.state past) }
    ensures told { IfOk result (λ past. told_of executions.new ≡ option_map (λ replies. replies ++ executions_told machine.old.state position past.entries) (told_of executions.old)) }
    ensures fault { (list : List EntryAt) → IsRead (file_of read.now) list → IfErr result (IsReplayFault machine.old.state list) }
{
    let mut past = Past::at(machine, position);
    let mut reader = read.reader();
    while let Some(item) = reader.next(alloc)? {
        let (entry, answer) = accept(machine, item)?;
        let change = &entry;
        past.push(change);
        executions.note(past.length(), answer, change.ask.moment)?;
    }
    Ok(past)
}

/// What is read of a disk: the machine after its changes, their history, the form of its file, the place where its journal goes
/// on and the spelling in which it does, and the executions, where they were to be kept.
#[derive(Drop)]
pub struct Recovered {
    pub machine: Machine,
    pub past: Past,
    pub form: Form,
    pub end: u64,
    pub spelling: Spelling,
    pub executions: Executions,
}

/// [`recover_noting`], with the entries, to be read once more.
pub(crate) fn recover<D: Disk>(
    alloc: Global,
    roster: Roster,
    disk: &mut D,
    mut executions: Executions,
) -> Result<(Recovered, Entries), JournalFault>
    ensures stands { IfOk result (λ r. ContentStandsFor (D.history disk.old) r.0.past) }
    ensures replayed { IfOk result (λ r. IsReplayed r.0.machine.state r.0.past) }
    ensures base { IfOk result (λ r. IsWritable roster r.0.past.base.state) }
    ensures few { IfOk result (λ r. length r.0.past.entries ≤ journal_limit) }
    ensures ends { IfOk result (λ r. EndsAt (D.history disk.old) r.0.form r.0.end) }
    ensures form { IfOk result (λ r. HasForm (D.history disk.old) r.0.form) }
    ensures spelling { IfOk result (λ r. FindsSpelling (D.history disk.old) r.0.spelling) }
    ensures told { IfOk result (λ r. told_of r.0.executions ≡ option_map (λ replies. replies ++ executions_told r.0.past.base.state r.0.past.base.position r.0.past.entries) (told_of executions)) }
    ensures read { IfOk result (λ r. HasRead r.1) }
    ensures entries { IfOk result (λ r. (list : List EntryAt) → IsRead (file_of r.1) list → r.0.past.entries ≡ entries_in list) }
    ensures fault { IfErr result (FindsFault roster (D.history disk.old)) }
    ensures same { D.history disk.new ≡ D.history disk.old }
    ensures never_falls { D.fault_count disk.old ≤ D.fault_count disk.new }
    ensures failed { result ≡ Err DiskFault → Rose (D.fault_count disk.old) (D.fault_count disk.new) }
{
    let contents = read_entries(alloc, disk)?;
    let (mut machine, position) = begin(alloc, roster, contents.base)?;
    let entries = contents.entries;
    let past = match replay(alloc, &mut machine, position, &entries, &mut executions) {
        Ok(past) => past,
        Err(fault) => return Err(fault),
    };
    let recovered = Recovered {
        machine,
        past,
        form: entries.form(),
        end: entries.end(),
        spelling: entries.spelling(),
        executions,
    };
    Ok((recovered, entries))
}

/// Reads a disk's journal, and makes its changes, over this roster. It writes nothing. `Damaged` comes only where the disk's
/// content stands for no history that is legal for the roster, with the one place that is told. The replies that tell an
/// execution are noted behind those that were, where they are kept at all: those to the changes behind the journal's base.
pub fn recover_noting<D: Disk>(
    alloc: Global,
    roster: Roster,
    disk: &mut D,
    executions: Executions,
) -> Result<Recovered, JournalFault>
    ensures stands { IfOk result (λ r. ContentStandsFor (D.history disk.old) r.past) }
    ensures replayed { IfOk result (λ r. IsReplayed r.machine.state r.past) }
    ensures base { IfOk result (λ r. IsWritable roster r.past.base.state) }
    ensures few { IfOk result (λ r. length r.past.entries ≤ journal_limit) }
    ensures ends { IfOk result (λ r. EndsAt (D.history disk.old) r.form r.end) }
    ensures form { IfOk result (λ r. HasForm (D.history disk.old) r.form) }
    ensures spelling { IfOk result (λ r. FindsSpelling (D.history disk.old) r.spelling) }
    ensures told { IfOk result (λ r. told_of r.executions ≡ option_map (λ replies. replies ++ executions_told r.past.base.state r.past.base.position r.past.entries) (told_of executions)) }
    ensures fault { IfErr result (FindsFault roster (D.history disk.old)) }
    ensures same { D.history disk.new ≡ D.history disk.old }
    ensures never_falls { D.fault_count disk.old ≤ D.fault_count disk.new }
    ensures failed { result ≡ Err DiskFault → Rose (D.fault_count disk.old) (D.fault_count disk.new) }
{
    let (recovered, _entries) = recover(alloc, roster, disk, executions)?;
    Ok(recovered)
}
