//! The form `roll`: the journal with which the market of another goes on over a new roster.
//!
//!     rosters -> journal -> its changes, made again by a machine -> its base -> that over the new roster -> a journal
//!
//! With `--cancel` the machine first cancels the open cycle.
//! Nothing is written to the disk.

ghost use Rattle.std.specs.Prelude.{◌≡◌, ◌↔◌, IfOk, IfErr, IfSome, IsTrue, OnOk, Ok};
ghost use Rattle.command_types.specs.Bases.{Fits};
ghost use Rattle.command_types.specs.History.{end_of};
ghost use Rattle.command_types.specs.Roster.{IsRoster};
ghost use Rattle.cycle_laws.specs.Bases.{IsWritable};
ghost use Rattle.cycle_states.specs.BaseOf.{base_of};
ghost use Rattle.cycle_states.specs.Replayed.{IsReplayed};
ghost use Rattle.period_roll.specs.Rolls.{rolled};
ghost use Rattle.compress_server.specs.Cancelled.{rolled_past};
ghost use Rattle.compress_server.specs.Files.{files_by};
ghost use Rattle.compress_server.specs.Housed.{disk_by};
ghost use Rattle.compress_server.specs.Roll.{IsRolled, IsUnmade, IsUnmadeAt, roll_end, RollRuns};
ghost use Rattle.compress_server.specs.Seen.{output_by};

use crate::cancelling::cancel_open;
use crate::ending::{End, Obstacle};
use crate::load::{FileRole, LoadFault, load_roster, load_roster_as};
use crate::opening::read_journal;
use base_fitting::fits;
use command_types::{Base, Roster};
use cycle_states::Machine;
use fresh_journal::fresh_journal;
use house::{Executions, Recovered};
use journal_core::JournalFault;
use outside::{Disk, Files, Sink, write_all};
use period_roll::{RollFault, roll};
use program_words::RollWords;
use std::alloc::{AllocError, Global};
use units_core::Day;

// What a market goes on over: a new roster, without the products that mature by a day if one is given; and whether its open cycle
// is cancelled first.
#[derive(Clone, Copy)]
struct Period<'a> {
    roster: &'a Roster,
    matured: Option<Day>,
    cancel: bool,
}

// Whether the base fits the roster, if there is one.
fn is_fitting(base: &Option<Base>, roster: &Roster) -> bool
    ensures { IsTrue result ↔ IfSome base.now (Fits roster.now) }
{
    match base {
        None => true,
        Some(base) => fits(base, roster),
    }
}

// Why there is no journal for the new roster.
#[derive(Clone, Copy)]
enum Unmade {
    Refused(Obstacle),
    Memory,
}

// Brings what was read to the point at which it is rolled, and answers the position there. That is its end, or, if `cancel` says so,
// the CANCEL of the open cycle after it.
fn bring_to_rest(read: &mut Recovered, cancel: bool) -> Result<u64, AllocError>
    requires { IsReplayed read.old.machine.state read.old.past }
    ensures position { IfOk result (λ at. at ≡ end_of (rolled_past cancel read.old.past)) }
    ensures replayed { OnOk result (IsReplayed read.new.machine.state (rolled_past cancel read.old.past)) }
{
    let length = read.past.length();
    if !cancel {
        return Ok(length);
    }
    let more = cancel_open(&mut read.machine)?;
    Ok(length + more)
}

// The base over the new roster, of a machine at this position.
#[tactic(auto, using(crate::proofs::RollFacts::rolled_there, crate::proofs::RollFacts::fits_there, crate::proofs::RollFacts::misfit_there))]
fn rolled_base(
    alloc: Global,
    machine: &Machine,
    position: u64,
    period: &Period<'_>,
) -> Result<Base, Unmade>
    ensures rolled { IfOk result (λ made. rolled machine.now.state.roster period.now.roster.now period.now.matured (base_of position machine.now.state) ≡ Ok made) }
    ensures fits { OnOk result (IfSome (base_of position machine.now.state) (Fits machine.now.state.roster)) }
    ensures other { IfErr result (IsUnmadeAt machine.now.state.roster period.now.roster.now period.now.matured (base_of position machine.now.state)) }
{
    let Ok(base) = machine.base(alloc, position) else {
        return Err(Unmade::Memory);
    };
    let old = machine.roster();
    if !is_fitting(&base, old) {
        return Err(Unmade::Refused(Obstacle::Misfit));
    }
    match roll(alloc, old, period.roster, period.matured, base) {
        Ok(made) => Ok(made),
        Err(RollFault::Refused(cause)) => Err(Unmade::Refused(Obstacle::Market(cause))),
        Err(RollFault::Memory) => Err(Unmade::Memory),
    }
}

// The journal's bytes.
fn text_of(alloc: Global, read: &mut Recovered, period: &Period<'_>) -> Result<Vec<u8>, Unmade>
    requires replayed { IsReplayed read.old.machine.state read.old.past }
    requires base { IsWritable read.old.machine.state.roster read.old.past.base.state }
    requires old { IsRoster read.old.machine.state.roster }
    requires new { IsRoster period.now.roster.now }
    ensures text { IfOk result (λ text. IsRolled read.old.machine.state.roster period.now.roster.now period.now.matured (rolled_past period.now.cancel read.old.past) text.items) }
    ensures other { IfErr result (IsUnmade read.old.machine.state.roster period.now.roster.now period.now.matured (rolled_past period.now.cancel read.old.past)) }
{
    let Ok(position) = bring_to_rest(read, period.cancel) else {
        return Err(Unmade::Memory);
    };
    let made = rolled_base(alloc, &read.machine, position, period)?;
    match fresh_journal(alloc, &made) {
        Ok(Some(text)) => Ok(text),
        Ok(None) => Err(Unmade::Refused(Obstacle::TooLong)),
        Err(_) => Err(Unmade::Memory),
    }
}

/// How a roll ended.
#[derive(Clone, Copy)]
pub enum RollEnd {
    /// The new journal was written.
    Done,
    /// A roster could not be had.
    Unloaded(LoadFault),
    /// Nothing was read of the journal.
    Unread(JournalFault),
    /// The market can't go on over the new roster.
    Unrolled(Obstacle),
    /// The output failed.
    SinkFault,
    /// The memory that was needed was not to be had.
    Memory,
}

impl From<RollEnd> for End {
    ghost from_gives = { λ own end. end ≡ roll_end own };

    fn from(own: RollEnd) -> End {
        match own {
            RollEnd::Done => End::Done,
            RollEnd::Unloaded(fault) => End::from(fault),
            RollEnd::Unread(fault) => End::from(fault),
            RollEnd::Unrolled(obstacle) => End::Unrolled(obstacle),
            RollEnd::SinkFault => End::SinkFault,
            RollEnd::Memory => End::Memory,
        }
    }
}

/// Reads the rosters of the two files with these names, the old one first, and writes the journal with which the market of the
/// one of this name goes on over the new roster, with its open cycle cancelled if the words say so. No file changes.
pub fn run_roll<F: Files, K: Sink, D: Disk>(
    alloc: Global,
    files: &mut F,
    words: &RollWords<'_>,
    output: &mut K,
    disk: &mut D,
) -> RollEnd
    ensures runs { let seen = disk_by D.Disk in
        RollRuns words.now.roster.now words.now.new_roster.now words.now.matured words.now.cancel (files_by F.Files files.old) (files_by F.Files files.new)
        (output_by K.Sink output.old) (output_by K.Sink output.new) (seen disk.old) (seen disk.new) result }
    ensures stays { F.folder files.new ≡ F.folder files.old }
{
    let old = match load_roster(alloc, files, words.roster) {
        Ok(old) => old,
        Err(fault) => return RollEnd::Unloaded(fault),
    };
    let new = match load_roster_as(alloc, files, FileRole::NewRoster, words.new_roster) {
        Ok(new) => new,
        Err(fault) => return RollEnd::Unloaded(fault),
    };
    let mut read = match read_journal(alloc, old, words.journal, disk, Executions::unkept()) {
        Ok(read) => read,
        Err(fault) => return RollEnd::Unread(fault),
    };
    let period = Period {
        roster: &new,
        matured: words.matured,
        cancel: words.cancel,
    };
    let text = match text_of(alloc, &mut read, &period) {
        Ok(text) => text,
        Err(Unmade::Refused(obstacle)) => return RollEnd::Unrolled(obstacle),
        Err(Unmade::Memory) => return RollEnd::Memory,
    };
    if write_all(output, &text).is_err() {
        return RollEnd::SinkFault;
    }
    RollEnd::Done
}
