//! The files of a form: each is read by its name, up to one byte more than a file may have.

ghost use Rattle.std.specs.Prelude.{◌≡◌, ◌≤◌, ◌⊎◌, Ok, Err, IfOk, IfErr};
ghost use Rattle.outside.specs.Faults.{Rose};
ghost use Rattle.outside.specs.Files.{IsFront};
ghost use Rattle.command_types.specs.Roster.{IsRoster};
ghost use Rattle.trade_file.specs.RosterFile.{roster_file};
ghost use Rattle.trade_file.specs.TradeFile.{trade_file, AreFileTrades};
ghost use Rattle.dual_certificate.specs.Proposal.{proposal_of};
ghost use Rattle.dual_certificate.specs.Parts.{AreParts};
ghost use Rattle.compress_server.specs.Files.{files_by, file_front, Reads, SaysRoster, SaysProposal, IsLoadFault};

use command_types::{FileFault, Roster};
use dual_certificate::ProposalPart;
use file_market::read_proposal_by;
use network_laws::Solver;
use outside::{Files, Gate, Trouble};
use parallel_solver::Workers;
use std::alloc::Global;
use std::thread::Threads;
use trade_file::{FileTrade, Readers, read_roster, read_trades};
use units_core::MOST_FILE;

// As many bytes of a file as are read: one more than a file may have.
const FILE_FRONT: u64 = MOST_FILE as u64 + 1;

/// What a file is to a form.
#[derive(Clone, Copy)]
pub enum FileRole {
    Roster,
    Trades,
    Proposal,
    NewRoster,
}

/// Why a file could not be had.
#[derive(Clone, Copy)]
pub enum LoadFault {
    /// The files failed at the file in this role.
    Files(FileRole),
    /// The file's first fault.
    Faulty(FileRole, FileFault),
    Memory,
}

// The front of the file with this name, which is read in this role.
fn read_front<F: Files>(
    alloc: Global,
    files: &mut F,
    role: FileRole,
    name: &str,
) -> Result<Vec<u8>, LoadFault>
    ensures front { IfOk result (λ bytes. IsFront (F.folder files.old) name.now file_front bytes.items) }
    ensures other { IfErr result (λ fault. ((fault ≡ LoadFault.Files role) × Rose (F.faults files.old) (F.faults files.new)) ⊎ (fault ≡ LoadFault.Memory)) }
    ensures stays { F.folder files.new ≡ F.folder files.old }
    ensures never_falls { F.faults files.old ≤ F.faults files.new }
{
    match files.read_front(alloc, name, FILE_FRONT) {
        Ok(bytes) => Ok(bytes),
        Err(Trouble::Failed) => Err(LoadFault::Files(role)),
        Err(Trouble::Memory) => Err(LoadFault::Memory),
    }
}

/// The roster of the file with this name, which is read in this role. No file changes.
pub fn load_roster_as<F: Files>(
    alloc: Global,
    files: &mut F,
    role: FileRole,
    name: &str,
) -> Result<Roster, LoadFault>
    ensures says { IfOk result (λ roster. SaysRoster (F.folder files.old) name.now roster) }
    ensures roster { IfOk result (λ roster. IsRoster roster) }
    ensures fault { IfErr result (IsLoadFault (files_by F.Files files.old) (files_by F.Files files.new) name.now role roster_file) }
    ensures stays { F.folder files.new ≡ F.folder files.old }
    ensures never_falls { F.faults files.old ≤ F.faults files.new }
{
    let bytes = read_front(alloc, files, role, name)?;
    match read_roster(alloc, &bytes) {
        Ok(roster) => Ok(roster),
        Err(FileFault::Memory) => Err(LoadFault::Memory),
        Err(fault) => Err(LoadFault::Faulty(role, fault)),
    }
}

/// The roster of the file with this name, which is read first. No file changes.
pub fn load_roster<F: Files>(alloc: Global, files: &mut F, name: &str) -> Result<Roster, LoadFault>
    ensures says { IfOk result (λ roster. SaysRoster (F.folder files.old) name.now roster) }
    ensures roster { IfOk result (λ roster. IsRoster roster) }
    ensures fault { IfErr result (IsLoadFault (files_by F.Files files.old) (files_by F.Files files.new) name.now FileRole.Roster roster_file) }
    ensures stays { F.folder files.new ≡ F.folder files.old }
    ensures never_falls { F.faults files.old ≤ F.faults files.new }
{
    load_roster_as(alloc, files, FileRole::Roster, name)
}

/// The trades of the file with this name, over the roster, read by these readers. No file changes.
pub fn load_trades<R: Threads + Sync, F: Files>(
    alloc: Global,
    files: &mut F,
    name: &str,
    roster: &Roster,
    readers: &Readers<'_, R>,
) -> Result<Vec<FileTrade>, LoadFault>
    ensures says { IfOk result (λ trades. Reads (F.folder files.old) name.now (trade_file roster.now) (Ok trades.items)) }
    ensures within { IfOk result (λ trades. AreFileTrades roster.now trades.items) }
    ensures fault { IfErr result (IsLoadFault (files_by F.Files files.old) (files_by F.Files files.new) name.now FileRole.Trades (trade_file roster.now)) }
    ensures stays { F.folder files.new ≡ F.folder files.old }
    ensures never_falls { F.faults files.old ≤ F.faults files.new }
{
    let bytes = read_front(alloc, files, FileRole::Trades, name)?;
    match read_trades(alloc, &bytes, roster, readers) {
        Ok(trades) => Ok(trades),
        Err(FileFault::Memory) => Err(LoadFault::Memory),
        Err(fault) => Err(LoadFault::Faulty(FileRole::Trades, fault)),
    }
}

/// The parts of the proposal in the file with this name, over the roster, read by these workers. No file changes.
pub fn load_proposal<R: Threads + Sync, V: Solver, G: Gate, F: Files>(
    alloc: Global,
    files: &mut F,
    name: &str,
    roster: &Roster,
    workers: &Workers<'_, R, V, G>,
) -> Result<Vec<ProposalPart>, LoadFault>
    ensures says { IfOk result (λ parts. SaysProposal (F.folder files.old) name.now roster.now parts.items) }
    ensures within { IfOk result (λ parts. AreParts roster.now parts.items) }
    ensures fault { IfErr result (IsLoadFault (files_by F.Files files.old) (files_by F.Files files.new) name.now FileRole.Proposal (proposal_of roster.now)) }
    ensures stays { F.folder files.new ≡ F.folder files.old }
    ensures never_falls { F.faults files.old ≤ F.faults files.new }
{
    let bytes = read_front(alloc, files, FileRole::Proposal, name)?;
    match read_proposal_by(alloc, &bytes, roster, workers) {
        Ok(parts) => Ok(parts),
        Err(FileFault::Memory) => Err(LoadFault::Memory),
        Err(fault) => Err(LoadFault::Faulty(FileRole::Proposal, fault)),
    }
}
