//! A proposal read by workers: each has a part of the text, and what they read is joined.

ghost use Rattle.std.specs.Prelude.{◌≡◌, ◌⊎◌, ◌<◌, All, Ok, Err, IfOk, IfErr, length};
ghost use Rattle.command_types.specs.declared.file_fault.FileFault.TheVariants.{Memory};
ghost use Rattle.dual_certificate.specs.Proposal.{proposal_of};
ghost use Rattle.dual_certificate.specs.Parts.{AreParts};
ghost use Rattle.dual_certificate.specs.Runs.{IsRun};

use command_types::{FileFault, Roster};
use dual_certificate::{ProposalPart, ProposalRun, read_run, read_runs, run_texts};
use network_laws::Solver;
use outside::Gate;
use parallel_solver::Workers;
use std::alloc::{AllocError, Global};
use std::thread::Threads;

// The runs of parts that the workers read of a text, in order.
fn runs_by<'a, R: Threads + Sync, V: Solver, G: Gate>(
    alloc: Global,
    bytes: &'a [u8],
    roster: &Roster,
    workers: &Workers<'_, R, V, G>,
) -> Result<Vec<ProposalRun<'a>>, AllocError>
    ensures { IfOk result (λ runs. All (IsRun roster.now) runs.items) }
{
    let texts = run_texts(alloc, bytes, workers.count() as usize)?;
    let own = texts.as_slice();
    let runs = workers.make_all(
        alloc,
        own.len(),
        &move |place: usize| -> Result<ProposalRun<'_>, AllocError>
            requires { place < length own.now }
            ensures { IfOk result (IsRun roster.entry.now) }
        { read_run(alloc, roster, own[place].text, own[place].left) },
    )?;
    Ok(runs)
}

/// The parts that a proposal's text says, or the number of its first line that can't stand at its place, as `read_proposal`
/// of `dual_certificate` has them, read by the workers. Want of memory may come at any place.
pub fn read_proposal_by<R: Threads + Sync, V: Solver, G: Gate>(
    alloc: Global,
    bytes: &[u8],
    roster: &Roster,
    workers: &Workers<'_, R, V, G>,
) -> Result<Vec<ProposalPart>, FileFault>
    ensures parts { IfOk result (λ parts. proposal_of roster.now bytes.now ≡ Ok parts.items) }
    ensures within { IfOk result (λ parts. AreParts roster.now parts.items) }
    ensures fault { IfErr result (λ fault. (fault ≡ Memory) ⊎ (proposal_of roster.now bytes.now ≡ Err fault)) }
{
    match runs_by(alloc, bytes, roster, workers) {
        Ok(runs) => read_runs(alloc, bytes, roster, runs),
        Err(_) => Err(FileFault::Memory),
    }
}
