//! Reading a proposal's text.
ghost use Rattle.std.specs.Prelude.{◌≡◌, ◌+◌, ◌≤◌, ◌⊎◌, length, All, Ok, Err, IfOk, IfErr};
ghost use Rattle.network_laws.specs.Solutions.{IsSolution};
ghost use Rattle.command_types.specs.declared.file_fault.FileFault.TheVariants.{Memory};
ghost use Rattle.dual_certificate.specs.Proposal.{after_parts, at_end, proposal_of, with_pieces};
ghost use Rattle.dual_certificate.specs.ProposalLine.{pieces};
ghost use Rattle.dual_certificate.specs.ProposalDraft.{reading_of};
ghost use Rattle.dual_certificate.specs.Parts.{AreParts};
ghost use Rattle.dual_certificate.specs.Runs.{IsRun};
ghost use Rattle.units_core.specs.declared.limits.TheConstants.{MOST_FILE};

use crate::pieces::cut;
use crate::proposal_draft::ProposalDraft;
use crate::proposal_part::ProposalPart;
use crate::proposal_run::ProposalRun;
use crate::run_joiner::{Joined, join_runs};
use command_types::{FileFault, Roster};
use std::alloc::Global;
use units_core::MOST_FILE;

// The parts, if the last line came and nothing stands behind its line feed; else the line with this number is missing,
// or one too many.
fn parts_of(draft: ProposalDraft, row: u64, rest: &[u8]) -> Result<Vec<ProposalPart>, FileFault>
    ensures parts { IfOk result (λ parts. at_end row (reading_of draft) rest.now ≡ Ok parts.items) }
    ensures kept { IfOk result (λ parts. parts.items ≡ (reading_of draft).parts) }
    ensures fault { IfErr result (λ fault. (fault ≡ Memory) ⊎ (at_end row (reading_of draft) rest.now ≡ Err fault)) }
{
    if rest.is_empty() && draft.has_ended() {
        return Ok(draft.into_parts());
    }
    Err(FileFault::BadLine { row })
}

// The parts that were joined, and those that the lines behind them say.
fn read_lines(
    alloc: Global,
    joined: Joined<'_>,
    roster: &Roster,
) -> Result<Vec<ProposalPart>, FileFault>
    requires good { All (λ part. IsSolution part.solution) joined.parts.items }
    requires short { joined.row + length joined.rest.now ≤ MOST_FILE + 1 }
    ensures parts { IfOk result (λ parts. with_pieces roster.now joined.entry.row (after_parts joined.entry.parts.items) (pieces 10 joined.entry.rest.now) ≡ Ok parts.items) }
    ensures solutions { IfOk result (λ parts. All (λ part. IsSolution part.solution) parts.items) }
    ensures fault { IfErr result (λ fault. (fault ≡ Memory) ⊎ (with_pieces roster.now joined.entry.row (after_parts joined.entry.parts.items) (pieces 10 joined.entry.rest.now) ≡ Err fault)) }
{
    let Joined { parts, row, rest } = joined;
    let mut draft = ProposalDraft::behind(alloc, parts);
    let mut rest = rest;
    let mut row = row;
    while let Some((line, more)) = cut(rest, b'\n') {
        match draft.take_line(roster, row, line) {
            Ok(()) => {}
            Err(fault) => return Err(fault),
        }
        rest = more;
        row += 1;
    }
    parts_of(draft, row, rest)
}

/// The parts that a proposal's text says, as `read_proposal` has them, with these runs of it, in order. What is not in them,
/// or does not stand where they say, is read here.
pub fn read_runs<'a>(
    alloc: Global,
    bytes: &'a [u8],
    roster: &Roster,
    runs: Vec<ProposalRun<'a>>,
) -> Result<Vec<ProposalPart>, FileFault>
    requires { All (IsRun roster.now) runs.items }
    ensures parts { IfOk result (λ parts. proposal_of roster.now bytes.now ≡ Ok parts.items) }
    ensures within { IfOk result (λ parts. AreParts roster.now parts.items) }
    ensures fault { IfErr result (λ fault. (fault ≡ Memory) ⊎ (proposal_of roster.now bytes.now ≡ Err fault)) }
{
    if bytes.len() > MOST_FILE {
        return Err(FileFault::TooLong);
    }
    match join_runs(alloc, bytes, roster, runs) {
        Ok(joined) => read_lines(alloc, joined, roster),
        Err(_) => Err(FileFault::Memory),
    }
}

/// The parts that a proposal's text says, one for each product of the roster in order, or the number of its first line
/// that can't stand at its place, counted from 1; a missing line counts as the one behind the last. Of each product the
/// lines are, in this order, `product NAME GROSS LEAST M BILATERAL`, a `row SELLER BUYER AMOUNT` for each row in
/// rising order, a `pot MEMBER VALUE` for each member in order, and `bound VALUE`; the last line is `end COUNT`. Each
/// line has its line feed. Want of memory may come at any place.
pub fn read_proposal(
    alloc: Global,
    bytes: &[u8],
    roster: &Roster,
) -> Result<Vec<ProposalPart>, FileFault>
    ensures parts { IfOk result (λ parts. proposal_of roster.now bytes.now ≡ Ok parts.items) }
    ensures within { IfOk result (λ parts. AreParts roster.now parts.items) }
    ensures fault { IfErr result (λ fault. (fault ≡ Memory) ⊎ (proposal_of roster.now bytes.now ≡ Err fault)) }
{
    read_runs(alloc, bytes, roster, Vec::new(alloc))
}
