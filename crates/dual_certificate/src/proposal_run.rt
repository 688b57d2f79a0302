//! Parts of a proposal that are read from the midst of its text, before it is known what stands before them: each with its
//! product's name, which is compared where they are joined.

ghost use Rattle.std.specs.Prelude.{◌≡◌, Some, IfOk, IfSome, IsTrue};

use crate::pieces::cut;
use crate::proposal_draft::ProposalDraft;
use crate::proposal_line::{Figures, ProposalLine, read_line};
use crate::proposal_part::ProposalPart;
use command_types::{FileFault, Roster};
use std::alloc::{AllocError, Global};
use units_core::Name;

/// A part, the place of its product, how many lines write it, and the text behind it.
#[derive(Drop)]
pub(crate) struct ReadPart<'a> {
    pub(crate) product: usize,
    pub(crate) part: ProposalPart,
    pub(crate) lines: u64,
    pub(crate) rest: &'a [u8],
}

/// The parts that a text starts with, one behind the other.
#[derive(Drop)]
pub struct ProposalRun<'a> {
    pub(crate) text: &'a [u8],
    pub(crate) parts: Vec<ReadPart<'a>>,
}

ghost use Rattle.command_types.specs.Roster.{product_place};
ghost use Rattle.dual_certificate.specs.Proposal.{nothing_read};
ghost use Rattle.dual_certificate.specs.ProposalDraft.{IsDraft, reading_of};
ghost use Rattle.dual_certificate.specs.Runs.{is_inner, BeginsPart, AddsLine, EndsPart, IsPart, IsRun};

fn is_inner(line: &ProposalLine) -> bool
    ensures { result ≡ is_inner line.now }
{
    matches!(line, ProposalLine::Row { .. } | ProposalLine::Pot { .. })
}

// Takes a row or a potential into the part that is begun, and answers whether it may stand there.
fn add_line(
    draft: &mut ProposalDraft,
    roster: &Roster,
    line: ProposalLine,
) -> Result<bool, AllocError>
    requires { IsDraft roster.now draft.old }
    ensures { IfOk result (λ fits. IsTrue fits → AddsLine roster.now draft.old line draft.new) }
{
    if !is_inner(&line) {
        return Ok(false);
    }
    match draft.take(roster, 1, line) {
        Ok(()) => Ok(true),
        Err(FileFault::Memory) => Err(AllocError),
        Err(_) => Ok(false),
    }
}

// The part that is begun, which ends with this dual bound. None where it can't end yet.
fn end_part(
    draft: ProposalDraft,
    roster: &Roster,
    value: u64,
) -> Result<Option<ProposalPart>, AllocError>
    requires { IsDraft roster.now draft }
    ensures { IfOk result (λ part. IfSome part (λ part. EndsPart roster.now draft value part)) }
{
    let mut draft = draft;
    match draft.finish(roster, 1, value) {
        Ok(()) => Ok(draft.into_parts().pop()),
        Err(FileFault::Memory) => Err(AllocError),
        Err(_) => Ok(None),
    }
}

// The place of the product with this name, and its part with these figures.
fn begin_named(
    alloc: Global,
    roster: &Roster,
    name: Name,
    figures: Figures,
) -> Option<(usize, ProposalDraft)>
    ensures place { IfSome result (λ begun. product_place roster.now name ≡ Some begun.0) }
    ensures reading { IfSome result (λ begun. reading_of begun.1 ≡ record nothing_read { figures = Some figures }) }
    ensures draft { IfSome result (λ begun. IsDraft roster.now begun.1) }
{
    let product = roster.product_named(&name)?;
    Some((product.index(), ProposalDraft::begun(alloc, figures)))
}

// The place of the product that a part's first line names, and the part that it begins.
fn begin_part(alloc: Global, roster: &Roster, line: ProposalLine) -> Option<(usize, ProposalDraft)>
    ensures { IfSome result (λ begun. BeginsPart roster.now line begun.0 begun.1) }
{
    match line {
        ProposalLine::Product { name, figures } => begin_named(alloc, roster, name, figures),
        _ => None,
    }
}

// The part that a text starts with. None where it starts with none.
fn read_part<'a>(
    alloc: Global,
    roster: &Roster,
    text: &'a [u8],
) -> Result<Option<ReadPart<'a>>, AllocError>
    ensures { IfOk result (λ read. IfSome read (IsPart roster.now text.now)) }
{
    let Some((head, behind)) = cut(text, b'\n') else {
        return Ok(None);
    };
    let Some(first) = read_line(head) else {
        return Ok(None);
    };
    let Some((product, begun)) = begin_part(alloc, roster, first) else {
        return Ok(None);
    };
    let mut draft = begun;
    let mut rest = behind;
    let mut lines = 1;
    while let Some((line, more)) = cut(rest, b'\n') {
        let Some(said) = read_line(line) else {
            return Ok(None);
        };
        if let ProposalLine::Bound { value } = said {
            let Some(part) = end_part(draft, roster, value)? else {
                return Ok(None);
            };
            return Ok(Some(ReadPart {
                product,
                part,
                lines: lines + 1,
                rest: more,
            }));
        }
        let fits = add_line(&mut draft, roster, said)?;
        if !fits {
            return Ok(None);
        }
        lines += 1;
        rest = more;
    }
    Ok(None)
}

// The part that a text starts with, unless no more than this many bytes are left.
fn next_part<'a>(
    alloc: Global,
    roster: &Roster,
    text: &'a [u8],
    left: usize,
) -> Result<Option<ReadPart<'a>>, AllocError>
    ensures { IfOk result (λ read. IfSome read (IsPart roster.now text.now)) }
{
    if text.len() <= left {
        return Ok(None);
    }
    read_part(alloc, roster, text)
}

/// The parts that a text starts with, until no more than this many bytes are left behind one, or no further part stands there.
/// The only error is want of memory.
pub fn read_run<'a>(
    alloc: Global,
    roster: &Roster,
    text: &'a [u8],
    left: usize,
) -> Result<ProposalRun<'a>, AllocError>
    ensures { IfOk result (IsRun roster.now) }
{
    let mut parts = Vec::new(alloc);
    let mut rest = text;
    for _ in 0..roster.products().len() {
        let Some(read) = next_part(alloc, roster, rest, left)? else {
            return Ok(ProposalRun { text, parts });
        };
        rest = read.rest;
        parts.push(read)?;
    }
    Ok(ProposalRun { text, parts })
}
