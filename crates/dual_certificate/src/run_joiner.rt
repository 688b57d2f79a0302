//! How a proposal's text is cut for workers, and how the runs of parts that they read are joined: as far as each stands where
//! the one before ends, and its parts are those of the next products.

ghost use Rattle.std.specs.Prelude.{◌≡◌, ◌+◌, ◌≤◌, List, ℕ, All, IfOk, OnOk, IsTrue, length};
ghost use Rattle.std.specs.Str.{bytes_eq};
ghost use Rattle.units_core.specs.declared.limits.TheConstants.{MOST_FILE};

use crate::proposal_part::ProposalPart;
use crate::proposal_run::{ProposalRun, ReadPart};
use command_types::Roster;
use std::alloc::{AllocError, Global};

/// The rest of a proposal's text from a part on, and how many bytes are left to the next one.
#[derive(Clone, Copy)]
pub struct RunText<'a> {
    pub text: &'a [u8],
    pub left: usize,
}

/// The parts that were joined, the number of the line behind them, and the text from there on.
#[derive(Drop)]
pub(crate) struct Joined<'a> {
    pub(crate) parts: Vec<ProposalPart>,
    pub(crate) row: u64,
    pub(crate) rest: &'a [u8],
}

ghost use Rattle.dual_certificate.specs.Runs.{IsPart, IsRun, IsJoined};

fn is_same(front: &[u8], back: &[u8]) -> bool
    ensures { result ≡ bytes_eq front.now back.now }
{
    front == back
}

// Takes a part that the rest starts with, and answers whether it is that of the next product.
fn take_part<'a>(
    joined: &mut Joined<'a>,
    roster: &Roster,
    read: ReadPart<'a>,
) -> Result<bool, AllocError>
    requires part { IsPart roster.now joined.old.rest.now read }
    requires short { joined.old.row + length joined.old.rest.now ≤ MOST_FILE + 1 }
    ensures joined { (bytes : List ℕ) → IsJoined roster.now bytes joined.old → OnOk result (IsJoined roster.now bytes joined.new) }
    ensures short { OnOk result (joined.new.row + length joined.new.rest.now ≤ MOST_FILE + 1) }
    ensures rest { IfOk result (λ taken. IsTrue taken → joined.new.rest.now ≡ read.entry.rest.now) }
{
    let ReadPart {
        product,
        part,
        lines,
        rest,
    } = read;
    if product != joined.parts.len() {
        return Ok(false);
    }
    joined.parts.push(part)?;
    joined.row += lines;
    joined.rest = rest;
    Ok(true)
}

// Takes the parts of a run, if it stands where the rest begins.
fn take_run<'a>(
    joined: &mut Joined<'a>,
    roster: &Roster,
    run: ProposalRun<'a>,
) -> Result<(), AllocError>
    requires run { IsRun roster.now run }
    requires short { joined.old.row + length joined.old.rest.now ≤ MOST_FILE + 1 }
    ensures joined { (bytes : List ℕ) → IsJoined roster.now bytes joined.old → OnOk result (IsJoined roster.now bytes joined.new) }
    ensures short { OnOk result (joined.new.row + length joined.new.rest.now ≤ MOST_FILE + 1) }
{
    let ProposalRun { text, parts } = run;
    if !is_same(joined.rest, text) {
        return Ok(());
    }
    for read in parts {
        let taken = take_part(joined, roster, read)?;
        if !taken {
            return Ok(());
        }
    }
    Ok(())
}

/// The parts of these runs of a text, in order, as far as they say what the text says.
pub(crate) fn join_runs<'a>(
    alloc: Global,
    bytes: &'a [u8],
    roster: &Roster,
    runs: Vec<ProposalRun<'a>>,
) -> Result<Joined<'a>, AllocError>
    requires runs { All (IsRun roster.now) runs.items }
    requires short { length bytes.now ≤ MOST_FILE }
    ensures { IfOk result (IsJoined roster.now bytes.now) }
{
    let mut joined = Joined {
        parts: Vec::new(alloc),
        row: 1,
        rest: bytes,
    };
    for run in runs {
        take_run(&mut joined, roster, run)?;
    }
    Ok(joined)
}

// Where a text goes on with a part, behind the first line feed from a place on.
fn next_part(text: &[u8], from: usize) -> &[u8] {
    for at in from..text.len() {
        let rest = &text[at..];
        if rest.starts_with(b"\nproduct ") {
            return &rest[1..];
        }
    }
    &text[text.len()..]
}

/// A proposal's text, cut before parts for so many workers, in order.
pub fn run_texts<'a>(
    alloc: Global,
    text: &'a [u8],
    count: usize,
) -> Result<Vec<RunText<'a>>, AllocError>
    requires { 1 ≤ count }
{
    let mut texts = Vec::with_capacity(alloc, count)?;
    let mut own = text;
    for number in 1..=count {
        let mut next = &text[text.len()..];
        if number < count {
            next = next_part(text, text.len() / count * number);
        }
        texts.push(RunText {
            text: own,
            left: next.len(),
        })?;
        own = next;
    }
    Ok(texts)
}
