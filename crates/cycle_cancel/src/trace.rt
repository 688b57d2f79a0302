//! From a label that fell in the last round back along the arcs that lowered it and those before it.

ghost use Rattle.std.specs.Prelude.{◌≡◌, ◌≢◌, ℕ, ◌+◌, ◌<◌, ◌≤◌, length, replicate, slice_index_or, drop, reverse, None, Some, IfOk, MatchOption};
ghost use Rattle.std.specs.declared.alloc.Global.{Global};
ghost use Rattle.std.specs.declared.vec.Vec.{Vec};
ghost use Rattle.residual_graph.specs.Residual.{IsResidual};
ghost use Rattle.cycle_cancel.specs.declared.round.Step.{Step};
ghost use Rattle.cycle_cancel.specs.Traces.{IsTable, IsGain, arc_at};

use crate::round::Step;
use residual_graph::Residual;
use std::alloc::{AllocError, Global};

/// The cycle that the walk back closes, from its first arc to its last; `None` where it passes no member
/// twice. With as many rounds as members it always closes one.
pub fn trace(
    alloc: Global,
    residual: &Residual,
    levels: &[Vec<Step>],
    rounds: u16,
    start: u16,
) -> Result<Option<Vec<u32>>, AllocError>
    requires table { (least : ℕ) × IsTable least residual.now.flows residual.now.members levels.now }
    requires levels { length levels.now ≡ rounds + 1 }
    requires rounds { rounds ≤ residual.now.members }
    requires start { start < residual.now.members }
    requires falls { (d : Vec Step Global) → arc_at (slice_index_or levels.now rounds d).items start ≢ None }
    ensures { IfOk result (λ found. MatchOption found (rounds < residual.now.members) (λ arcs. IsGain residual.now.flows arcs.items)) }
{
    let first = &levels[0];
    let _width = first.len();
    let mut path: Vec<u32> = Vec::new(alloc);
    let mut marks = unmarked(alloc, residual.members())?;
    let mut at = start;
    for back in 0..rounds {
        if let Some(mark) = mark_of(&marks, at) {
            let arcs = end_of(alloc, &path, mark)?;
            return Ok(Some(arcs));
        }
        let arc = arc_of(levels, rounds - back, at);
        marks[at as usize] = Some(back as usize);
        path.push(arc)?;
        at = residual.tail(arc);
    }
    match mark_of(&marks, at) {
        Some(mark) => {
            let arcs = end_of(alloc, &path, mark)?;
            Ok(Some(arcs))
        }
        None => Ok(None),
    }
}

/// No member has a mark.
fn unmarked(alloc: Global, members: u16) -> Result<Vec<Option<usize>>, AllocError>
    ensures { IfOk result (λ marks. marks.items ≡ replicate members None) }
{
    let mut marks = Vec::new(alloc);
    for _member in 0..members {
        marks.push(None)?;
    }
    Ok(marks)
}

/// The mark of a member: how many arcs the walk back had when it came there.
fn mark_of(marks: &[Option<usize>], at: u16) -> Option<usize>
    requires { at < length marks.now }
    ensures { result ≡ slice_index_or marks.now at None }
{
    marks[at as usize]
}

/// The walk back from here on, turned round.
fn end_of(alloc: Global, path: &[u32], from: usize) -> Result<Vec<u32>, AllocError>
    requires { from ≤ length path.now }
    ensures { IfOk result (λ arcs. arcs.items ≡ reverse (drop from path.now)) }
{
    path[from..].iter().rev().copied().collect(alloc)
}

/// The arc that lowered a label in a round.
fn arc_of(levels: &[Vec<Step>], level: u16, at: u16) -> u32
    requires level { level < length levels.now }
    requires at { (d : Vec Step Global) → at < length (slice_index_or levels.now level d).items }
    requires lowered { (d : Vec Step Global) → arc_at (slice_index_or levels.now level d).items at ≢ None }
    ensures { (d : Vec Step Global) → arc_at (slice_index_or levels.now level d).items at ≡ Some result }
{
    let steps = &levels[level as usize];
    arc_in(steps, at)
}

/// The arc that lowered a label in this round.
fn arc_in(steps: &[Step], at: u16) -> u32
    requires at { at < length steps.now }
    requires lowered { arc_at steps.now at ≢ None }
    ensures { arc_at steps.now at ≡ Some result }
{
    match steps[at as usize].arc {
        Some(arc) => arc,
        None => unreachable!(),
    }
}
