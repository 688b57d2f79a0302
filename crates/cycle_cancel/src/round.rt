//! Rounds of labels: Bellman and Ford's step for all arcs at once.

ghost use Rattle.std.specs.Prelude.{◌≡◌, ◌<◌, ◌≤◌, length, map, replicate, None, IfOk, MatchOption, ◌≢◌, ℕ};
ghost use Rattle.residual_graph.specs.Residual.{IsResidual};
ghost use Rattle.residual_graph.specs.Arcs.{arc_count};
ghost use Rattle.cycle_cancel.specs.Rounds.{IsLevel, IsRound, first_step, fresh, lowered_by};
ghost use Rattle.cycle_cancel.specs.Traces.{arc_at};

use residual_graph::Residual;
use std::alloc::{AllocError, Global};

/// A label, and the arc that lowered it in this round.
#[derive(Clone, Copy)]
pub struct Step {
    pub label: i32,
    pub arc: Option<u32>,
}

/// Labels of 0, which no arc lowered.
pub fn zeros(alloc: Global, members: u16) -> Result<Vec<Step>, AllocError>
    ensures { IfOk result (λ steps. steps.items ≡ replicate members first_step) }
{
    let mut steps = Vec::new(alloc);
    for _member in 0..members {
        steps.push(Step {
            label: 0,
            arc: None,
        })?;
    }
    Ok(steps)
}

/// The labels after one more round, by the arcs that have room for at least so much.
pub fn round(
    alloc: Global,
    residual: &Residual,
    before: &[Step],
    level: u16,
    least: u64,
) -> Result<Vec<Step>, AllocError>
    requires members { length before.now ≡ residual.now.members }
    requires level { IsLevel level before.now }
    requires least { 1 ≤ least }
    ensures { IfOk result (λ next. IsRound least residual.now.flows before.now next.items (arc_count residual.now.flows)) }
{
    let mut next = unchanged(alloc, before)?;
    lower_all(residual, before, &mut next, least);
    Ok(next)
}

/// The same labels, which no arc lowered yet.
fn unchanged(alloc: Global, before: &[Step]) -> Result<Vec<Step>, AllocError>
    ensures { IfOk result (λ next. next.items ≡ map fresh before.now) }
{
    let mut next = Vec::new(alloc);
    for step in before {
        next.push(Step {
            label: step.label,
            arc: None,
        })?;
    }
    Ok(next)
}

/// Lowers labels by all arcs that have room for at least so much.
fn lower_all(residual: &Residual, before: &[Step], next: &mut [Step], least: u64)
    requires members { length before.now ≡ residual.now.members }
    requires level { IsLevel 65535 before.now }
    requires least { 1 ≤ least }
    requires unchanged { next.old ≡ map fresh before.now }
    ensures { IsRound least residual.now.flows before.now next.new (arc_count residual.now.flows) }
{
    for arc in 0..residual.arcs() {
        lower(residual, before, next, arc, least);
    }
}

/// Lowers the label at an arc's head where the arc has room for at least so much and gives a lower one.
fn lower(residual: &Residual, before: &[Step], next: &mut [Step], arc: u32, least: u64)
    requires arc { arc < arc_count residual.now.flows }
    requires members { length before.now ≡ residual.now.members }
    requires same { length next.old ≡ length before.now }
    requires level { IsLevel 65535 before.now }
    ensures { next.new ≡ lowered_by least residual.now.flows before.now arc next.old }
{
    let from = residual.tail(arc) as usize;
    let to = residual.head(arc) as usize;
    let label = before[from].label + residual.cost(arc);
    if residual.room(arc) >= least && label < next[to].label {
        next[to] = Step {
            label,
            arc: Some(arc),
        };
    }
}

/// A member whose label fell in this round.
pub fn changed(level: &[Step]) -> Option<usize>
    ensures { MatchOption result ((v : ℕ) → v < length level.now → arc_at level.now v ≡ None) (λ v. (v < length level.now) × (arc_at level.now v ≢ None)) }
{
    for (at, step) in level.iter().enumerate() {
        if step.arc.is_some() {
            return Some(at);
        }
    }
    None
}
