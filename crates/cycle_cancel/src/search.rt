//! Bellman-Ford rounds, up to labels that no arc can lower or to a cycle of negative cost.

ghost use Rattle.std.specs.Prelude.{◌≡◌, ◌≤◌, length, map, IfOk};
ghost use Rattle.residual_graph.specs.Residual.{IsResidual};
ghost use Rattle.cycle_cancel.specs.Rounds.{IsLevel, label_of};
ghost use Rattle.cycle_cancel.specs.Cancels.{IsFound};

use crate::round::{Step, changed, round, zeros};
use crate::trace::trace;
use residual_graph::Residual;
use std::alloc::{AllocError, Global};

/// What the rounds of labels end with.
#[derive(Drop)]
pub enum Found {
    /// A label for each member, which no arc that counts can lower.
    Labels(Vec<i32>),
    /// The arcs of a cycle of negative cost, each of which has room, from the first to the last.
    Cycle(Vec<u32>),
}

/// Rounds of labels from 0 on, each on the one before, which are all kept, by the arcs that have room for at
/// least so much. They stop at the first round that lowers no label, and at the first whose arcs, followed
/// back, pass a member twice. There are at most as many rounds as members, since a walk back through so many
/// passes one twice.
pub fn search(alloc: Global, residual: &Residual, least: u64) -> Result<Found, AllocError>
    requires { 1 ≤ least }
    ensures { IfOk result (IsFound least residual.now) }
{
    let members = residual.members();
    let mut levels = Vec::new(alloc);
    let first = zeros(alloc, members)?;
    levels.push(first)?;
    for level in 0..members {
        let next = round(alloc, residual, &levels[level as usize], level, least)?;
        let Some(start) = changed(&next) else {
            let labels = labels_of(alloc, &next)?;
            return Ok(Found::Labels(labels));
        };
        levels.push(next)?;
        if let Some(arcs) = trace(alloc, residual, &levels, level + 1, start as u16)? {
            return Ok(Found::Cycle(arcs));
        }
    }
    Ok(Found::Labels(Vec::new(alloc)))
}

/// The labels of the last round.
fn labels_of(alloc: Global, steps: &[Step]) -> Result<Vec<i32>, AllocError>
    ensures { IfOk result (λ labels. labels.items ≡ map label_of steps.now) }
{
    let mut labels = Vec::new(alloc);
    for step in steps {
        labels.push(step.label)?;
    }
    Ok(labels)
}
