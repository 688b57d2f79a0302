//! Moving as much round a cycle as it can take.

ghost use Rattle.std.specs.Prelude.{◌≡◌, ◌<◌, ◌≤◌, All};
ghost use Rattle.residual_graph.specs.Arcs.{arc_count, room};
ghost use Rattle.cycle_cancel.specs.Traces.{IsGain};
ghost use Rattle.cycle_cancel.specs.Cancels.{IsCancelled};

use residual_graph::{Residual, Steps};
use std::sync::ledger::Ledger;

/// Cancels a cycle that gains.
pub fn cancel<L: Ledger>(residual: &mut Residual, arcs: &[u32], steps: &mut Steps<L>)
    requires { IsGain residual.old.flows arcs.now }
    ensures members { residual.new.members ≡ residual.old.members }
    ensures cancelled { IsCancelled residual.old.flows residual.new.flows }
{
    let amount = least_room(residual, arcs);
    residual.push_path(arcs, amount, steps);
}

/// The most that every arc can take.
fn least_room(residual: &Residual, arcs: &[u32]) -> u64
    requires arc { All (λ a. a < arc_count residual.now.flows) arcs.now }
    requires room { All (λ a. 0 < room residual.now.flows a) arcs.now }
    ensures some { 0 < result }
    ensures all { All (λ a. result ≤ room residual.now.flows a) arcs.now }
{
    let mut least = u64::MAX;
    for arc in arcs {
        let room = residual.room(*arc);
        if room < least {
            least = room;
        }
    }
    least
}
