//! The solver.

ghost use Rattle.std.specs.Prelude.{◌≡◌, ◌≤◌, ◌^◌, map, neg_ℤ, All, IfOk};
ghost use Rattle.network_laws.specs.Networks.{gross};
ghost use Rattle.network_laws.specs.Limits.{IsWithinLimits};
ghost use Rattle.network_laws.specs.Solutions.{Solves};
ghost use Rattle.residual_graph.specs.Residual.{network_of};
ghost use Rattle.cycle_cancel.specs.Cancels.{IsLabel, answer_of};
ghost use Rattle.units_core.specs.declared.limits.TheConstants.{MOST_GROSS};

use crate::settle::settle;
use net_positions::positions_of;
use network_laws::{Limits, Network, Solution, Solver};
use residual_graph::Residual;
use std::alloc::{AllocError, Global};
use std::marker::Brand;
use std::sync::ledger::Blank;

/// Finds a certified network by cancelling cycles, from the old network on.
#[derive(Clone, Copy)]
pub struct CycleCancel {
    alloc: Global,
}

impl CycleCancel {
    /// A solver that takes its memory from here.
    pub fn new(alloc: Global) -> CycleCancel {
        CycleCancel { alloc }
    }
}

impl Solver for CycleCancel {
    fn solve(&self, limits: &Limits, network: &Network) -> Result<Solution, AllocError> {
        solution_of(self.alloc, limits, network)
    }
}

/// A certified network and its potentials, and the old network itself where its gross is least.
fn solution_of(alloc: Global, limits: &Limits, network: &Network) -> Result<Solution, AllocError>
    requires same_members { limits.now.members ≡ network.now.members }
    requires within { IsWithinLimits limits.now network.now }
    ensures { IfOk result (Solves limits.now network.now) }
{
    let cap = positions_of(network).gross + 1;
    let mut residual = Residual::of(alloc, limits, network, cap)?;
    let blank = Blank::new(1);
    let settled = settle::<Brand>(alloc, &mut residual, blank)?;
    let least = answer_of(&residual, network, settled.cancelled)?;
    let potentials = potentials_of(alloc, &settled.labels)?;
    Ok(Solution::new(least, potentials))
}

/// The network of the residual graph, or the old one where no cycle was cancelled.
fn answer_of(residual: &Residual, network: &Network, cancelled: bool) -> Result<Network, AllocError>
    requires { gross (network_of residual.now) ≤ MOST_GROSS }
    ensures { IfOk result (λ y. y ≡ answer_of cancelled residual.now network.now) }
{
    if cancelled {
        residual.network()
    } else {
        network.copy()
    }
}

/// The negations of labels.
fn potentials_of(alloc: Global, labels: &[i32]) -> Result<Vec<i32>, AllocError>
    requires { All (IsLabel 256) labels.now }
    ensures { IfOk result (λ potentials. potentials.items ≡ map neg_ℤ labels.now) }
{
    let mut potentials = Vec::new(alloc);
    for label in labels {
        potentials.push(-*label)?;
    }
    Ok(potentials)
}
