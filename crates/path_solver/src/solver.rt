//! The solver.

ghost use Rattle.std.specs.Prelude.{◌≡◌, ◌+◌, ◌*◌, ◌<◌, ◌≤◌, ◌^◌, IfOk};
ghost use Rattle.network_laws.specs.Networks.{total};
ghost use Rattle.network_laws.specs.Limits.{IsWithinLimits};
ghost use Rattle.network_laws.specs.Solutions.{Solves};
ghost use Rattle.residual_graph.specs.Residual.{flow_rows};
ghost use Rattle.path_solver.specs.Prices.{potentials};
ghost use Rattle.path_solver.specs.Phases.{IsPricedAnew};
ghost use Rattle.path_solver.specs.Counts.{most_steps, phase_steps};
ghost use Rattle.path_solver.specs.Tasks.{IsTask};
ghost use Rattle.units_core.specs.declared.limits.TheConstants.{MOST_GROSS};

use crate::balance::Balance;
use crate::lowest::lower_all;
use crate::settle::{Settled, settle};
use net_positions::gross;
use network_laws::{Limits, Network, Solution, Solver};
use residual_graph::{Residual, Steps};
use std::alloc::{AllocError, Global};
use std::marker::Brand;
use std::sync::ledger::{Blank, Ledger};

/// Finds a certified network by successive shortest paths, from the lower bounds on.
#[derive(Clone, Copy)]
pub struct PathSolver {
    alloc: Global,
}

impl PathSolver {
    /// A solver that takes its memory from here.
    pub fn new(alloc: Global) -> PathSolver {
        PathSolver { alloc }
    }

    /// What `solve` answers, with each path counted along which an amount is sent. Also where it answers want of memory
    /// there are at most V * V * E of them, where V is the number of members and 2, a source and a sink, and E twice the
    /// number of limit rows and members.
    pub fn solve_counted<L: Ledger>(
        &self,
        limits: &Limits,
        network: &Network,
        steps: &mut Steps<L>,
    ) -> Result<Solution, AllocError>
        requires same_members { limits.now.members ≡ network.now.members }
        requires within { IsWithinLimits limits.now network.now }
        ensures solves { IfOk result (Solves limits.now network.now) }
        ensures counted { steps.new ≤ steps.old + most_steps limits.now }
    {
        solution_of(self.alloc, limits, network, steps)
    }
}

impl Solver for PathSolver {
    fn solve(&self, limits: &Limits, network: &Network) -> Result<Solution, AllocError> {
        let blank = Blank::new(1);
        solve_apart::<Brand>(self, limits, network, blank)
    }
}

/// What the solver answers, with a count of its own.
fn solve_apart<L: Ledger>(
    solver: &PathSolver,
    limits: &Limits,
    network: &Network,
    blank: Blank,
) -> Result<Solution, AllocError>
    requires task { IsTask limits.now network.now }
    requires name { blank.name ≡ L.name }
    requires parts { blank.parts ≡ L.parts }
    requires some { 0 < blank.parts }
    ensures { IfOk result (Solves limits.now network.now) }
{
    let mut steps = Steps::<L>::new(blank);
    solver.solve_counted(limits, network, &mut steps)
}

/// A certified network and its potentials, and the old network itself where its gross is least. It is not
/// inlined, so that a profile tells what solving costs.
#[inline(never)]
fn solution_of<L: Ledger>(
    alloc: Global,
    limits: &Limits,
    network: &Network,
    steps: &mut Steps<L>,
) -> Result<Solution, AllocError>
    requires { IsTask limits.now network.now }
    ensures solves { IfOk result (Solves limits.now network.now) }
    ensures counted { steps.new ≤ steps.old + most_steps limits.now }
{
    let _members = network.members();
    let before = gross(network);
    let residual = Residual::of(alloc, limits, network, before + 1)?;
    let settled = find_prices(alloc, residual, steps)?;
    let found = settled.residual.network()?;
    let potentials = potentials_of(alloc, &settled.prices)?;
    if gross(&found) < before {
        Ok(Solution::new(found, potentials))
    } else {
        Ok(Solution::new(network.copy()?, potentials))
    }
}

/// Moves amounts until prices fit them, from the lower bounds on.
fn find_prices<L: Ledger>(
    alloc: Global,
    residual: Residual,
    steps: &mut Steps<L>,
) -> Result<Settled, AllocError>
    requires { total (flow_rows residual.flows) ≤ MOST_GROSS }
    ensures priced { IfOk result (λ settled. IsPricedAnew residual settled.residual settled.prices.items) }
    ensures counted { steps.new ≤ steps.old + (residual.members + 2) * phase_steps residual }
{
    let mut residual = residual;
    let mut balance = Balance::even(alloc, residual.members())?;
    lower_all(&mut residual, &mut balance, steps);
    let settled = settle(alloc, residual, balance, steps)?;
    Ok(settled)
}

/// The prices as potentials.
fn potentials_of(alloc: Global, prices: &[u16]) -> Result<Vec<i32>, AllocError>
    ensures { IfOk result (λ found. found.items ≡ potentials prices.now) }
{
    let mut potentials = Vec::with_capacity(alloc, prices.len())?;
    for price in prices {
        potentials.push(*price as i32)?;
    }
    Ok(potentials)
}
