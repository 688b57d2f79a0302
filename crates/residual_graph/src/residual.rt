//! The residual graph.

ghost use Rattle.std.specs.Prelude.{◌≡◌, ◌+◌, ◌<◌, ◌≤◌, ◌*◌, ◌^◌, IfOk};
ghost use Rattle.network_laws.specs.Networks.{IsNetwork, gross};
ghost use Rattle.network_laws.specs.Limits.{AreLimits, IsWithinLimits};
ghost use Rattle.residual_graph.specs.Residual.{ResidualData, IsResidual, IsCapped, residual_of, network_of};
ghost use Rattle.residual_graph.specs.Arcs.{arc_count, tail, head, room, cost};
ghost use Rattle.residual_graph.specs.Paths.{IsPath, pushed_all};
ghost use Rattle.units_core.specs.declared.limits.TheConstants.{MOST_GROSS};

use crate::arcs::{is_forward, pair_of, push_all};
use crate::build::{flows_of, rows_of};
use crate::flow::Flow;
use crate::steps::Steps;
use network_laws::{Limits, Network};
use std::alloc::{AllocError, Global};
use std::marker::Model;
use std::sync::ledger::Ledger;

/// The residual graph of a network within its limits. Arcs come in twins: the twin of arc a is `a ^ 1`.
/// A pair's first arc leads from its seller to its buyer and grows its amount, at a cost of 1 a unit; its
/// twin leads back and lowers the amount, at a cost of -1. Pairs without an upper bound have a cap in its
/// place. There is a pair for each row of the limits, since all other pairs keep the amount 0. Amounts are
/// in the contract's currency unit.
#[derive(Drop)]
pub struct Residual {
    members: u16,
    flows: Vec<Flow>,
}

impl Model for Residual {
    ghost use Rattle.residual_graph.specs.Residual.{ResidualData, IsResidual};

    ghost Value = { ResidualData };

    ghost view = { λ a. record { members = a.members; flows = a.flows.items } };

    ghost invariant = { λ a. IsResidual (record { members = a.members; flows = a.flows.items }) };
}

impl Residual {
    /// The residual graph of a network within its limits. The only error is want of memory.
    pub fn of(
        alloc: Global,
        limits: &Limits,
        network: &Network,
        cap: u64,
    ) -> Result<Residual, AllocError>
        requires same_members { limits.now.members ≡ network.now.members }
        requires within { IsWithinLimits limits.now network.now }
        requires capped { IsCapped cap limits.now network.now }
        ensures value { IfOk result (λ r. r ≡ residual_of cap limits.now network.now) }
        ensures limits { AreLimits limits.now }
        ensures network { IsNetwork network.now }
    {
        let members = network.members();
        let flows = flows_of(alloc, limits.rows(), network, cap)?;
        Ok(Residual { members, flows })
    }

    /// The number of members.
    pub fn members(&self) -> u16
        ensures value { result ≡ self.now.members }
        ensures residual { IsResidual self.now }
    {
        self.members
    }

    /// The pairs, in rising order of seller and buyer.
    pub fn flows(&self) -> &[Flow]
        ensures value { result.now ≡ self.now.flows }
        ensures residual { IsResidual self.now }
    {
        &self.flows
    }

    /// The number of arcs, which are numbered from 0.
    pub fn arcs(&self) -> u32
        ensures value { result ≡ arc_count self.now.flows }
        ensures residual { IsResidual self.now }
    {
        2 * self.flows.len() as u32
    }

    /// The member at which an arc starts.
    pub fn tail(&self, arc: u32) -> u16
        requires { arc < arc_count self.now.flows }
        ensures value { result ≡ tail self.now.flows arc }
        ensures member { result < self.now.members }
    {
        let flow = self.flows[pair_of(arc)];
        if is_forward(arc) {
            flow.seller
        } else {
            flow.buyer
        }
    }

    /// The member at which an arc ends.
    pub fn head(&self, arc: u32) -> u16
        requires { arc < arc_count self.now.flows }
        ensures value { result ≡ head self.now.flows arc }
        ensures member { result < self.now.members }
    {
        let flow = self.flows[pair_of(arc)];
        if is_forward(arc) {
            flow.buyer
        } else {
            flow.seller
        }
    }

    /// The most that an arc can take.
    pub fn room(&self, arc: u32) -> u64
        requires { arc < arc_count self.now.flows }
        ensures { result ≡ room self.now.flows arc }
    {
        let flow = self.flows[pair_of(arc)];
        if is_forward(arc) {
            flow.room
        } else {
            flow.back
        }
    }

    /// What a unit along an arc adds to the gross.
    pub fn cost(&self, arc: u32) -> i32
        requires { arc < arc_count self.now.flows }
        ensures { result ≡ cost arc }
    {
        if is_forward(arc) { 1 } else { -1 }
    }

    /// Moves an amount along a path that can take it: each of its arcs has that much less room, its twin that much
    /// more, and no other arc changes. It counts one step, also where the path has no arcs, and takes no memory.
    #[inline(always)]
    pub fn push_path<L: Ledger>(&mut self, path: &[u32], amount: u64, steps: &mut Steps<L>)
        requires { IsPath amount self.old.flows path.now }
        ensures pushed { self.new ≡ record self.old { flows = pushed_all amount self.old.flows path.now } }
        ensures residual { IsResidual self.new }
        ensures counted { steps.new ≡ steps.old + 1 }
    {
        push_all(&mut self.flows, path, amount);
        steps.add_one();
    }

    /// The network that the pairs are. The only error is want of memory.
    pub fn network(&self) -> Result<Network, AllocError>
        requires { gross (network_of self.now) ≤ MOST_GROSS }
        ensures { IfOk result (λ y. y ≡ network_of self.now) }
    {
        let rows = rows_of(*self.flows.allocator(), &self.flows, self.members)?;
        match Network::from_rows(self.members, rows) {
            Ok(network) => Ok(network),
            Err(_) => unreachable!(),
        }
    }
}
