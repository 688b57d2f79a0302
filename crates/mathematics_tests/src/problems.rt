//! Small markets as problems for a solver.

ghost use Rattle.std.specs.Prelude.{◌≡◌, ℕ, ◌<◌, ◌≤◌, IsTrue};
ghost use Rattle.network_laws.specs.Networks.{at};
ghost use Rattle.network_laws.specs.Limits.{IsWithinLimits, lower, upper, IsWithin};

use crate::networks::{Market, limits_of, network_of};
use network_laws::{Limits, Network, Problem};
use std::alloc::Global;
use std::test::Fail;

/// Whether each amount of a seller is within its pair's bounds.
fn sales_are_within(limits: &Limits, network: &Network, seller: u16) -> bool
    ensures { IsTrue result → (j : ℕ) → j < network.now.members → (lower limits.now seller j ≤ at network.now seller j) × IsWithin (at network.now seller j) (upper limits.now seller j) }
{
    for buyer in 0..network.members() {
        let amount = network.amount(seller, buyer);
        let bounds = limits.bounds(seller, buyer);
        if amount < bounds.lower {
            return false;
        }
        if let Some(most) = bounds.upper {
            if most < amount {
                return false;
            }
        }
    }
    true
}

/// Whether a network is within limits.
fn is_within(limits: &Limits, network: &Network) -> bool
    ensures { IsTrue result → IsWithinLimits limits.now network.now }
{
    for seller in 0..network.members() {
        if !sales_are_within(limits, network, seller) {
            return false;
        }
    }
    true
}

/// The problem of a market.
pub fn problem_of(alloc: Global, market: Market<'_>) -> Result<Problem, Fail> {
    let limits = limits_of(alloc, market.members, market.bounds)?;
    let network = network_of(alloc, market.members, market.sales)?;
    if !is_within(&limits, &network) {
        return Err("the network is not within the limits".into());
    }
    Ok(Problem::new(limits, network))
}
