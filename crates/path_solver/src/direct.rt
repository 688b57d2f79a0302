//! The first phase: straight from members that have to send to members that have to receive.

ghost use Rattle.std.specs.Prelude.{◌≡◌, ◌+◌, ◌<◌, ◌≤◌, length, map, IfOk};
ghost use Rattle.path_solver.specs.Prices.{first_price};
ghost use Rattle.path_solver.specs.Rests.{IsSentAlong};
ghost use Rattle.path_solver.specs.Balances.{AreFirst};

use crate::balance::Balance;
use residual_graph::{Flow, Residual, Steps};
use std::alloc::{AllocError, Global};
use std::sync::ledger::Ledger;

/// The prices of the first phase: 0 for the members that have to receive, and 1 for all others.
pub fn first_prices(alloc: Global, lack: &[u64]) -> Result<Vec<u16>, AllocError>
    ensures { IfOk result (λ prices. prices.items ≡ map first_price lack.now) }
{
    let mut prices = Vec::with_capacity(alloc, lack.len())?;
    for amount in lack {
        prices.push(if *amount > 0 { 0 } else { 1 })?;
    }
    Ok(prices)
}

/// Sends over a pair as much as can be sent.
#[inline(always)]
fn send_over<L: Ledger>(
    residual: &mut Residual,
    prices: &[u16],
    balance: &mut Balance,
    pair: usize,
    steps: &mut Steps<L>,
)
    requires first { AreFirst residual.old prices.now balance.old }
    requires pair { pair < length residual.old.flows }
    ensures along { IsSentAlong prices.now residual.old residual.new balance.old.surplus.items balance.old.lack.items balance.new.surplus.items balance.new.lack.items }
    ensures few { steps.new ≤ steps.old + 1 }
{
    let flow = residual.flows()[pair];
    let both = balance.between(flow.seller, flow.buyer);
    let amount = both.min(flow.room);
    if amount > 0 {
        let arc = [2 * pair as u32];
        residual.push_path(&arc, amount, steps);
        balance.take_off(flow.seller, flow.buyer, amount);
    }
}

/// The first pair of a later seller than this pair's.
fn behind_seller(flows: &[Flow], pair: usize) -> usize
    requires { pair < length flows.now }
    ensures { pair < result }
{
    let seller = flows[pair].seller;
    flows
        .partition_point(|flow| flow.seller <= seller)
        .max(pair + 1)
}

/// Sends over each pair from a member that has to send to one that has to receive as much as the three can take. At
/// these prices such a pair is tight: its arc alone is a path. Pairs of a member that has nothing to send are passed over.
pub fn send_direct<L: Ledger>(
    residual: &mut Residual,
    prices: &[u16],
    balance: &mut Balance,
    steps: &mut Steps<L>,
)
    requires { AreFirst residual.old prices.now balance.old }
    ensures along { IsSentAlong prices.now residual.old residual.new balance.old.surplus.items balance.old.lack.items balance.new.surplus.items balance.new.lack.items }
    ensures few { steps.new ≤ steps.old + length residual.old.flows }
{
    let mut pair = 0;
    while pair < residual.flows().len() {
        let seller = residual.flows()[pair].seller;
        if balance.surplus_of(seller) > 0 {
            send_over(residual, prices, balance, pair, steps);
            pair += 1;
        } else {
            pair = behind_seller(residual.flows(), pair);
        }
    }
}
