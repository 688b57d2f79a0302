//! The start: every pair at its lower bound.

ghost use Rattle.std.specs.Prelude.{◌≡◌, ℕ, ◌+◌, ◌<◌, ◌≤◌, ◌^◌, length, slice_index};
ghost use Rattle.network_laws.specs.Networks.{total};
ghost use Rattle.residual_graph.specs.Residual.{flow_rows};
ghost use Rattle.path_solver.specs.Rests.{AreApart};
ghost use Rattle.path_solver.specs.Balances.{IsEven, IsOwedBack};
ghost use Rattle.units_core.specs.declared.limits.TheConstants.{MOST_GROSS};

use crate::balance::Balance;
use residual_graph::{Residual, Steps};
use std::sync::ledger::Ledger;

/// Takes each pair back to its lower bound, and tells what each member then has to send or to receive to
/// have its net position again.
pub fn lower_all<L: Ledger>(residual: &mut Residual, balance: &mut Balance, steps: &mut Steps<L>)
    requires even { IsEven residual.old.members balance.old }
    requires gross { total (flow_rows residual.old.flows) ≤ MOST_GROSS }
    ensures owed { IsOwedBack residual.old residual.new balance.new }
    ensures apart { AreApart balance.new.surplus.items balance.new.lack.items }
    ensures few { steps.new ≤ steps.old + length residual.old.flows }
{
    take_back(residual, balance, steps);
    net_out(balance);
}

/// Takes each pair back to its lower bound. The seller then has to send what it sold above that, and the
/// buyer to receive it.
fn take_back<L: Ledger>(residual: &mut Residual, balance: &mut Balance, steps: &mut Steps<L>)
    requires even { IsEven residual.old.members balance.old }
    requires gross { total (flow_rows residual.old.flows) ≤ MOST_GROSS }
    ensures owed { IsOwedBack residual.old residual.new balance.new }
    ensures few { steps.new ≤ steps.old + length residual.old.flows }
{
    for pair in 0..residual.flows().len() {
        let flow = residual.flows()[pair];
        if flow.back > 0 {
            let arc = [2 * pair as u32 + 1];
            residual.push_path(&arc, flow.back, steps);
            balance.add(flow.seller, flow.buyer, flow.back);
        }
    }
}

/// What a member has to send and to receive cancels.
fn net_out(balance: &mut Balance)
    requires { length balance.old.surplus.items ≡ length balance.old.lack.items }
    ensures surplus { length balance.new.surplus.items ≡ length balance.old.surplus.items }
    ensures lack { length balance.new.lack.items ≡ length balance.old.lack.items }
    ensures apart { AreApart balance.new.surplus.items balance.new.lack.items }
    ensures same { (i : ℕ) → slice_index balance.new.surplus.items i + slice_index balance.old.lack.items i ≡ slice_index balance.old.surplus.items i + slice_index balance.new.lack.items i }
{
    for member in 0..balance.surplus.len() {
        let both = balance.surplus[member].min(balance.lack[member]);
        balance.surplus[member] -= both;
        balance.lack[member] -= both;
    }
}
