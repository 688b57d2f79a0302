//! Arcs by number: pair k has arc 2 k from its seller to its buyer, and arc 2 k + 1 back.

ghost use Rattle.std.specs.Prelude.{◌≡◌, ◌≤◌, All};
ghost use Rattle.residual_graph.specs.Arcs.{pair, is_forward, room_in, moved};
ghost use Rattle.residual_graph.specs.Paths.{IsPath, pushed_all};
ghost use Rattle.residual_graph.specs.Built.{IsSmall};

use crate::flow::Flow;

/// The pair of an arc.
pub fn pair_of(arc: u32) -> usize
    ensures { result ≡ pair arc }
{
    (arc / 2) as usize
}

/// Whether an arc leads from seller to buyer.
pub fn is_forward(arc: u32) -> bool
    ensures { result ≡ is_forward arc }
{
    arc % 2 == 0
}

/// Moves an amount over a pair, from seller to buyer or back.
#[inline(always)]
fn move_over(flow: &mut Flow, forward: bool, amount: u64)
    requires room { amount ≤ room_in flow.old forward }
    requires small { IsSmall flow.old }
    ensures { flow.new ≡ moved amount forward flow.old }
{
    if forward {
        flow.back += amount;
        flow.room -= amount;
    } else {
        flow.room += amount;
        flow.back -= amount;
    }
}

/// Moves an amount along a path.
#[inline(always)]
pub fn push_all(flows: &mut [Flow], path: &[u32], amount: u64)
    requires path { IsPath amount flows.old path.now }
    requires small { All IsSmall flows.old }
    ensures { flows.new ≡ pushed_all amount flows.old path.now }
{
    for arc in path {
        move_over(&mut flows[pair_of(*arc)], is_forward(*arc), amount);
    }
}
