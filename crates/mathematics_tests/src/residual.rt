//! The residual graph of a chain of three members, and what a push makes of it.

ghost use Rattle.std.specs.Prelude.{◌≡◌, ◌^◌, ◌<◌, ◌≤◌};

use crate::networks::{Market, so};
use crate::problems::problem_of;
use residual_graph::{Residual, Steps};
use std::alloc::Global;
use std::marker::Brand;
use std::sync::ledger::{Blank, Ledger};
use std::test::Fail;

const CAP: u64 = 1_000_000_000_000_000_001;

/// The chain of 10 and 7: the first pair has a floor of 2, the second may take 2 more, and the first
/// member may sell any amount to the last.
fn chain(alloc: Global, cap: u64) -> Result<Residual, Fail>
    requires { 10 ^ 18 ≤ cap }
{
    let market = Market {
        members: 3,
        sales: &[(0, 1, 10), (1, 2, 7)],
        bounds: &[(0, 1, 2, Some(10)), (0, 2, 0, None), (1, 2, 0, Some(9))],
    };
    let problem = problem_of(alloc, market)?;
    let residual = Residual::of(alloc, problem.limits(), problem.network(), cap)?;
    Ok(residual)
}

/// Whether the arcs have these tails, heads, rooms and costs, and there are no others.
fn has_arcs(residual: &Residual, arcs: &[(u16, u16, u64, i32)]) -> bool {
    if residual.arcs() as usize != arcs.len() {
        return false;
    }
    for arc in 0..residual.arcs() {
        let (tail, head, room, cost) = arcs[arc as usize];
        if residual.tail(arc) != tail
            || residual.head(arc) != head
            || residual.room(arc) != room
            || residual.cost(arc) != cost
        {
            return false;
        }
    }
    true
}

#[test]
fn a_chain_has_six_arcs(rt: HostRuntime) -> Result<(), Fail> {
    let residual = chain(rt.alloc(), CAP)?;
    let arcs = [
        (0, 1, 0, 1),
        (1, 0, 8, -1),
        (0, 2, CAP, 1),
        (2, 0, 0, -1),
        (1, 2, 2, 1),
        (2, 1, 7, -1),
    ];
    let holds = residual.members() == 3 && has_arcs(&residual, &arcs);
    so(holds, "the arcs are otherwise")
}

/// Moves an amount along an arc alone, where it can take it.
fn try_push<L: Ledger>(
    residual: &mut Residual,
    arc: u32,
    amount: u64,
    steps: &mut Steps<L>,
) -> bool {
    if arc < residual.arcs() && amount <= residual.room(arc) {
        let path = [arc];
        residual.push_path(&path, amount, steps);
        return true;
    }
    false
}

/// Whether amounts can be moved along arcs, one behind the other, or not, as it says beside each.
fn takes_all<L: Ledger>(residual: &mut Residual, pushes: &[(u32, u64, bool)], blank: Blank) -> bool
    requires name { blank.name ≡ L.name }
    requires parts { blank.parts ≡ L.parts }
    requires some { 0 < blank.parts }
{
    let mut steps = Steps::<L>::new(blank);
    for &(arc, amount, taken) in pushes {
        if try_push(residual, arc, amount, &mut steps) != taken {
            return false;
        }
    }
    true
}

/// The same, over a new count.
fn takes(residual: &mut Residual, pushes: &[(u32, u64, bool)]) -> bool {
    let blank = Blank::new(1);
    takes_all::<Brand>(residual, pushes, blank)
}

#[test]
fn a_push_round_a_cycle_shortens_the_chain(rt: HostRuntime) -> Result<(), Fail> {
    let mut residual = chain(rt.alloc(), CAP)?;
    let pushes = [(5, 8, false), (2, 7, true), (5, 7, true), (1, 7, true)];
    let arcs = [
        (0, 1, 7, 1),
        (1, 0, 1, -1),
        (0, 2, CAP - 7, 1),
        (2, 0, 7, -1),
        (1, 2, 9, 1),
        (2, 1, 0, -1),
    ];
    let holds = takes(&mut residual, &pushes) && has_arcs(&residual, &arcs);
    so(holds, "the arcs are otherwise")
}
