//! Solving while paths are counted, with the least gross worked out by hand.

ghost use Rattle.std.specs.Prelude.{◌≡◌, ◌<◌};

use crate::networks::{Market, OPEN_3, so};
use crate::problems::problem_of;
use net_positions::gross;
use path_solver::PathSolver;
use residual_graph::Steps;
use std::alloc::Global;
use std::marker::Brand;
use std::sync::ledger::{Blank, Ledger};
use std::test::Fail;

/// The gross that the solver finds while a new count goes on.
fn found_counting<L: Ledger>(alloc: Global, market: Market<'_>, blank: Blank) -> Result<u64, Fail>
    requires name { blank.name ≡ L.name }
    requires parts { blank.parts ≡ L.parts }
    requires some { 0 < blank.parts }
{
    let mut steps = Steps::<L>::new(blank);
    let problem = problem_of(alloc, market)?;
    let solver = PathSolver::new(alloc);
    let solution = solver.solve_counted(problem.limits(), problem.network(), &mut steps)?;
    Ok(gross(solution.network()))
}

/// The gross that the solver finds.
fn gross_of(alloc: Global, market: Market<'_>) -> Result<u64, Fail> {
    let blank = Blank::new(1);
    found_counting::<Brand>(alloc, market, blank)
}

/// A chain among dealers, a ring of old pairs, and the gross to which each falls.
const MARKETS: &[(Market<'static>, u64)] = &[
    (
        Market {
            members: 3,
            sales: &[(0, 1, 10), (1, 2, 7)],
            bounds: OPEN_3,
        },
        10,
    ),
    (
        Market {
            members: 3,
            sales: &[(0, 1, 10), (1, 2, 10), (2, 0, 10)],
            bounds: &[
                (0, 1, 0, Some(10)),
                (1, 2, 0, Some(10)),
                (2, 0, 0, Some(10)),
            ],
        },
        0,
    ),
];

fn all_fall(alloc: Global) -> Result<(), Fail> {
    for &(market, least) in MARKETS {
        so(gross_of(alloc, market)? == least, "the gross is otherwise")?;
    }
    Ok(())
}

#[test]
fn a_chain_among_dealers_and_a_ring_fall_while_paths_are_counted(
    rt: HostRuntime,
) -> Result<(), Fail> {
    all_fall(rt.alloc())
}
