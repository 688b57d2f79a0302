//! Both solvers: what each finds, and on the same markets of three members.

use crate::networks::{Bound, Market, Sale, has_rows, so};
use crate::problems::problem_of;
use crate::threes::{Amounts, Growing, original};
use cycle_cancel::CycleCancel;
use dual_certificate::{bound, check};
use net_positions::gross;
use network_laws::{Problem, Solver};
use path_solver::PathSolver;
use std::alloc::{AllocError, Global};
use std::test::Fail;

/// What a solver is to find: a gross, the rows, and the potentials, where these are given.
#[derive(Clone, Copy)]
pub struct Found<'a> {
    pub gross: u64,
    pub rows: &'a [Sale],
    pub potentials: Option<&'a [i32]>,
}

/// Whether a solver finds this.
fn finds<V: Solver>(solver: &V, problem: &Problem, found: Found<'_>) -> Result<bool, Fail> {
    let solution = solver.solve(problem.limits(), problem.network())?;
    let fits = match found.potentials {
        None => true,
        Some(potentials) => solution.potentials() == potentials,
    };
    Ok(fits && gross(solution.network()) == found.gross && has_rows(solution.network(), found.rows))
}

/// That both solvers find this.
pub fn both_find(alloc: Global, market: Market<'_>, found: Found<'_>) -> Result<(), Fail> {
    let problem = problem_of(alloc, market)?;
    let by_cycles = finds(&CycleCancel::new(alloc), &problem, found)?;
    let by_paths = finds(&PathSolver::new(alloc), &problem, found)?;
    so(by_cycles && by_paths, "a solver finds another network")
}

/// That what the solver by paths finds has this gross, and its potentials certify that it is least.
pub fn paths_certify(alloc: Global, problem: &Problem, least: u64) -> Result<(), Fail> {
    let limits = problem.limits();
    let old = problem.network();
    let solution = PathSolver::new(alloc).solve(limits, old)?;
    let new = solution.network();
    let potentials = solution.potentials();
    so(
        gross(new) == least
            && check(limits, old, new, potentials).is_none()
            && bound(limits, old, potentials) == Some(i128::from(least)),
        "the solution has another gross or no certificate",
    )
}

/// The gross that a solver finds.
fn gross_by<V: Solver>(solver: &V, problem: &Problem) -> Result<u64, AllocError> {
    let solution = solver.solve(problem.limits(), problem.network())?;
    Ok(gross(solution.network()))
}

/// That both solvers find the same gross.
pub fn gross_is_same(alloc: Global, problem: &Problem) -> Result<(), Fail> {
    let by_cycles = gross_by(&CycleCancel::new(alloc), problem)?;
    let by_paths = gross_by(&PathSolver::new(alloc), problem)?;
    so(by_cycles == by_paths, "the solvers find different gross")
}

/// The pairs of three members in their order, with their amounts.
fn pairs_of(of: &Amounts) -> [(u16, u16, u8); 6] {
    [
        (0, 1, of.ab),
        (0, 2, of.ac),
        (1, 0, of.ba),
        (1, 2, of.bc),
        (2, 0, of.ca),
        (2, 1, of.cb),
    ]
}

/// What was sold between three members.
fn sales_of(alloc: Global, of: &Amounts) -> Result<Vec<Sale>, AllocError> {
    let mut sales = Vec::new(alloc);
    for (seller, buyer, amount) in pairs_of(of) {
        if amount > 0 {
            sales.push((seller, buyer, u64::from(amount)))?;
        }
    }
    Ok(sales)
}

/// The bounds of three members, where these pairs may grow.
fn bounds_of(alloc: Global, of: &Amounts, growing: Growing) -> Result<Vec<Bound>, AllocError> {
    let mut bounds = Vec::new(alloc);
    for (seller, buyer, amount) in pairs_of(of) {
        let grows = match growing {
            Growing::Nobody => false,
            Growing::AAndB => seller < 2 && buyer < 2,
            Growing::All => true,
        };
        let upper = if grows { None } else { Some(u64::from(amount)) };
        bounds.push((seller, buyer, 0, upper))?;
    }
    Ok(bounds)
}

/// That both solvers find the same gross for a market of three members.
fn agree(alloc: Global, of: &Amounts, growing: Growing) -> Result<(), Fail> {
    let sales = sales_of(alloc, of)?;
    let bounds = bounds_of(alloc, of, growing)?;
    let market = Market {
        members: 3,
        sales: &sales,
        bounds: &bounds,
    };
    gross_is_same(alloc, &problem_of(alloc, market)?)
}

fn all_agree(alloc: Global) -> Result<(), Fail> {
    for number in 0..729 {
        let of = original(number);
        for growing in [Growing::Nobody, Growing::AAndB, Growing::All] {
            agree(alloc, &of, growing)?;
        }
    }
    Ok(())
}

#[test]
fn both_find_the_same_gross(rt: HostRuntime) -> Result<(), Fail> {
    all_agree(rt.alloc())
}
