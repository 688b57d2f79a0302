//! Markets that are cut into parts, solved part by part, and put together again.

use crate::networks::{Bound, Market, Sale, has_rows, so};
use crate::problems::problem_of;
use network_laws::Solution;
use outside::OpenGate;
use parallel_solver::Workers;
use path_solver::PathSolver;
use split_parts::{Parts, merge, split};
use std::alloc::AllocGlobal;
use std::test::Fail;
use std::thread::Threads;

// Two rings of three members each, which nobody may leave.
const RINGS: [Sale; 6] = [
    (0, 1, 10),
    (1, 2, 10),
    (2, 0, 10),
    (3, 4, 4),
    (4, 5, 4),
    (5, 3, 4),
];

const RING_BOUNDS: [Bound; 6] = [
    (0, 1, 0, Some(10)),
    (1, 2, 0, Some(10)),
    (2, 0, 0, Some(10)),
    (3, 4, 0, Some(4)),
    (4, 5, 0, Some(4)),
    (5, 3, 0, Some(4)),
];

// Each pair may have any amount.
const OPEN_6: [Bound; 30] = [
    (0, 1, 0, None),
    (0, 2, 0, None),
    (0, 3, 0, None),
    (0, 4, 0, None),
    (0, 5, 0, None),
    (1, 0, 0, None),
    (1, 2, 0, None),
    (1, 3, 0, None),
    (1, 4, 0, None),
    (1, 5, 0, None),
    (2, 0, 0, None),
    (2, 1, 0, None),
    (2, 3, 0, None),
    (2, 4, 0, None),
    (2, 5, 0, None),
    (3, 0, 0, None),
    (3, 1, 0, None),
    (3, 2, 0, None),
    (3, 4, 0, None),
    (3, 5, 0, None),
    (4, 0, 0, None),
    (4, 1, 0, None),
    (4, 2, 0, None),
    (4, 3, 0, None),
    (4, 5, 0, None),
    (5, 0, 0, None),
    (5, 1, 0, None),
    (5, 2, 0, None),
    (5, 3, 0, None),
    (5, 4, 0, None),
];

// Two pairs, one inside the other, and a closed pair between them; member 2 has no open pair.
const PAIRS: [Sale; 4] = [(0, 4, 5), (1, 3, 7), (3, 1, 2), (4, 0, 1)];

const PAIR_BOUNDS: [Bound; 5] = [
    (0, 1, 0, Some(0)),
    (0, 4, 0, None),
    (1, 3, 3, Some(9)),
    (3, 1, 0, None),
    (4, 0, 1, Some(1)),
];

// One pair among five members, whose sale has to stay.
const LINK: [Sale; 1] = [(1, 3, 5)];

const LINK_BOUNDS: [Bound; 1] = [(1, 3, 0, Some(9))];

// A chain of pairs that are open in one direction alone, from its last member to its first.
const CHAIN_BOUNDS: [Bound; 2] = [(1, 0, 0, None), (2, 1, 0, Some(3))];

fn are_parts(parts: &Parts, members: &[&[u16]]) -> bool {
    if parts.members().len() != members.len() {
        return false;
    }
    for (part, list) in parts.members().iter().zip(members) {
        if part.members() != *list {
            return false;
        }
    }
    true
}

// Whether a solution has these rows, and a potential of 0 for each member that is in none of the parts.
fn suits(solution: &Solution, members: &[&[u16]], least: &[Sale]) -> bool {
    for (member, potential) in solution.potentials().iter().enumerate() {
        if *potential != 0 && members.iter().all(|list| !list.contains(&(member as u16))) {
            return false;
        }
    }
    has_rows(solution.network(), least)
}

/// Whether a market has these parts, and these rows are its solution where the parts' solutions are put together.
fn is_solved_apart<R: Threads + Sync + AllocGlobal>(
    rt: &R,
    market: Market<'_>,
    members: &[&[u16]],
    least: &[Sale],
) -> Result<bool, Fail> {
    let solver = PathSolver::new(rt.alloc());
    let problem = problem_of(rt.alloc(), market)?;
    let parts = split(rt.alloc(), problem.limits(), problem.network())?;
    let workers = Workers::new(rt, 2, &solver, &OpenGate);
    let solutions = workers.solve_all(rt.alloc(), parts.problems())?;
    let merged = merge(rt.alloc(), &parts, problem.network().members(), &solutions)?;
    Ok(are_parts(&parts, members) && suits(&merged, members, least))
}

/// Whether these rows are the solution of a market that is solved as a whole.
fn is_solved<R: Threads + Sync + AllocGlobal>(
    rt: &R,
    market: Market<'_>,
    members: &[&[u16]],
    least: &[Sale],
) -> Result<bool, Fail> {
    let solver = PathSolver::new(rt.alloc());
    let problems = Vec::from_array(rt.alloc(), [problem_of(rt.alloc(), market)?])?;
    let solved = Workers::new(rt, 2, &solver, &OpenGate).solve_all(rt.alloc(), &problems)?;
    match solved.first() {
        Some(whole) => Ok(suits(whole, members, least)),
        None => Ok(false),
    }
}

/// Members, what they sold to one another, the bounds of their pairs, the parts, and the rows of the solution.
type Case = (
    u16,
    &'static [Sale],
    &'static [Bound],
    &'static [&'static [u16]],
    &'static [Sale],
);

const CASES: &[Case] = &[
    (6, &RINGS, &RING_BOUNDS, &[&[0, 1, 2], &[3, 4, 5]], &[]),
    (6, &RINGS, &OPEN_6, &[&[0, 1, 2, 3, 4, 5]], &[]),
    (
        5,
        &PAIRS,
        &PAIR_BOUNDS,
        &[&[0, 4], &[1, 3]],
        &[(0, 4, 5), (1, 3, 5), (4, 0, 1)],
    ),
    (5, &LINK, &LINK_BOUNDS, &[&[1, 3]], &LINK),
    (3, &[], &CHAIN_BOUNDS, &[&[0, 1, 2]], &[]),
    (3, &[], &[], &[], &[]),
];

fn all_are_solved<R: Threads + Sync + AllocGlobal>(rt: &R) -> Result<(), Fail> {
    for &(members, sales, bounds, parts, least) in CASES {
        let market = Market {
            members,
            sales,
            bounds,
        };
        let apart = is_solved_apart(rt, market, parts, least)?;
        let whole = is_solved(rt, market, parts, least)?;
        so(apart && whole, "the parts or the solution are otherwise")?;
    }
    Ok(())
}

#[test]
fn parts_are_solved_apart(rt: HostRuntime) -> Result<(), Fail> {
    all_are_solved(&rt)
}
