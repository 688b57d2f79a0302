//! Problems solved over their pieces, and the solutions of pieces put together.

ghost use Rattle.std.specs.Prelude.{◌≡◌, ◌≤◌, ◌++◌, length, IfOk};
ghost use Rattle.network_laws.specs.Solved.{IsSolved, AreSolved};
ghost use Rattle.split_parts.specs.Parts.{IsPartitionOf};
ghost use Rattle.parallel_solver.specs.Cuts.{pieces_in, pieces_of, AreCuts};

use crate::pieces::{Pieces, cuts_of};
use crate::workers::Workers;
use network_laws::{Problem, Solution, Solver};
use outside::Gate;
use split_parts::{Partition, merge_parts, settle_others};
use std::alloc::{AllocError, Global};
use std::thread::Threads;
use std::vec::IntoIter;

// Takes so many solutions.
fn taken(
    alloc: Global,
    count: usize,
    solutions: &mut IntoIter<Solution>,
) -> Result<Vec<Solution>, AllocError>
    requires { count ≤ length solutions.old.rest.items }
    ensures size { IfOk result (λ own. length own.items ≡ count) }
    ensures rest { IfOk result (λ own. own.items ++ solutions.new.rest.items ≡ solutions.old.rest.items) }
{
    let mut own = Vec::with_capacity(alloc, count)?;
    for _ in 0..count {
        let Some(solution) = solutions.next() else {
            unreachable!()
        };
        own.push(solution)?;
    }
    Ok(own)
}

// The solution of a problem, from those of its pieces.
fn solution_of(
    alloc: Global,
    problem: &Problem,
    cut: &Partition,
    mut own: Vec<Solution>,
) -> Result<Solution, AllocError>
    requires cut { IsPartitionOf problem.now.limits cut.now }
    requires solved { AreSolved (pieces_in problem.now cut.now) own.items }
    ensures { IfOk result (IsSolved problem.now) }
{
    let parts = cut.parts();
    if parts.len() == 1 {
        let Some(whole) = own.pop() else {
            unreachable!()
        };
        let solution = settle_others(&parts[0], whole);
        let _potentials = solution.potentials();
        return Ok(solution);
    }
    let solution = merge_parts(alloc, parts, problem.network().members(), &own)?;
    let _potentials = solution.potentials();
    Ok(solution)
}

// The solutions of problems, from those of their pieces.
fn merged(
    alloc: Global,
    problems: &[Problem],
    cuts: &[Partition],
    solutions: Vec<Solution>,
) -> Result<Vec<Solution>, AllocError>
    requires cuts { AreCuts problems.now cuts.now }
    requires solved { AreSolved (pieces_of problems.now cuts.now) solutions.items }
    ensures { IfOk result (λ merged. AreSolved problems.now merged.items) }
{
    let mut solutions = solutions.into_iter();
    let mut merged = Vec::with_capacity(alloc, problems.len())?;
    for at in 0..problems.len() {
        let problem = &problems[at];
        let cut = &cuts[at];
        let own = taken(alloc, cut.parts().len(), &mut solutions)?;
        let solution = solution_of(alloc, problem, cut, own)?;
        merged.push(solution)?;
    }
    Ok(merged)
}

impl<'a, R: Threads + Sync, V: Solver, G: Gate> Workers<'a, R, V, G> {
    /// A certified solution for each problem, in order, by these workers, each of which claims one piece after another: a
    /// part of a problem, or a problem that has just one part. The only error is want of memory.
    pub fn solve_all(
        &self,
        alloc: Global,
        problems: &[Problem],
    ) -> Result<Vec<Solution>, AllocError>
        ensures { IfOk result (λ solutions. AreSolved problems.now solutions.items) }
    {
        let cuts = cuts_of(alloc, problems)?;
        let pieces = Pieces::of(alloc, problems, &cuts)?;
        let solutions = self.solve_pieces(alloc, &pieces)?;
        merged(alloc, problems, &cuts, solutions)
    }
}
