//! The solutions that were found, each in the place of its piece.

ghost use Rattle.std.specs.Prelude.{◌≡◌, ◌+◌, ◌≤◌, [], ◌∷◌, All, IfOk, OnOk, vec_len};
ghost use Rattle.claim_counter.specs.Workers.{IsWorkerOf, view_of};
ghost use Rattle.network_laws.specs.Solved.{AreSolved};
ghost use Rattle.parallel_solver.specs.Jobs.{IsRight, HasWorked, AreRight, FindsToo, AreFound};
ghost use Rattle.units_core.specs.declared.limits.TheConstants.{MOST_WORKERS};

use crate::job::{Done, Job};
use crate::pieces::Pieces;
use claim_counter::{Counter, Worker};
use network_laws::Solution;
use std::alloc::{AllocError, Global};

/// A place for a solution of each piece.
pub fn places(alloc: Global, pieces: &Pieces<'_>) -> Result<Vec<Option<Solution>>, AllocError>
    ensures { IfOk result (λ found. AreRight pieces.now found.items) }
{
    let mut found = Vec::with_capacity(alloc, pieces.len())?;
    for _ in 0..pieces.len() {
        found.push(None)?;
    }
    Ok(found)
}

// Puts a solution into its place.
fn put(pieces: &Pieces<'_>, found: &mut [Option<Solution>], done: Done)
    requires right { IsRight pieces.now done }
    requires found { AreRight pieces.now found.old }
    ensures right { AreRight pieces.now found.new }
    ensures found { FindsToo found.old (done ∷ []) found.new }
{
    let Done { place, solution } = done;
    found[place] = Some(solution);
}

// Puts solutions into their places.
fn put_all(pieces: &Pieces<'_>, found: &mut [Option<Solution>], mut done: Vec<Done>)
    requires right { All (IsRight pieces.now) done.items }
    requires found { AreRight pieces.now found.old }
    ensures right { AreRight pieces.now found.new }
    ensures found { FindsToo found.old done.items found.new }
{
    while let Some(one) = done.pop() {
        put(pieces, found, one);
    }
}

/// Puts the solutions of all jobs into their places. Where all workers have finished, the claims that the first has taken
/// in tell that each piece was claimed, and so solved: a place is left only where there was no memory.
pub fn put_jobs(
    table: &Counter,
    pieces: &Pieces<'_>,
    first: &mut Worker,
    found: &mut [Option<Solution>],
    mut jobs: Vec<Job>,
) -> Result<(), AllocError>
    requires own { IsWorkerOf table.now first.old }
    requires parts { (view_of first.old).parts + vec_len jobs ≡ 65 }
    requires none { (view_of first.old).taken ≡ [] }
    requires count { (1 ≤ vec_len jobs) × (vec_len jobs ≤ MOST_WORKERS) }
    requires jobs { All (HasWorked table.now pieces.now) jobs.items }
    requires found { AreRight pieces.now found.old }
    ensures right { OnOk result (AreRight pieces.now found.new) }
    ensures found { OnOk result (AreFound pieces.now found.new) }
{
    while let Some(job) = jobs.pop() {
        let Job {
            worker,
            done,
            finished,
        } = job;
        if !finished {
            return Err(AllocError);
        }
        table.join(first, worker);
        put_all(pieces, found, done);
    }
    table.claimed(first);
    Ok(())
}

/// The solutions that were found, one for each piece.
pub fn collected(
    alloc: Global,
    pieces: &Pieces<'_>,
    found: Vec<Option<Solution>>,
) -> Result<Vec<Solution>, AllocError>
    requires right { AreRight pieces.now found.items }
    requires all { AreFound pieces.now found.items }
    ensures { IfOk result (λ solutions. AreSolved pieces.now solutions.items) }
{
    let mut solutions = Vec::with_capacity(alloc, found.len())?;
    for slot in found {
        let Some(solution) = slot else { unreachable!() };
        solutions.push(solution)?;
    }
    Ok(solutions)
}
