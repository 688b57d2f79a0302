//! A worker's job: what it has claimed, and what it has solved.

ghost use Rattle.std.specs.Prelude.{◌≡◌, ◌+◌, ◌≤◌, [], All, IfOk, OnOk, length, vec_len};
ghost use Rattle.claim_counter.specs.Claims.{newcomer};
ghost use Rattle.claim_counter.specs.Workers.{IsWorkerOf, view_of};
ghost use Rattle.parallel_solver.specs.Jobs.{MayWork};
ghost use Rattle.units_core.specs.declared.limits.TheConstants.{MOST_WORKERS};

use crate::pieces::Pieces;
use claim_counter::{Counter, Worker};
use network_laws::Solution;
use std::alloc::{AllocError, Global};

/// A problem that was solved.
#[derive(Drop)]
pub struct Done {
    pub place: usize,
    pub solution: Solution,
}

/// A worker, and what it has solved.
#[derive(Drop)]
pub struct Job {
    pub worker: Worker,
    pub done: Vec<Done>,
    /// It has claimed until no problem was left. Where it has not, there was no memory.
    pub finished: bool,
}

/// So many jobs, whose workers are split off from the first.
pub fn jobs(
    alloc: Global,
    table: &Counter,
    pieces: &Pieces<'_>,
    first: &mut Worker,
    count: u32,
) -> Result<Vec<Job>, AllocError>
    requires own { IsWorkerOf table.now first.old }
    requires count { count ≤ MOST_WORKERS }
    requires first { view_of first.old ≡ newcomer (length pieces.now) }
    ensures jobs { IfOk result (λ jobs. (vec_len jobs ≡ count) × All (MayWork table.now pieces.now) jobs.items) }
    ensures own { OnOk result (IsWorkerOf table.now first.new) }
    ensures parts { OnOk result ((view_of first.new).parts + count ≡ 65) }
    ensures none { OnOk result ((view_of first.new).taken ≡ []) }
{
    let mut jobs = Vec::with_capacity(alloc, count as usize)?;
    for _ in 0..count {
        let done = Vec::with_capacity(alloc, pieces.len() / count as usize)?;
        jobs.push(Job {
            worker: table.split(first),
            done,
            finished: false,
        })?;
    }
    Ok(jobs)
}
