//! Copies of a version's problems.

ghost use Rattle.std.specs.Prelude.{◌≡◌, IfOk};

use network_laws::Problem;
use std::alloc::{AllocError, Global};

// An equal problem in memory of its own. The only error is want of memory.
fn problem_copy(problem: &Problem) -> Result<Problem, AllocError>
    ensures { IfOk result (λ copy. copy ≡ problem.now) }
{
    let limits = problem.limits().copy()?;
    let network = problem.network().copy()?;
    Ok(Problem::new(limits, network))
}

/// Equal problems in memory of their own. The only error is want of memory.
pub(super) fn problem_copies(
    alloc: Global,
    problems: &[Problem],
) -> Result<Vec<Problem>, AllocError>
    ensures { IfOk result (λ copies. copies.items ≡ problems.now) }
{
    let mut copies = Vec::new(alloc);
    for problem in problems {
        let copy = problem_copy(problem)?;
        copies.push(copy)?;
    }
    Ok(copies)
}
