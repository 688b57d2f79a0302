//! Posted solutions.

ghost use Rattle.std.specs.Prelude.{◌≡◌, All, IfOk};
ghost use Rattle.network_laws.specs.Solutions.{IsSolution};

use network_laws::Solution;
use std::alloc::{AllocError, Global};

/// Each of them keeps what a solution keeps.
pub(super) fn are_solutions(solutions: &[Solution])
    ensures { All IsSolution solutions.now }
{
    for solution in solutions {
        solution.network();
    }
}

/// Equal solutions in memory of their own. The only error is want of memory.
pub(super) fn copies(alloc: Global, solutions: &[Solution]) -> Result<Vec<Solution>, AllocError>
    ensures { IfOk result (λ copies. copies.items ≡ solutions.now) }
{
    let mut copies = Vec::new(alloc);
    for solution in solutions {
        let copy = solution.copy()?;
        copies.push(copy)?;
    }
    Ok(copies)
}
