//! The gross notional of problems and of posted solutions, over all products, in the contract's currency unit.

ghost use Rattle.std.specs.Prelude.{◌≡◌};
ghost use Rattle.command_types.specs.Cycles.{gross_of_all, old_networks, new_networks};

use net_positions::gross;
use network_laws::{Problem, Solution};

/// The gross of the problems' networks.
pub fn gross_before(problems: &[Problem]) -> u128
    ensures { result ≡ gross_of_all (old_networks problems.now) }
{
    let mut sum = 0;
    for problem in problems {
        sum += gross(problem.network()) as u128;
    }
    sum
}

/// The gross of the solutions' networks.
pub fn gross_after(solutions: &[Solution]) -> u128
    ensures { result ≡ gross_of_all (new_networks solutions.now) }
{
    let mut sum = 0;
    for solution in solutions {
        sum += gross(solution.network()) as u128;
    }
    sum
}
