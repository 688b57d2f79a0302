//! What finds a network of least gross.

ghost use Rattle.std.specs.Prelude.{◌≡◌, IfOk};
ghost use Rattle.network_laws.specs.Limits.{IsWithinLimits};
ghost use Rattle.network_laws.specs.Solutions.{Solves};

use crate::limits::Limits;
use crate::network::Network;
use crate::solution::Solution;
use std::alloc::AllocError;

/// Finds a certified network for limits and a network within them. Where the gross cannot fall the
/// answer keeps the network as it is. The only error is want of memory.
pub trait Solver: Sync {
    fn solve(&self, limits: &Limits, network: &Network) -> Result<Solution, AllocError>
        requires same_members { limits.now.members ≡ network.now.members }
        requires within { IsWithinLimits limits.now network.now }
        ensures { IfOk result (Solves limits.now network.now) };
}
