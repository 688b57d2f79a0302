//! The potentials of members that are in no part.

ghost use Rattle.std.specs.Prelude.{◌≡◌, ◌<◌, ℕ, length, All};
ghost use Rattle.network_laws.specs.Limits.{potential};
ghost use Rattle.network_laws.specs.Solutions.{IsPotential};
ghost use Rattle.split_parts.specs.Settled.{kept_or_zero, IsSettled};
ghost use Rattle.split_parts.specs.Own.{number_in};
ghost use Rattle.split_parts.specs.Parts.{IsRisingPart};

use crate::part::Part;
use network_laws::Solution;

// Sets the potential of each member that is not in the part to 0.
fn clear_others(part: &[u16], potentials: &mut [i32])
    requires rising { IsRisingPart part.now }
    requires in_range { All IsPotential potentials.old }
    ensures value { (m : ℕ) → m < length potentials.old → potential potentials.new m ≡ kept_or_zero (number_in part.now m) (potential potentials.old m) }
    ensures in_range { All IsPotential potentials.new }
{
    let mut passed = 0;
    for member in 0..potentials.len() {
        if passed < part.len() && part[passed] as usize == member {
            passed += 1;
        } else {
            potentials[member] = 0;
        }
    }
}

/// The same solution, but with a potential of 0 for each member that is not in the part. Where the part is the only one of
/// a problem, it is still a solution of it.
pub fn settle_others(part: &Part, solution: Solution) -> Solution
    requires rising { IsRisingPart part.now }
    ensures { IsSettled part.now solution result }
{
    let (network, mut potentials) = solution.into_parts();
    clear_others(part.members(), &mut potentials);
    Solution::new(network, potentials)
}
