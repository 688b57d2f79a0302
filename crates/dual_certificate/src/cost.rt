//! The reduced cost of a pair, and the least that its amount costs.

ghost use Rattle.std.specs.Prelude.{◌≡◌, ◌^◌, ◌<◌, ◌≤◌, length, MatchOption, None, ℤ, pos, ◌≤ℤ◌, ◌<ℤ◌, ◌*ℤ◌};
ghost use Rattle.network_laws.specs.Limits.{reduced, least_cost};
ghost use Rattle.dual_certificate.specs.Bounds.{IsBetween};

use network_laws::Bounds;

/// One less the seller's potential and with the buyer's: what a unit from the seller to the buyer adds
/// to the gross beside the potentials.
pub fn reduced_cost(potentials: &[i32], seller: u16, buyer: u16) -> i64
    requires seller { seller < length potentials.now }
    requires buyer { buyer < length potentials.now }
    ensures value { result ≡ reduced potentials.now seller buyer }
    ensures range { IsBetween (2 ^ 33) result }
{
    1 - i64::from(potentials[seller as usize]) + i64::from(potentials[buyer as usize])
}

/// The least cost of an amount within bounds; `None` where there is none, since the cost of a unit is
/// negative and nothing limits the amount.
pub fn cost_of(cost: i64, bounds: Bounds) -> Option<i128>
    requires { IsBetween (2 ^ 33) cost }
    ensures { MatchOption result ((cost <ℤ pos 0) × (bounds.upper ≡ None)) (λ sum. (bounds.upper ≡ None → pos 0 ≤ℤ cost) × (sum ≡ least_cost cost bounds.lower bounds.upper) × IsBetween (2 ^ 98) sum) }
{
    if cost >= 0 {
        return Some(times(cost, bounds.lower));
    }
    match bounds.upper {
        Some(upper) => Some(times(cost, upper)),
        None => None,
    }
}

fn times(cost: i64, amount: u64) -> i128
    requires { IsBetween (2 ^ 33) cost }
    ensures value { result ≡ cost *ℤ pos amount }
    ensures range { IsBetween (2 ^ 98) result }
{
    i128::from(cost) * i128::from(amount)
}
