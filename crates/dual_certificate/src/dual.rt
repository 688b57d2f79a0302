//! The dual bound.

ghost use Rattle.std.specs.Prelude.{◌≡◌, ◌↔◌, ◌+◌, ◌*◌, ◌^◌, ◌<◌, ◌≤◌, length, MatchOption, IsSome, IfSome, ℤ, pos, ◌*ℤ◌, ◌-ℤ◌};
ghost use Rattle.network_laws.specs.Limits.{HasBound, IsRisingLimits, bound_of, member_cost, int_sum_below};
ghost use Rattle.dual_certificate.specs.Bounds.{AreOpenPriced, HasUnpriced, IsBetween, IsPairCost, IsSellerCost};
ghost use Rattle.units_core.specs.declared.limits.TheConstants.{MOST_GROSS, MOST_MEMBERS};

use crate::cost::{cost_of, reduced_cost};
use net_positions::positions_of;
use network_laws::{LimitRow, Limits, Network, bounds_at, first_limit, next_limit};

/// The dual bound of potentials, in the contract's currency unit: each member's potential times its net
/// position, and the least that each pair's amount costs at its reduced cost. It is at most the gross
/// of each admissible network. `None` exactly where a pair without an upper bound has a negative
/// reduced cost. Potentials are in units of gross per unit moved, one for each member.
pub fn bound(limits: &Limits, old: &Network, potentials: &[i32]) -> Option<i128>
    requires members { limits.now.members ≡ old.now.members }
    requires potentials { length potentials.now ≡ old.now.members }
    ensures defined { IsSome result ↔ HasBound limits.now potentials.now }
    ensures value { IfSome result (λ b. b ≡ bound_of limits.now old.now potentials.now) }
{
    let Some(costs) = pair_costs(limits.rows(), potentials, old.members()) else {
        return None;
    };
    Some(member_costs(old, potentials) + costs)
}

/// Each member's potential times its net position.
fn member_costs(old: &Network, potentials: &[i32]) -> i128
    requires { length potentials.now ≡ old.now.members }
    ensures value { result ≡ int_sum_below old.now.members (member_cost potentials.now old.now) }
    ensures range { IsBetween (2 ^ 102) result }
{
    let positions = positions_of(old);
    let mut sum: i128 = 0;
    for member in 0..old.members() {
        let place = member as usize;
        let net = difference(positions.sold[place], positions.bought[place]);
        sum += priced_net(potentials[place], net);
    }
    sum
}

/// What was sold less what was bought.
fn difference(sold: u64, bought: u64) -> i64
    requires sold { sold ≤ MOST_GROSS }
    requires bought { bought ≤ MOST_GROSS }
    ensures { result ≡ pos sold -ℤ pos bought }
{
    sold as i64 - bought as i64
}

/// A potential times a net position.
fn priced_net(potential: i32, amount: i64) -> i128
    ensures value { result ≡ potential *ℤ amount }
    ensures range { IsBetween (2 ^ 94) result }
{
    i128::from(potential) * i128::from(amount)
}

/// The least costs of all pairs.
fn pair_costs(limits: &[LimitRow], potentials: &[i32], members: u16) -> Option<i128>
    requires limits { IsRisingLimits limits.now }
    requires few { members ≤ MOST_MEMBERS }
    requires potentials { length potentials.now ≡ members }
    ensures { MatchOption result (AreOpenPriced limits.now potentials.now members → ⊥) (IsPairCost limits.now potentials.now members) }
{
    let mut sum: i128 = 0;
    for seller in 0..members {
        let Some(cost) = seller_cost(limits, potentials, seller, members) else {
            return None;
        };
        sum += cost;
    }
    Some(sum)
}

/// The least costs of a seller's pairs.
fn seller_cost(limits: &[LimitRow], potentials: &[i32], seller: u16, members: u16) -> Option<i128>
    requires limits { IsRisingLimits limits.now }
    requires few { members ≤ MOST_MEMBERS }
    requires seller { seller < members }
    requires potentials { length potentials.now ≡ members }
    ensures { MatchOption result (HasUnpriced limits.now potentials.now members seller) (IsSellerCost limits.now potentials.now members seller) }
{
    let mut limit_at = first_limit(limits, seller, 0);
    let mut sum: i128 = 0;
    for buyer in 0..members {
        let bounds = bounds_at(limits, limit_at, seller, buyer);
        let Some(cost) = cost_of(reduced_cost(potentials, seller, buyer), bounds) else {
            return None;
        };
        sum += cost;
        limit_at = next_limit(limits, limit_at, seller, buyer);
    }
    Some(sum)
}
