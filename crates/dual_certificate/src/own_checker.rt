//! The test of what a certificate says of one member, which takes no rows but the member's own.

ghost use Rattle.std.specs.Prelude.{◌≡◌, ◌↔◌, ◌<◌, ◌≤◌, length, IsNone};
ghost use Rattle.network_laws.specs.Clash.{first_below, pair_bounds_clash, pair_price_clash};
ghost use Rattle.dual_certificate.specs.Own.{IsCertifiedFor, first_own_clash, own_pair};

use crate::bounds_test::clash_with_bounds;
use crate::cost::reduced_cost;
use crate::price_test::clash_with_price;
use net_positions::net;
use network_laws::{Clash, Limits, Network};

/// A member's first clash with the limits, its old net position and the potentials; `None` exactly where the new network
/// is certified for it. Limits and networks may have all rows, or those alone in which the member has a side: the answer
/// means the same. Where all members find none, or all but one, the network is certified. Potentials are in units of gross
/// per unit moved, one for each member; those of members with which this one can have no amount don't matter.
///
/// The order of clashes: the member's pairs by the other member, where it sells before where it buys, with `Below` before
/// `Above`; then its net position; then the pairs again, with `Open` before `Slack`.
pub fn check_own(
    limits: &Limits,
    old: &Network,
    new: &Network,
    potentials: &[i32],
    member: u16,
) -> Option<Clash>
    requires new_members { new.now.members ≡ old.now.members }
    requires potentials { length potentials.now ≡ old.now.members }
    requires member { member < old.now.members }
    ensures clash { result ≡ first_own_clash limits.now old.now new.now potentials.now member }
    ensures certified { IsNone result ↔ IsCertifiedFor limits.now old.now new.now potentials.now member }
{
    if let Some(clash) = own_bounds_clash(limits, new, member) {
        return Some(clash);
    }
    if net(new, member) != net(old, member) {
        return Some(Clash::Net { member });
    }
    own_price_clash(limits, new, potentials, member)
}

/// The first of the member's pairs whose amount is out of its bounds.
fn own_bounds_clash(limits: &Limits, new: &Network, member: u16) -> Option<Clash>
    ensures { result ≡ first_below new.now.members (own_pair (pair_bounds_clash limits.now new.now) member) }
{
    for other in 0..new.members() {
        let sold = bounds_clash_of(limits, new, member, other);
        let bought = bounds_clash_of(limits, new, other, member);
        if let Some(clash) = sold.or(bought) {
            return Some(clash);
        }
    }
    None
}

/// What is wrong with a pair's amount beside its bounds.
fn bounds_clash_of(limits: &Limits, new: &Network, seller: u16, buyer: u16) -> Option<Clash>
    ensures { result ≡ pair_bounds_clash limits.now new.now seller buyer }
{
    let amount = new.amount(seller, buyer);
    let bounds = limits.bounds(seller, buyer);
    clash_with_bounds(seller, buyer, amount, bounds)
}

/// The first of the member's pairs whose amount could be moved at a gain.
fn own_price_clash(limits: &Limits, new: &Network, potentials: &[i32], member: u16) -> Option<Clash>
    requires potentials { length potentials.now ≡ new.now.members }
    requires member { member < new.now.members }
    ensures { result ≡ first_below new.now.members (own_pair (pair_price_clash limits.now new.now potentials.now) member) }
{
    for other in 0..new.members() {
        let sold = price_clash_of(limits, new, potentials, member, other);
        let bought = price_clash_of(limits, new, potentials, other, member);
        if let Some(clash) = sold.or(bought) {
            return Some(clash);
        }
    }
    None
}

/// What is wrong with a pair's amount beside its bounds and its reduced cost.
fn price_clash_of(
    limits: &Limits,
    new: &Network,
    potentials: &[i32],
    seller: u16,
    buyer: u16,
) -> Option<Clash>
    requires seller { seller < length potentials.now }
    requires buyer { buyer < length potentials.now }
    ensures { result ≡ pair_price_clash limits.now new.now potentials.now seller buyer }
{
    let amount = new.amount(seller, buyer);
    let bounds = limits.bounds(seller, buyer);
    let cost = reduced_cost(potentials, seller, buyer);
    clash_with_price(seller, buyer, amount, bounds, cost)
}
