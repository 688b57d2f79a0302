//! Whether no pair's amount could be moved at a gain: complementary slackness.

ghost use Rattle.std.specs.Prelude.{◌≡◌, ◌↔◌, ◌≤◌, length, IsTrue};
ghost use Rattle.network_laws.specs.Clash.{is_below, price_clash, first_pair};
ghost use Rattle.dual_certificate.specs.Walks.{ArePairs, rows_price_clash};

use crate::cost::reduced_cost;
use crate::pair_cursor::{PairCursor, Pairs};
use network_laws::{Bounds, Clash};

/// The first pair whose amount could be moved at a gain.
pub(super) fn first_price_clash(pairs: &Pairs, potentials: &[i32]) -> Option<Clash>
    requires pairs { ArePairs pairs.now }
    requires potentials { pairs.now.members ≤ length potentials.now }
    ensures { result ≡ first_pair pairs.now.members (rows_price_clash pairs.now.limits.now pairs.now.rows.now potentials.now) }
{
    let mut pair = PairCursor::first(pairs);
    while pair.is_pair() {
        let amount = pair.amount(pairs);
        let bounds = pair.bounds(pairs);
        let seller = pair.seller();
        let buyer = pair.buyer();
        let cost = reduced_cost(potentials, seller, buyer);
        if let Some(clash) = clash_with_price(seller, buyer, amount, bounds, cost) {
            return Some(clash);
        }
        pair = pair.next(pairs);
    }
    None
}

/// What is wrong with an amount beside its bounds and its reduced cost.
pub(super) fn clash_with_price(
    seller: u16,
    buyer: u16,
    amount: u64,
    bounds: Bounds,
    cost: i64,
) -> Option<Clash>
    ensures { result ≡ price_clash seller buyer amount bounds.lower bounds.upper cost }
{
    if is_below(amount, bounds.upper) && cost < 0 {
        return Some(Clash::Open { seller, buyer });
    }
    if bounds.lower < amount && cost > 0 {
        return Some(Clash::Slack { seller, buyer });
    }
    None
}

/// Whether an amount is below its upper bound; with none, always.
fn is_below(amount: u64, upper: Option<u64>) -> bool
    ensures { result ≡ is_below amount upper }
{
    match upper {
        Some(most) => amount < most,
        None => true,
    }
}
