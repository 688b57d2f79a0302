//! Whether nothing is wrong with any pair: bounds and prices in one walk, so that what is certified is walked once.

ghost use Rattle.std.specs.Prelude.{◌≡◌, ◌≤◌, true, None, length};
ghost use Rattle.network_laws.specs.Clash.{first_pair};
ghost use Rattle.dual_certificate.specs.Walks.{ArePairs, rows_bounds_clash, rows_price_clash};

use crate::bounds_test::clash_with_bounds;
use crate::cost::reduced_cost;
use crate::pair_cursor::{PairCursor, Pairs};
use crate::price_test::clash_with_price;

/// Whether no pair's amount is out of its bounds, and none could be moved at a gain.
pub(super) fn are_clean(pairs: &Pairs, potentials: &[i32]) -> bool
    requires pairs { ArePairs pairs.now }
    requires potentials { pairs.now.members ≤ length potentials.now }
    ensures bounds { result ≡ true → first_pair pairs.now.members (rows_bounds_clash pairs.now.limits.now pairs.now.rows.now) ≡ None }
    ensures prices { result ≡ true → first_pair pairs.now.members (rows_price_clash pairs.now.limits.now pairs.now.rows.now potentials.now) ≡ None }
{
    let mut pair = PairCursor::first(pairs);
    while pair.is_pair() {
        let amount = pair.amount(pairs);
        let bounds = pair.bounds(pairs);
        let seller = pair.seller();
        let buyer = pair.buyer();
        if let Some(_) = clash_with_bounds(seller, buyer, amount, bounds) {
            return false;
        }
        let cost = reduced_cost(potentials, seller, buyer);
        if let Some(_) = clash_with_price(seller, buyer, amount, bounds, cost) {
            return false;
        }
        pair = pair.next(pairs);
    }
    true
}
