//! Whether each pair's amount is within its bounds.

ghost use Rattle.std.specs.Prelude.{◌≡◌};
ghost use Rattle.network_laws.specs.Clash.{bounds_clash, first_pair};
ghost use Rattle.dual_certificate.specs.Walks.{ArePairs, rows_bounds_clash};

use crate::pair_cursor::{PairCursor, Pairs};
use network_laws::{Bounds, Clash};

/// The first pair whose amount is out of its bounds.
pub(super) fn first_bounds_clash(pairs: &Pairs) -> Option<Clash>
    requires pairs { ArePairs pairs.now }
    ensures { result ≡ first_pair pairs.now.members (rows_bounds_clash pairs.now.limits.now pairs.now.rows.now) }
{
    let mut pair = PairCursor::first(pairs);
    while pair.is_pair() {
        let amount = pair.amount(pairs);
        let bounds = pair.bounds(pairs);
        if let Some(clash) = clash_with_bounds(pair.seller(), pair.buyer(), amount, bounds) {
            return Some(clash);
        }
        pair = pair.next(pairs);
    }
    None
}

/// What is wrong with an amount beside its bounds.
pub(super) fn clash_with_bounds(
    seller: u16,
    buyer: u16,
    amount: u64,
    bounds: Bounds,
) -> Option<Clash>
    ensures { result ≡ bounds_clash seller buyer amount bounds.lower bounds.upper }
{
    if amount < bounds.lower {
        return Some(Clash::Below { seller, buyer });
    }
    match bounds.upper {
        Some(most) => if most < amount {
            Some(Clash::Above { seller, buyer })
        } else {
            None
        },
        None => None,
    }
}
