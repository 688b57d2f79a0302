//! The gross of each product, summed over all trades in one pass.

ghost use Rattle.std.specs.Prelude.{ℕ, ◌≡◌, ◌↔◌, ◌≤◌, ◌<◌, All, IsTrue, if◌then◌else◌};
ghost use Rattle.command_types.specs.Trades.{counts, gross_of};
ghost use Rattle.units_core.specs.declared.limits.TheConstants.{MOST_GROSS, MOST_PRODUCTS};

use command_types::{TradeRow, TradeState};
use units_core::{MOST_GROSS, MOST_PRODUCTS};

// What a trade adds to its product's gross.
fn counted(row: &TradeRow) -> u64
    ensures amount { result ≡ (if counts row.now.state then row.now.amount else 0) }
    ensures most { result ≤ MOST_GROSS }
{
    if row.state == TradeState::Ended {
        0
    } else {
        row.amount.get()
    }
}

/// Whether the alleged and live amounts of each product come to at most 10^18.
pub(crate) fn is_bounded(rows: &[TradeRow], products: usize) -> bool
    requires few { products ≤ MOST_PRODUCTS }
    requires within { All (λ row. row.product < products) rows.now }
    ensures { IsTrue result ↔ ((product : ℕ) → gross_of product rows.now ≤ MOST_GROSS) }
{
    let mut sums = [0u64; MOST_PRODUCTS];
    for row in rows {
        let product = row.product.index();
        let sum = sums[product] + counted(row);
        if sum > MOST_GROSS {
            return false;
        }
        sums[product] = sum;
    }
    true
}
