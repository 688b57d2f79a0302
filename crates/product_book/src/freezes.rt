//! Which trades take part in a cycle.

ghost use Rattle.std.specs.Prelude.{◌≡◌, ◌<◌, ◌&&◌, length, All};
ghost use Rattle.command_types.specs.Plans.{thawed};
ghost use Rattle.command_types.specs.Trades.{is_live};
ghost use Rattle.product_book.specs.Freezes.{is_chosen, rows_by_choice, frozen_among};

use command_types::{TradeRow, TradeState};

// Whether the trade is live, and its product chosen.
fn is_taken(row: &TradeRow, products: &[bool]) -> bool
    requires { row.now.product < length products.now }
    ensures { result ≡ (is_live row.now.state && is_chosen products.now row.now.product) }
{
    row.state == TradeState::Live && products[row.product.index()]
}

/// Freezes the live trades of the chosen products, and no others; gives their number.
pub(super) fn freeze(rows: &mut [TradeRow], products: &[bool]) -> u64
    requires { All (λ row. row.product < length products.now) rows.old }
    ensures rows { rows.new ≡ rows_by_choice products.now rows.old }
    ensures count { result ≡ length (frozen_among rows.new) }
{
    let mut count = 0;
    for row in rows.iter_mut() {
        row.frozen = is_taken(row, products);
        if row.frozen {
            count += 1;
        }
    }
    count
}

/// Freezes no trade any more.
pub(super) fn thaw(rows: &mut [TradeRow])
    ensures { rows.new ≡ thawed rows.old }
{
    for row in rows.iter_mut() {
        row.frozen = false;
    }
}
