//! Which trades go along.

ghost use Rattle.std.specs.Prelude.{◌≡◌, slice_get};
ghost use Rattle.command_types.specs.Cycles.{product_matures_after};
ghost use Rattle.period_roll.specs.Trades.{first_late, is_kept, is_left_out};

use command_types::{ProductRow, Roster, TradeRow, TradeState};
use units_core::{Day, ProductNo};

// Whether trades of the product are left out.
fn is_left_out(old: &Roster, matured: &Option<Day>, product: ProductNo) -> bool
    ensures { result ≡ is_left_out old.now matured.now product }
{
    let Some(day) = matured else {
        return false;
    };
    match old.products().get(product.index()) {
        None => false,
        Some(row) => !day.comes_before(row.maturity),
    }
}

/// Whether a trade goes along: it is alleged or live, and its product is not left out.
pub(crate) fn is_kept(old: &Roster, matured: &Option<Day>, row: &TradeRow) -> bool
    ensures { result ≡ is_kept old.now matured.now row.now }
{
    row.state != TradeState::Ended && !is_left_out(old, matured, row.product)
}

// Whether the product of a trade matures after the trade's day.
fn matures_after(products: &[ProductRow], row: &TradeRow) -> bool
    ensures { result ≡ product_matures_after (slice_get products.now row.now.product) row.now.day }
{
    match products.get(row.product.index()) {
        None => false,
        Some(product) => row.day.comes_before(product.maturity),
    }
}

/// The number of the first trade whose product does not mature after the trade's day.
pub(crate) fn first_late(products: &[ProductRow], rows: &[TradeRow]) -> Option<u64>
    ensures { result ≡ first_late products.now rows.now }
{
    for row in rows {
        if !matures_after(products, row) {
            return Some(row.number);
        }
    }
    None
}
