//! Whether trades are of a roster's places, and how many were submitted.

ghost use Rattle.std.specs.Prelude.{◌≡◌, ◌↔◌, ◌≤◌, ◌≢◌, All, IsTrue};
ghost use Rattle.command_types.specs.Bases.{IsFresh, IsTradeIn};
ghost use Rattle.command_types.specs.Trades.{submitted_count};
ghost use Rattle.units_core.specs.declared.limits.TheConstants.{MOST_SUBMITTED};

use command_types::{TradeRow, TradeState};
use units_core::MOST_SUBMITTED;

// Whether a trade that waits for the other party waits as it was submitted.
fn is_fresh(row: &TradeRow) -> bool
    ensures { IsTrue result ↔ IsFresh row.now.state row.now }
{
    row.state != TradeState::Alleged
        || (row.submitter.is_some() && row.mark.is_none() && !row.hold_out && !row.hold_in)
}

fn is_trade_in(row: &TradeRow, members: usize, products: usize) -> bool
    ensures { IsTrue result ↔ IsTradeIn members products row.now }
{
    // The amount is one by its type.
    let _amount = row.amount.get();
    row.seller.index() < members
        && row.buyer.index() < members
        && row.product.index() < products
        && row.seller != row.buyer
        && is_fresh(row)
}

/// Whether each is of two different members and of a product, and those that wait for the other party wait as they were
/// submitted.
pub(crate) fn are_trades_in(rows: &[TradeRow], members: usize, products: usize) -> bool
    ensures { IsTrue result ↔ All (IsTradeIn members products) rows.now }
{
    rows.iter().all(|row| is_trade_in(row, members, products))
}

fn submitted_among(rows: &[TradeRow]) -> u64
    ensures { result ≡ submitted_count rows.now }
{
    let mut count = 0u64;
    for row in rows {
        if row.submitter.is_some() {
            count += 1;
        }
    }
    count
}

/// Whether at most 100,000 were submitted.
pub(crate) fn are_few(rows: &[TradeRow]) -> bool
    ensures { IsTrue result ↔ (submitted_count rows.now ≤ MOST_SUBMITTED) }
{
    submitted_among(rows) <= MOST_SUBMITTED
}
