//! The open trades, over a new roster.

ghost use Rattle.std.specs.Prelude.{◌≡◌, filter, IfOk, Ok, Err};
ghost use Rattle.period_roll.specs.declared.cause.Cause.{Cause};
ghost use Rattle.period_roll.specs.declared.cause.RollFault.TheVariants.{Refused};
ghost use Rattle.period_roll.specs.Trades.{is_kept, moved_trade, moved_trades, numbered_from};

use crate::cause::{Cause, RollFault};
use crate::keeping::is_kept;
use crate::parties::{moved_party, moved_product};
use command_types::{Roster, TradeRow};
use std::alloc::Global;
use units_core::Day;

// The trade at its new places, or the first of its causes.
fn moved_trade(old: &Roster, new: &Roster, row: &TradeRow) -> Result<TradeRow, Cause>
    ensures { result ≡ moved_trade old.now new.now row.now }
{
    let seller = moved_party(old, new, row.number, row.seller)?;
    let buyer = moved_party(old, new, row.number, row.buyer)?;
    let product = moved_product(old, new, row.number, row.product)?;
    Ok(TradeRow {
        seller,
        buyer,
        product,
        ..*row
    })
}

/// The trades that go along, each at its new places and with its old number, or the first cause. The only other error is want
/// of memory.
pub(crate) fn moved_trades(
    alloc: Global,
    old: &Roster,
    new: &Roster,
    matured: &Option<Day>,
    rows: &[TradeRow],
) -> Result<Vec<TradeRow>, RollFault>
    ensures moved { IfOk result (λ made. moved_trades old.now new.now (filter (is_kept old.now matured.now) rows.now) ≡ Ok made.items) }
    ensures refused { (cause : Cause) → result ≡ Err (Refused cause) → moved_trades old.now new.now (filter (is_kept old.now matured.now) rows.now) ≡ Err cause }
{
    let mut made = Vec::new(alloc);
    for row in rows {
        if is_kept(old, matured, row) {
            let moved = moved_trade(old, new, row)?;
            made.push(moved)?;
        }
    }
    Ok(made)
}

/// Numbers trades from 1 on, in their order.
pub(crate) fn number(rows: &mut [TradeRow])
    ensures { rows.new ≡ numbered_from 1 rows.old }
{
    let mut count = 0;
    for row in rows.iter_mut() {
        count += 1;
        row.number = count;
    }
}
