//! The trades of a member and of a list.

ghost use Rattle.std.specs.Prelude.{◌≡◌, IfOk};
ghost use Rattle.command_types.specs.CycleSteps.{rows_of_member};
ghost use Rattle.command_types.specs.Trades.{is_live};
ghost use Rattle.linked_rows.specs.Rows.{list_of};
ghost use Rattle.product_book.specs.OpenLists.{numbers_in};
ghost use Rattle.product_book.specs.Walks.{rows_at, live_among, EachThere};

use crate::open_lists::OpenLists;
use crate::row::row_at;
use command_types::{TradeRow, TradeState};
use std::alloc::{AllocError, Global};
use units_core::MemberNo;

/// The trades of the member.
pub(super) fn of_member(
    alloc: Global,
    trades: &[TradeRow],
    member: MemberNo,
) -> Result<Vec<TradeRow>, AllocError>
    ensures { IfOk result (λ rows. rows.items ≡ rows_of_member member trades.now) }
{
    let mut rows = Vec::new(alloc);
    for trade in trades {
        if trade.seller == member || trade.buyer == member {
            rows.push(*trade)?;
        }
    }
    Ok(rows)
}

fn is_live(trade: &TradeRow) -> bool
    ensures { result ≡ is_live trade.now.state }
{
    trade.state == TradeState::Live
}

/// The live ones among the trades of a list, in its order.
pub(super) fn live_in(
    alloc: Global,
    trades: &[TradeRow],
    lists: &OpenLists,
    list: u32,
) -> Result<Vec<TradeRow>, AllocError>
    requires { EachThere trades.now (numbers_in (list_of lists.now.lists list)) }
    ensures { IfOk result (λ rows. rows.items ≡ live_among (rows_at trades.now (numbers_in (list_of lists.now.lists list)))) }
{
    let mut rows = Vec::new(alloc);
    let mut at = lists.first(list);
    while let Some(node) = at {
        let trade = row_at(trades, lists.number_at(node));
        if is_live(&trade) {
            rows.push(trade)?;
        }
        at = lists.next(node);
    }
    Ok(rows)
}
