//! A trade of the book: where it stands, and what a party's call or a plan's step makes of it.

ghost use Rattle.std.specs.Prelude.{not, ◌≡◌, ◌+◌, ◌-◌, ◌≤◌, ◌<◌, take, length, ◌++◌, [], ◌∷◌, Some, IsTrue, is_some, vec_len, vec_capacity};
ghost use Rattle.command_types.specs.Plans.{ended_row, cut_row, made_row};
ghost use Rattle.command_types.specs.Trades.{counts, trade_numbered, with_row, live_row, row_ended_by, row_with_hold};

use command_types::{Side, TradeRow, TradeState};
use units_core::{Amount, Day, MemberNo, ProductNo};

/// The trade with this number.
pub(super) fn row_at(rows: &[TradeRow], trade: u64) -> TradeRow
    requires { IsTrue (is_some (trade_numbered rows.now trade)) }
    ensures { trade_numbered rows.now trade ≡ Some result }
{
    rows[(trade - 1) as usize]
}

/// Puts a row in the place of the trade with this number.
pub(super) fn put_row(rows: &mut Vec<TradeRow>, trade: u64, row: TradeRow)
    requires { IsTrue (is_some (trade_numbered rows.old.items trade)) }
    ensures items { rows.new.items ≡ with_row rows.old.items trade (Some row) }
    ensures len { vec_len rows.new ≡ vec_len rows.old }
    ensures capacity { vec_capacity rows.new ≡ vec_capacity rows.old }
{
    rows[(trade - 1) as usize] = row;
}

/// Puts a row last, in the room that there is.
pub(super) fn append(rows: &mut Vec<TradeRow>, row: TradeRow)
    requires { vec_len rows.old < vec_capacity rows.old }
    ensures items { rows.new.items ≡ rows.old.items ++ row ∷ [] }
    ensures len { vec_len rows.new ≡ vec_len rows.old + 1 }
    ensures capacity { vec_capacity rows.new ≡ vec_capacity rows.old }
{
    rows.push_reserved(row);
}

/// Takes the last row away.
pub(super) fn drop_last(rows: &mut Vec<TradeRow>)
    requires { 1 ≤ vec_len rows.old }
    ensures items { rows.new.items ≡ take (length rows.old.items - 1) rows.old.items }
    ensures len { vec_len rows.new + 1 ≡ vec_len rows.old }
    ensures capacity { vec_capacity rows.new ≡ vec_capacity rows.old }
{
    rows.truncate(rows.len() - 1);
}

/// Whether the trade has ended.
pub(super) fn has_ended(row: &TradeRow) -> bool
    ensures { result ≡ not (counts row.now.state) }
{
    row.state == TradeState::Ended
}

/// The trade made live.
pub(super) fn live(row: TradeRow) -> TradeRow
    ensures { result ≡ live_row row }
{
    TradeRow {
        state: TradeState::Live,
        ..row
    }
}

/// The trade after this side asked to end it.
pub(super) fn ended_by(row: TradeRow, side: Side) -> TradeRow
    ensures { result ≡ row_ended_by side row }
{
    if row.state == TradeState::Alleged || row.mark.is_some() {
        TradeRow {
            state: TradeState::Ended,
            ..row
        }
    } else {
        TradeRow {
            mark: Some(side),
            ..row
        }
    }
}

/// The trade with this side's hold set or taken away.
pub(super) fn with_hold(row: TradeRow, held: bool, side: Side) -> TradeRow
    ensures { result ≡ row_with_hold held side row }
{
    match side {
        Side::Out => TradeRow {
            hold_out: held,
            ..row
        },
        Side::In => TradeRow {
            hold_in: held,
            ..row
        },
    }
}

/// The trade ended by a plan.
pub(super) fn ended(row: TradeRow) -> TradeRow
    ensures { result ≡ ended_row row }
{
    TradeRow {
        state: TradeState::Ended,
        ..row
    }
}

/// The trade cut to this amount.
pub(super) fn cut(row: TradeRow, amount: Amount) -> TradeRow
    ensures { result ≡ cut_row amount row }
{
    TradeRow { amount, ..row }
}

/// The trade that a plan makes: live at once, and submitted by nobody.
pub(super) fn made(
    number: u64,
    product: ProductNo,
    seller: MemberNo,
    buyer: MemberNo,
    amount: Amount,
    day: Day,
) -> TradeRow
    ensures { result ≡ made_row number product seller buyer amount day }
{
    TradeRow {
        number,
        seller,
        buyer,
        product,
        amount,
        day,
        state: TradeState::Live,
        submitter: None,
        mark: None,
        hold_out: false,
        hold_in: false,
        frozen: false,
    }
}
