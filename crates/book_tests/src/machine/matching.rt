//! Whether two bases are the same, row by row.

use command_types::{Base, Level, ToleranceRow, TradeRow};

fn is_ceiling(one: Option<Level>, other: Option<Level>) -> bool {
    match (one, other) {
        (None, None) => true,
        (Some(one), Some(other)) => one.get() == other.get(),
        _ => false,
    }
}

fn is_between(one: &ToleranceRow, other: &ToleranceRow) -> bool {
    one.member == other.member && one.other == other.other && one.side == other.side
}

fn is_setting(one: &ToleranceRow, other: &ToleranceRow) -> bool {
    is_between(one, other)
        && one.product == other.product
        && one.floor.get() == other.floor.get()
        && is_ceiling(one.ceiling, other.ceiling)
}

fn has_parties(one: &TradeRow, other: &TradeRow) -> bool {
    one.number == other.number && one.seller == other.seller && one.buyer == other.buyer
}

fn has_terms(one: &TradeRow, other: &TradeRow) -> bool {
    one.product == other.product && one.amount == other.amount && one.day == other.day
}

fn has_marks(one: &TradeRow, other: &TradeRow) -> bool {
    one.state == other.state && one.submitter == other.submitter && one.mark == other.mark
}

fn has_holds(one: &TradeRow, other: &TradeRow) -> bool {
    one.hold_out == other.hold_out && one.hold_in == other.hold_in && one.frozen == other.frozen
}

fn is_trade(one: &TradeRow, other: &TradeRow) -> bool {
    has_parties(one, other)
        && has_terms(one, other)
        && has_marks(one, other)
        && has_holds(one, other)
}

fn are_settings(some: &[ToleranceRow], others: &[ToleranceRow]) -> bool {
    if some.len() != others.len() {
        return false;
    }
    for i in 0..some.len() {
        if !is_setting(&some[i], &others[i]) {
            return false;
        }
    }
    true
}

fn are_trades(some: &[TradeRow], others: &[TradeRow]) -> bool {
    if some.len() != others.len() {
        return false;
    }
    for i in 0..some.len() {
        if !is_trade(&some[i], &others[i]) {
            return false;
        }
    }
    true
}

fn has_numbers(one: &Base, other: &Base) -> bool {
    one.position == other.position && one.cycle == other.cycle && one.version == other.version
}

fn has_names(one: &Base, other: &Base) -> bool {
    one.members.rows() == other.members.rows() && one.products.rows() == other.products.rows()
}

fn has_rows(one: &Base, other: &Base) -> bool {
    are_settings(one.tolerances.rows(), other.tolerances.rows())
        && are_trades(one.trades.rows(), other.trades.rows())
}

/// Whether the two are the same.
pub fn is_same(one: &Base, other: &Base) -> bool {
    has_numbers(one, other) && has_names(one, other) && has_rows(one, other)
}
