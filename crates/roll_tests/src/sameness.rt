//! Whether two bases are the same.

use command_types::{Base, Level, ToleranceRow, TradeRow};
use units_core::Name;

fn are_same_names(first: &[Name], second: &[Name]) -> bool {
    if first.len() != second.len() {
        return false;
    }
    for i in 0..first.len() {
        if !first[i].is(&second[i]) {
            return false;
        }
    }
    true
}

fn is_same_trade(first: &TradeRow, second: &TradeRow) -> bool {
    let parties = first.seller == second.seller && first.buyer == second.buyer;
    let terms = first.product == second.product
        && first.amount == second.amount
        && first.day == second.day;
    let lives = first.state == second.state
        && first.submitter == second.submitter
        && first.mark == second.mark;
    let holds = first.hold_out == second.hold_out && first.hold_in == second.hold_in;
    first.number == second.number && parties && terms && lives && holds && !first.frozen
}

fn are_same_trades(first: &[TradeRow], second: &[TradeRow]) -> bool {
    if first.len() != second.len() {
        return false;
    }
    for i in 0..first.len() {
        if !is_same_trade(&first[i], &second[i]) {
            return false;
        }
    }
    true
}

fn is_same_ceiling(first: Option<Level>, second: Option<Level>) -> bool {
    match (first, second) {
        (Some(first), Some(second)) => first.get() == second.get(),
        (None, None) => true,
        _ => false,
    }
}

fn is_same_setting(first: &ToleranceRow, second: &ToleranceRow) -> bool {
    let places = first.member == second.member
        && first.product == second.product
        && first.other == second.other;
    let floors = first.side == second.side && first.floor.get() == second.floor.get();
    places && floors && is_same_ceiling(first.ceiling, second.ceiling)
}

fn are_same_settings(first: &[ToleranceRow], second: &[ToleranceRow]) -> bool {
    if first.len() != second.len() {
        return false;
    }
    for i in 0..first.len() {
        if !is_same_setting(&first[i], &second[i]) {
            return false;
        }
    }
    true
}

/// Whether all that is written of both is the same.
pub fn is_same(first: &Base, second: &Base) -> bool {
    let numbers = first.position == second.position
        && first.cycle == second.cycle
        && first.version == second.version;
    numbers
        && are_same_names(first.members.rows(), second.members.rows())
        && are_same_names(first.products.rows(), second.products.rows())
        && are_same_settings(first.tolerances.rows(), second.tolerances.rows())
        && are_same_trades(first.trades.rows(), second.trades.rows())
}
