//! Plans of two and three members, worked out by hand.

use crate::networks::{Sale, network_of, so};
use acceptance::plan;
use command_types::{PlanRow, TradeRow, TradeState};
use std::alloc::{AllocError, Global};
use std::test::Fail;
use units_core::{Amount, Day, MemberNo, ProductNo};

/// An amount that the first member sold to the second, and whether the buyer holds it.
type Trade = (u64, bool);

fn day() -> Result<Day, AllocError> {
    Day::new(2026, 3, 31).ok_or(AllocError)
}

/// A frozen trade of the first product.
fn trade(number: u64, amount: u64, hold_in: bool) -> Result<TradeRow, AllocError> {
    Ok(TradeRow {
        number,
        seller: MemberNo(0),
        buyer: MemberNo(1),
        product: ProductNo(0),
        amount: Amount::new(amount).ok_or(AllocError)?,
        day: day()?,
        state: TradeState::Live,
        submitter: None,
        mark: None,
        hold_out: false,
        hold_in,
        frozen: true,
    })
}

/// These trades, numbered from 1.
fn trades_of(alloc: Global, trades: &[Trade]) -> Result<Vec<TradeRow>, AllocError> {
    let mut rows = Vec::new(alloc);
    for (place, &(amount, hold_in)) in trades.iter().enumerate() {
        rows.push(trade(place as u64 + 1, amount, hold_in)?)?;
    }
    Ok(rows)
}

/// That the plan from a network of one row to another has these steps.
fn gives(
    alloc: Global,
    trades: &[Trade],
    old: Sale,
    new: Sale,
    steps: &[PlanRow],
) -> Result<(), Fail> {
    let trades = trades_of(alloc, trades)?;
    let old = [network_of(alloc, 3, &[old])?];
    let new = [network_of(alloc, 3, &[new])?];
    let plan = plan(alloc, &trades, &old, &new, day()?)?;
    so(plan.as_slice() == steps, "the plan is otherwise")
}

#[test]
fn a_fall_ends_trades_and_cuts_the_next(rt: HostRuntime) -> Result<(), Fail> {
    let trades = [(3, false), (4, false), (5, false)];
    let steps = [
        PlanRow::End { trade: 1 },
        PlanRow::Cut {
            trade: 2,
            from: 4,
            to: 1,
        },
    ];
    gives(rt.alloc(), &trades, (0, 1, 12), (0, 1, 6), &steps)
}

#[test]
fn a_held_trade_stays(rt: HostRuntime) -> Result<(), Fail> {
    let trades = [(4, true), (6, false)];
    let steps = [PlanRow::End { trade: 2 }];
    gives(rt.alloc(), &trades, (0, 1, 10), (0, 1, 4), &steps)
}

#[test]
fn a_pair_that_grows_gets_one_trade(rt: HostRuntime) -> Result<(), Fail> {
    let steps = [
        PlanRow::End { trade: 1 },
        PlanRow::New {
            product: ProductNo(0),
            seller: MemberNo(0),
            buyer: MemberNo(2),
            amount: Amount::new(9).ok_or(AllocError)?,
            day: day()?,
        },
    ];
    gives(rt.alloc(), &[(7, false)], (0, 1, 7), (0, 2, 9), &steps)
}
