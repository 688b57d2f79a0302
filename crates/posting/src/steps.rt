//! The steps of a plan that have a member as a party: an ended or cut trade has its seller and its buyer, and a new one
//! those that it names.

ghost use Rattle.std.specs.Prelude.{◌≡◌, filter, option_copied, IfOk};
ghost use Rattle.command_types.specs.Plans.{is_party_row, is_in_step};
ghost use Rattle.command_types.specs.Trades.{trade_numbered};

use command_types::{PlanRow, TradeRow};
use std::alloc::{AllocError, Global};
use units_core::MemberNo;

// The trade with this number, if there is one.
fn trade_numbered(trades: &[TradeRow], trade: u64) -> Option<&TradeRow>
    ensures { option_copied result ≡ trade_numbered trades.now trade }
{
    if trade == 0 {
        return None;
    }
    trades.get((trade - 1) as usize)
}

fn is_party(trades: &[TradeRow], trade: u64, member: MemberNo) -> bool
    ensures { result ≡ is_party_row (trade_numbered trades.now trade) member }
{
    match trade_numbered(trades, trade) {
        None => false,
        Some(row) => row.seller == member || row.buyer == member,
    }
}

fn is_in_step(trades: &[TradeRow], step: &PlanRow, member: MemberNo) -> bool
    ensures { result ≡ is_in_step trades.now member step.now }
{
    match *step {
        PlanRow::End { trade } => is_party(trades, trade, member),
        PlanRow::Cut { trade, .. } => is_party(trades, trade, member),
        PlanRow::New { seller, buyer, .. } => seller == member || buyer == member,
    }
}

/// The steps that have the member as a party, in the plan's order. The only error is want of memory.
pub fn steps_of(
    alloc: Global,
    trades: &[TradeRow],
    plan: &[PlanRow],
    member: MemberNo,
) -> Result<Vec<PlanRow>, AllocError>
    ensures { IfOk result (λ steps. steps.items ≡ filter (is_in_step trades.now member) plan.now) }
{
    let mut steps = Vec::new(alloc);
    for step in plan {
        if is_in_step(trades, step, member) {
            steps.push(*step)?;
        }
    }
    Ok(steps)
}
