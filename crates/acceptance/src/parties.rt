//! Whom a plan touches: the parties of its steps.

ghost use Rattle.std.specs.Prelude.{◌≡◌, ℕ, ◌<◌, ◌≤◌, ◌==◌, ◌||◌, [], Some, IsTrue, is_some};
ghost use Rattle.command_types.specs.CycleRefusals.{has_voted};
ghost use Rattle.command_types.specs.Plans.{is_party_row, is_in_step, is_touched, touched_by};
ghost use Rattle.command_types.specs.Trades.{trade_numbered};
ghost use Rattle.acceptance.specs.Parties.{HasPartiesBelow, IsStepBelow, IsPlanBelow};
ghost use Rattle.acceptance.specs.Votes.{is_flagged};
ghost use Rattle.units_core.specs.declared.limits.TheConstants.{MOST_MEMBERS};

use crate::flags::Flags;
use crate::votes::Votes;
use command_types::{PlanRow, TradeRow};
use units_core::MemberNo;

// The trade with this number.
fn row_at(trades: &[TradeRow], trade: u64) -> TradeRow
    requires { IsTrue (is_some (trade_numbered trades.now trade)) }
    ensures { trade_numbered trades.now trade ≡ Some result }
{
    trades[(trade - 1) as usize]
}

// The seller and the buyer of the trade with this number.
fn trade_parties(trades: &[TradeRow], trade: u64) -> (MemberNo, MemberNo)
    requires { HasPartiesBelow MOST_MEMBERS (trade_numbered trades.now trade) }
    ensures seller { result.0 < MOST_MEMBERS }
    ensures buyer { result.1 < MOST_MEMBERS }
    ensures parties { (m : ℕ) → is_party_row (trade_numbered trades.now trade) m ≡ ((result.0 == m) || (result.1 == m)) }
{
    let row = row_at(trades, trade);
    (row.seller, row.buyer)
}

// The seller and the buyer of a step.
fn step_parties(trades: &[TradeRow], step: &PlanRow) -> (MemberNo, MemberNo)
    requires { IsStepBelow trades.now MOST_MEMBERS step.now }
    ensures seller { result.0 < MOST_MEMBERS }
    ensures buyer { result.1 < MOST_MEMBERS }
    ensures parties { (m : ℕ) → is_in_step trades.now m step.now ≡ ((result.0 == m) || (result.1 == m)) }
{
    match *step {
        PlanRow::End { trade } => trade_parties(trades, trade),
        PlanRow::Cut { trade, .. } => trade_parties(trades, trade),
        PlanRow::New { seller, buyer, .. } => (seller, buyer),
    }
}

// Puts the parties of a step into the set.
fn add_parties(members: &mut Flags, trades: &[TradeRow], step: &PlanRow)
    requires { IsStepBelow trades.now MOST_MEMBERS step.now }
    ensures { (m : ℕ) → is_flagged members.new.words m ≡ (is_flagged members.old.words m || is_in_step trades.now m step.now) }
{
    let (seller, buyer) = step_parties(trades, step);
    members.insert(seller);
    members.insert(buyer);
}

// The parties of all steps, all below so many members: once all of these are found no further step is looked at.
fn all_parties(trades: &[TradeRow], plan: &[PlanRow], members: u16) -> Flags
    requires few { members ≤ MOST_MEMBERS }
    requires below { IsPlanBelow trades.now members plan.now }
    ensures { (m : ℕ) → is_flagged result.words m ≡ is_touched trades.now plan.now m }
{
    let everyone = Flags::below(members);
    let mut found = Flags::none();
    for step in plan {
        if found.are(&everyone) {
            return found;
        }
        add_parties(&mut found, trades, step);
    }
    found
}

/// The votes that a plan needs: those of the members, of so many, that are a party of a step of it. Nobody has accepted. The
/// trades that it ends or cuts are among `trades`, whose numbers count from 1. It takes no memory.
pub fn touched(trades: &[TradeRow], plan: &[PlanRow], members: u16) -> Votes
    requires few { members ≤ MOST_MEMBERS }
    requires below { IsPlanBelow trades.now members plan.now }
    ensures touched { (m : ℕ) → has_voted result.needed m ≡ is_touched trades.now plan.now m }
    ensures needed { (n : ℕ) → n ≤ MOST_MEMBERS → IsPlanBelow trades.now n plan.now → result.needed ≡ touched_by n trades.now plan.now }
    ensures accepted { result.accepted ≡ [] }
{
    Votes::of(all_parties(trades, plan, members))
}
