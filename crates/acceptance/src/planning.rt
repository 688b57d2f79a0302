//! The plan: what new networks change in the frozen trades. The free ones are sorted once for all products; of each product
//! the pairs are looked at that have a row in the old network or in the new one, and for a pair that falls its trades. So a
//! plan costs a sort of the free trades, a search among them for each product, and a walk over rows and free trades in step.

ghost use Rattle.std.specs.Prelude.{◌≡◌, ℕ, ◌-◌, ◌+◌, ◌*◌, ◌<◌, ◌≤◌, ◌++◌, length, IfOk, OnOk, OnErr};
ghost use Rattle.std.specs.List.Sorted.{IsNonDecreasingBy};
ghost use Rattle.network_laws.specs.Networks.{IsCursor, IsRising};
ghost use Rattle.command_types.specs.Books.{listed_pairs};
ghost use Rattle.command_types.specs.Plans.{falling, free_rows, product_plan, plan_of};
ghost use Rattle.acceptance.specs.Planning.{is_free_between, row_fall, pair_steps, seller_plan, trade_place, AreBefore};
ghost use Rattle.units_core.specs.declared.limits.TheConstants.{MOST_GROSS};

use crate::cursors::{Cursors, buyer_at, seller_row};
use crate::free_trades::{FreeTrades, Pair, from_pair, from_seller, is_free_between, up_to_pair};
use command_types::{PlanRow, TradeRow};
use network_laws::{Network, amount_at, next_row};
use std::alloc::{AllocError, Global};
use units_core::{Amount, Day, MemberNo, ProductNo};

/// How the network of a product changes, and the day of the trades that it makes.
#[derive(Clone, Copy)]
pub struct Change<'a> {
    pub product: ProductNo,
    pub day: Day,
    /// What members owe one another.
    pub old: &'a Network,
    /// What they are to owe one another.
    pub new: &'a Network,
}

// What a pair's seller owes the buyer before and after, and the day of the trade that it makes.
#[derive(Clone, Copy)]
struct PairChange {
    pair: Pair,
    day: Day,
    before: u64,
    after: u64,
}

// Adds the step of one trade that falls, if something is left of the fall, and says what is left after it.
fn add_row(plan: &mut Vec<PlanRow>, row: &TradeRow, fall: u64) -> Result<u64, AllocError>
    ensures steps { OnOk result (plan.new.items ≡ plan.old.items ++ row_fall fall row.now) }
    ensures left { IfOk result (λ left. left ≡ fall - row.now.amount) }
{
    let trade = row.number;
    let amount = row.amount.get();
    if fall > 0 {
        let step = if amount <= fall {
            PlanRow::End { trade }
        } else {
            PlanRow::Cut {
                trade,
                from: amount,
                to: amount - fall,
            }
        };
        plan.push(step)?;
    }
    Ok(fall.saturating_sub(amount))
}

// Adds the steps of a pair's free trades, which fall by an amount together.
fn add_fall(
    plan: &mut Vec<PlanRow>,
    trades: &[TradeRow],
    pair: &Pair,
    mut fall: u64,
) -> Result<(), AllocError>
    ensures { OnOk result (plan.new.items ≡ plan.old.items ++ falling fall (free_rows trades.now pair.now.product pair.now.seller pair.now.buyer)) }
{
    for row in trades {
        if is_free_between(row, pair) {
            fall = add_row(plan, row, fall)?;
        }
    }
    Ok(())
}

// The amount of a new trade.
fn amount_of(n: u64) -> Amount
    requires least { 1 ≤ n }
    requires most { n ≤ MOST_GROSS }
    ensures { result ≡ n }
{
    match Amount::new(n) {
        Some(amount) => amount,
        None => unreachable!(),
    }
}

// Adds the steps of a pair, whose free trades are among these.
fn add_pair(
    plan: &mut Vec<PlanRow>,
    free: &[TradeRow],
    change: &PairChange,
) -> Result<(), AllocError>
    requires sorted { IsNonDecreasingBy trade_place free.now }
    requires bound { change.now.after ≤ MOST_GROSS }
    ensures { OnOk result (plan.new.items ≡ plan.old.items ++ pair_steps change.now.pair.product change.now.day free.now change.now.pair.seller change.now.pair.buyer change.now.before change.now.after) }
{
    let (before, after) = (change.before, change.after);
    let pair = change.pair;
    if after < before {
        add_fall(plan, up_to_pair(free, &pair), &pair, before - after)?;
    } else if before < after {
        plan.push(PlanRow::New {
            product: pair.product,
            seller: MemberNo(pair.seller),
            buyer: MemberNo(pair.buyer),
            amount: amount_of(after - before),
            day: change.day,
        })?;
    }
    Ok(())
}

// Adds the steps of a seller's pairs: of those that have a row in one of the networks. Their free trades are among these, and
// rows of earlier sellers alone have been gone past. It says how many rows have been gone past then.
fn add_seller(
    plan: &mut Vec<PlanRow>,
    free: &[TradeRow],
    change: &Change,
    seller: u16,
    passed: Cursors,
) -> Result<Cursors, AllocError>
    requires sorted { IsNonDecreasingBy trade_place free.now }
    requires old { AreBefore change.now.old.now.rows passed.old (seller * 65536) }
    requires new { AreBefore change.now.new.now.rows passed.new (seller * 65536) }
    ensures steps { OnOk result (plan.new.items ≡ plan.old.items ++ seller_plan free.now change.now.day change.now.product change.now.old.now change.now.new.now seller) }
    ensures old { IfOk result (λ at. AreBefore change.now.old.now.rows at.old (seller * 65536 + 65536)) }
    ensures new { IfOk result (λ at. AreBefore change.now.new.now.rows at.new (seller * 65536 + 65536)) }
{
    let (old, new) = (change.old.rows(), change.new.rows());
    let members = change.old.members();
    let mut left = free;
    let mut from = 0;
    let mut at = Cursors {
        old: seller_row(old, passed.old, seller),
        new: seller_row(new, passed.new, seller),
    };
    while from < members {
        let old_buyer = buyer_at(old, at.old, seller, members);
        let buyer = buyer_at(new, at.new, seller, members).min(old_buyer);
        if buyer == members {
            return Ok(at);
        }
        let pair = Pair {
            product: change.product,
            seller,
            buyer,
        };
        left = from_pair(left, &pair);
        let pair_change = PairChange {
            pair,
            day: change.day,
            before: amount_at(old, at.old, seller, buyer),
            after: amount_at(new, at.new, seller, buyer),
        };
        add_pair(plan, left, &pair_change)?;
        at.old = next_row(old, at.old, seller, buyer);
        at.new = next_row(new, at.new, seller, buyer);
        from = buyer + 1;
    }
    Ok(at)
}

// Adds the steps of all pairs of a product.
fn add_product(
    plan: &mut Vec<PlanRow>,
    free: &FreeTrades,
    change: &Change,
) -> Result<(), AllocError>
    ensures { OnOk result (plan.new.items ≡ plan.old.items ++ product_plan free.now change.now.day change.now.product change.now.old.now change.now.new.now) }
{
    let mut left = free.from_product(change.product);
    let mut passed = Cursors { old: 0, new: 0 };
    for seller in 0..change.old.members() {
        left = from_seller(left, change.product, seller);
        passed = add_seller(plan, left, change, seller, passed)?;
    }
    Ok(())
}

/// Adds to a plan what a product's new network changes in the free trades, as [`plan`] does for each product. The only error
/// is want of memory, and then the plan is as it was.
pub fn add_change(
    alloc: Global,
    plan: &mut Vec<PlanRow>,
    free: &FreeTrades,
    change: &Change,
) -> Result<(), AllocError>
    ensures added { OnOk result (plan.new.items ≡ plan.old.items ++ product_plan free.now change.now.day change.now.product change.now.old.now change.now.new.now) }
    ensures refused { OnErr result (plan.new.items ≡ plan.old.items) }
{
    let mut steps = Vec::new(alloc);
    add_product(&mut steps, free, change)?;
    plan.append(&mut steps)
}

/// What new networks change in the frozen trades, in the order of product, seller and buyer: a pair that falls ends its
/// trades that nobody holds, in the order of their numbers, and cuts the last of them; a pair that grows gets one new
/// trade of this day. Networks stand in the order of the products, at most 65,536 of them. The only error is want of
/// memory.
pub fn plan(
    alloc: Global,
    trades: &[TradeRow],
    old: &[Network],
    new: &[Network],
    day: Day,
) -> Result<Vec<PlanRow>, AllocError>
    requires few { length old.now ≤ 65536 }
    requires same { length new.now ≡ length old.now }
    ensures { IfOk result (λ plan. plan.items ≡ plan_of trades.now old.now new.now day) }
{
    let free = FreeTrades::of(alloc, trades)?;
    let mut plan = Vec::new(alloc);
    for place in 0..old.len() {
        let change = Change {
            product: ProductNo(place as u16),
            day,
            old: &old[place],
            new: &new[place],
        };
        add_change(alloc, &mut plan, &free, &change)?;
    }
    Ok(plan)
}
