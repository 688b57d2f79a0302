//! The execution of a plan, step by step, on the trades, on their sums and on their lists, in the room that there is. A step
//! changes what its trade changes, and goes over no other.
//!
//! A new trade may come before the trades that fall for it, so a product's sum may pass its limit on the way. It never
//! passes the old sum and the final one together: the trades that were there only fall, and the new ones stay.

ghost use Rattle.std.specs.Prelude.{ℕ, ◌≡◌, ◌+◌, ◌-◌, ◌≤◌, All, length, take, vec_len, vec_capacity};
ghost use Rattle.command_types.specs.Plans.{after_step, executed, count_of, is_new};
ghost use Rattle.product_book.specs.Execution.{CanRun, IsMade, IsPassing, IsRunning, added_by};

use crate::kept::KeptSums;
use crate::links::Links;
use crate::row::{append, cut, ended, made, put_row, row_at};
use command_types::{PlanRow, TradeRow};
use units_core::Amount;

// Executes one step.
fn run(rows: &mut Vec<TradeRow>, sums: &mut KeptSums, links: &mut Links, step: PlanRow)
    requires room { vec_len rows.old + added_by step ≤ vec_capacity rows.old }
    requires spare { added_by step ≤ links.old.spare }
    requires step { CanRun rows.old.items step }
    requires made { IsMade sums.old.members (length links.old.by_product.lists) step }
    requires passing { IsPassing (after_step rows.old.items step) }
    requires running { IsRunning sums.old.members (length links.old.by_product.lists) sums.old links.old.by_product links.old.by_pair links.old.spare rows.old.items }
    ensures items { rows.new.items ≡ after_step rows.old.items step }
    ensures len { vec_len rows.new ≡ vec_len rows.old + added_by step }
    ensures capacity { vec_capacity rows.new ≡ vec_capacity rows.old }
    ensures members { sums.new.members ≡ sums.old.members }
    ensures spare { links.new.spare ≡ links.old.spare - added_by step }
    ensures running { IsRunning sums.old.members (length links.old.by_product.lists) sums.new links.new.by_product links.new.by_pair links.new.spare rows.new.items }
{
    match step {
        PlanRow::End { trade } => {
            let row = row_at(rows, trade);
            let gone = ended(row);
            sums.settle(&row, &gone);
            put_row(rows, trade, gone);
            links.leave(trade);
        }
        PlanRow::Cut { trade, to, .. } => match Amount::new(to) {
            Some(amount) => {
                let row = row_at(rows, trade);
                let rest = cut(row, amount);
                sums.settle(&row, &rest);
                put_row(rows, trade, rest);
            }
            None => unreachable!(),
        },
        PlanRow::New {
            product,
            seller,
            buyer,
            amount,
            day,
        } => {
            let number = rows.len() as u64 + 1;
            let row = made(number, product, seller, buyer, amount, day);
            sums.enter(&row);
            links.enter(sums.members, &row);
            append(rows, row);
        }
    }
}

/// Executes the plan. It costs the plan's steps, however many trades there are.
pub(super) fn execute(
    rows: &mut Vec<TradeRow>,
    sums: &mut KeptSums,
    links: &mut Links,
    plan: &[PlanRow],
)
    requires room { vec_len rows.old + count_of is_new plan.now ≤ vec_capacity rows.old }
    requires spare { count_of is_new plan.now ≤ links.old.spare }
    requires steps { All (CanRun rows.old.items) plan.now }
    requires made { All (IsMade sums.old.members (length links.old.by_product.lists)) plan.now }
    requires passing { (steps : ℕ) → IsPassing (executed (take steps plan.now) rows.old.items) }
    requires running { IsRunning sums.old.members (length links.old.by_product.lists) sums.old links.old.by_product links.old.by_pair links.old.spare rows.old.items }
    ensures items { rows.new.items ≡ executed plan.now rows.old.items }
    ensures len { vec_len rows.new ≡ vec_len rows.old + count_of is_new plan.now }
    ensures capacity { vec_capacity rows.new ≡ vec_capacity rows.old }
    ensures members { sums.new.members ≡ sums.old.members }
    ensures spare { links.new.spare ≡ links.old.spare - count_of is_new plan.now }
    ensures running { IsRunning sums.old.members (length links.old.by_product.lists) sums.new links.new.by_product links.new.by_pair links.new.spare rows.new.items }
{
    for step in plan {
        run(rows, sums, links, *step);
    }
}
