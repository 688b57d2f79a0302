//! The plan of posted solutions, from all trades, or from free ones that are sorted already.

ghost use Rattle.std.specs.Prelude.{◌≡◌, ◌≤◌, length, IfOk};
ghost use Rattle.command_types.specs.Cycles.{old_networks, new_networks};
ghost use Rattle.command_types.specs.Plans.{plan_of};
ghost use Rattle.units_core.specs.declared.limits.TheConstants.{MOST_PRODUCTS};

use acceptance::{Change, FreeTrades, add_change};
use command_types::{PlanRow, TradeRow};
use network_laws::{Problem, Solution};
use std::alloc::{AllocError, Global};
use units_core::{Day, ProductNo};

/// What the solutions of these problems change in free trades, which are sorted already; new trades are of this day. The only
/// error is want of memory.
pub fn plan_from_free(
    alloc: Global,
    free: &FreeTrades,
    problems: &[Problem],
    solutions: &[Solution],
    day: Day,
) -> Result<Vec<PlanRow>, AllocError>
    requires few { length problems.now ≤ MOST_PRODUCTS }
    requires one_each { length solutions.now ≡ length problems.now }
    ensures { IfOk result (λ plan. plan.items ≡ plan_of free.now (old_networks problems.now) (new_networks solutions.now) day) }
{
    // A step for each free trade mostly, so that the plan is moved to larger memory seldom.
    let mut plan = Vec::with_capacity(alloc, free.count())?;
    for place in 0..problems.len() {
        let change = Change {
            product: ProductNo(place as u16),
            day,
            old: problems[place].network(),
            new: solutions[place].network(),
        };
        add_change(alloc, &mut plan, free, &change)?;
    }
    Ok(plan)
}

/// What the solutions of these problems change in the frozen trades, where new trades are of this day. The only error
/// is want of memory.
pub fn posted_plan(
    alloc: Global,
    trades: &[TradeRow],
    problems: &[Problem],
    solutions: &[Solution],
    day: Day,
) -> Result<Vec<PlanRow>, AllocError>
    requires few { length problems.now ≤ MOST_PRODUCTS }
    requires one_each { length solutions.now ≡ length problems.now }
    ensures { IfOk result (λ plan. plan.items ≡ plan_of trades.now (old_networks problems.now) (new_networks solutions.now) day) }
{
    let free = FreeTrades::of(alloc, trades)?;
    plan_from_free(alloc, &free, problems, solutions, day)
}
