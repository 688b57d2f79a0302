//! The room that a change needs.

ghost use Rattle.std.specs.Prelude.{◌≡◌, ◌≤◌, IsOk, IsTrue, OnOk};
ghost use Rattle.command_types.specs.Plans.{count_of, is_new};
ghost use Rattle.cycle_states.specs.Effects.{is_vote, rows_with, settings_with};

use super::effect::Effect;
use command_types::PlanRow;
use posting::counts_of;
use product_book::Book;
use std::alloc::AllocError;
use tolerance_sets::Tolerances;

// Makes room for the new trades of a plan.
fn make_plan_room(book: &mut Book, plan: &[PlanRow]) -> Result<(), AllocError>
    requires { count_of is_new plan.now ≤ 4194305 }
    ensures book { book.new ≡ record book.old { spare = book.new.spare } }
    ensures keeps { book.old.spare ≤ book.new.spare }
    ensures room { OnOk result (count_of is_new plan.now ≤ book.new.spare) }
{
    book.reserve(counts_of(plan).made as u32)
}

/// Makes room for the trades or the setting that a change may add, and for those of the plan that is proposed, which makes so
/// many trades. The only error is want of memory, and it never comes for a vote.
pub(super) fn make_room(
    book: &mut Book,
    tolerances: &mut Tolerances,
    effect: &Effect,
    proposed: u64,
) -> Result<(), AllocError>
    requires { rows_with effect.now proposed ≤ 4194305 }
    ensures book { book.new ≡ record book.old { spare = book.new.spare } }
    ensures tolerances { tolerances.new ≡ record tolerances.old { spare = tolerances.new.spare } }
    ensures keeps { book.old.spare ≤ book.new.spare }
    ensures keeps_slots { tolerances.old.spare ≤ tolerances.new.spare }
    ensures room { OnOk result (rows_with effect.now proposed ≤ book.new.spare) }
    ensures slot { OnOk result (settings_with effect.now ≤ tolerances.new.spare) }
    ensures vote { IsTrue (is_vote effect.now) → IsOk result }
{
    match effect {
        Effect::Allege { .. } => book.reserve(1 + proposed as u32),
        Effect::Set(_) => tolerances.reserve(),
        Effect::Propose { plan, .. } => make_plan_room(book, plan.rows()),
        Effect::Execute { plan } => make_plan_room(book, plan.rows()),
        _ => Ok(()),
    }
}
