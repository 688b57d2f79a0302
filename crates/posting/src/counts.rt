//! How many steps of each kind a plan has.

ghost use Rattle.std.specs.Prelude.{◌≡◌, ◌+◌, ◌<◌, ◌^◌, ◌∷◌, []};
ghost use Rattle.command_types.specs.Plans.{is_end, is_cut, is_new, count_of};

use command_types::PlanRow;

/// The trades that a plan ends, cuts and makes.
#[derive(Clone, Copy, Debug, PartialEq, Eq)]
pub struct Counts {
    pub ended: u64,
    pub cut: u64,
    pub made: u64,
}

// Counts one step more.
fn add_step(counts: &mut Counts, step: &PlanRow)
    requires { counts.old.ended + counts.old.cut + counts.old.made + 1 < 2 ^ 64 }
    ensures ended { counts.new.ended ≡ counts.old.ended + count_of is_end (step.now ∷ []) }
    ensures cut { counts.new.cut ≡ counts.old.cut + count_of is_cut (step.now ∷ []) }
    ensures made { counts.new.made ≡ counts.old.made + count_of is_new (step.now ∷ []) }
    ensures all { counts.new.ended + counts.new.cut + counts.new.made ≡ counts.old.ended + counts.old.cut + counts.old.made + 1 }
{
    match *step {
        PlanRow::End { .. } => counts.ended += 1,
        PlanRow::Cut { .. } => counts.cut += 1,
        PlanRow::New { .. } => counts.made += 1,
    }
}

/// How many steps of each kind the plan has.
pub fn counts_of(plan: &[PlanRow]) -> Counts
    ensures ended { result.ended ≡ count_of is_end plan.now }
    ensures cut { result.cut ≡ count_of is_cut plan.now }
    ensures made { result.made ≡ count_of is_new plan.now }
{
    let mut counts = Counts {
        ended: 0,
        cut: 0,
        made: 0,
    };
    for step in plan {
        add_step(&mut counts, step);
    }
    counts
}
