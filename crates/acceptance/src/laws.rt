//! The laws of plans, each the contract of a function that does nothing.

ghost use Rattle.acceptance.specs.Laws.{PlanRealises, PlanIsFree, PlanIsExecutable, NetsStay, GrossFollows, PlanIsOfTheFrozen};

/// Executing the plan of new networks gives each pair the amount that its new network has, and leaves every trade that
/// is held or was not frozen as it is.
pub fn plan_realises()
    ensures { PlanRealises }
{}

/// Each trade that such a plan ends or cuts is live, frozen and held by nobody, and stands in it once; a cut names the
/// trade's amount and leaves at least 1 of it; a new trade is between two different members, with an amount that a
/// trade may have.
pub fn plan_is_free()
    ensures { PlanIsFree }
{}

/// So it can be executed, where no new network has more gross than the frozen one and no product is over the limit.
pub fn plan_is_executable()
    ensures { PlanIsExecutable }
{}

/// Where a product's new network has the nets of the old one, no member's position in the product changes.
pub fn nets_stay()
    ensures { NetsStay }
{}

/// The gross of a product changes by what the gross of its network does.
pub fn gross_follows()
    ensures { GrossFollows }
{}

/// A plan, and the networks that it is made from, rest on the frozen trades alone, whatever their marks.
pub fn plan_is_of_the_frozen()
    ensures { PlanIsOfTheFrozen }
{}
