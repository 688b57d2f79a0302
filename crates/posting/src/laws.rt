//! The laws of postings, each the contract of a function that does nothing.

ghost use Rattle.posting.specs.Laws.{PostingCanBeExecuted, PlanStays};

/// What a certified posting changes can be executed: each trade that it ends or cuts is there, each new one is between
/// members, and no product's gross is over the limit afterwards. No member's position changes and no product's gross
/// grows, and each posted network has the least gross of all that keep its limits and every net position.
pub fn posting_can_be_executed()
    ensures { PostingCanBeExecuted }
{}

/// The problems of a version and the plan of its solutions rest on the frozen trades alone, whatever their marks.
pub fn plan_stays()
    ensures { PlanStays }
{}
