//! The laws of the check, each the contract of a function that does nothing.

ghost use Rattle.file_market.specs.Laws.{NothingFailsWhereAllPass, YesWhereAllAreLeast, WhatIsSolvedPasses, SummariesAreOne};

/// No product fails exactly where every part of the proposal is certified and its figures are right.
pub fn nothing_fails_where_all_pass()
    ensures { NothingFailsWhereAllPass }
{}

/// A check of trades and parts says yes exactly where, beside the network of each product's trades, the part's network
/// is certified and its figures are right; and then no network within the product's limits that keeps every net position
/// has less gross.
pub fn yes_where_all_are_least()
    ensures { YesWhereAllAreLeast }
{}

/// What is written of a market that was solved reads as parts, and a check of them says yes.
pub fn what_is_solved_passes()
    ensures { WhatIsSolvedPasses }
{}

/// A market has one summary: whatever solves it, and however often, every byte is the same.
pub fn summaries_are_one()
    ensures { SummariesAreOne }
{}
