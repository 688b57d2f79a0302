//! The laws of parts, each the contract of a function that does nothing.

ghost use Rattle.split_parts.specs.Merged.{MergedIsSolution};
ghost use Rattle.split_parts.specs.Settled.{SettledIsSolution};

/// Solutions of the parts of a problem, put together, are a solution of the problem: certified, and the old network
/// itself where no part's gross fell.
pub fn merged_is_solution()
    ensures { MergedIsSolution }
{}

/// A solution of a problem that has just one part is still one when the potentials of the members in no part are 0.
pub fn settled_is_solution()
    ensures { SettledIsSolution }
{}
