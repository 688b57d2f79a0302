//! The law on spellings of bases, the contract of a function that does nothing.
ghost use Rattle.base_codec.specs.Laws.{BasesAreUnique};

/// No bytes spell two different bases.
pub fn base_spellings_are_unique()
    ensures { BasesAreUnique }
{}
