//! The laws on spellings, each the contract of a function that does nothing.
ghost use Rattle.record_codec.specs.Laws.{SpellingsAreUnique, TurnIsNoChange};

/// In each of the two spellings no bytes spell two different changes.
pub fn spellings_are_unique()
    ensures { SpellingsAreUnique }
{}

/// The turn spells no change, in neither spelling.
pub fn turn_is_no_change()
    ensures { TurnIsNoChange }
{}
