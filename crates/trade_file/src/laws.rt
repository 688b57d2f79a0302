//! The law of a roster file, the contract of a function that does nothing.

ghost use Rattle.trade_file.specs.Laws.{RosterFileHasNames};

/// The members and products of a roster file have names.
pub fn roster_file_has_names()
    ensures { RosterFileHasNames }
{}
