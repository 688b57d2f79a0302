//! The laws of a roll, each the contract of a function that does nothing.

ghost use Rattle.period_roll.specs.Laws.{NetsStay, RolledCanBeWritten, RolledFits, SettingsStay, TradesStay};

/// By the names of their parties and products, the trades after a roll are those that go along, in their order: no party,
/// amount, day, submitter, mark or hold changes, and what is new in the roster comes in with nothing.
pub fn trades_stay()
    ensures { TradesStay }
{}

/// Every member's net position in every product stays; in one that is left out it has none.
pub fn nets_stay()
    ensures { NetsStay }
{}

/// Between members and products of the new roster each floor and each ceiling stays.
pub fn settings_stay()
    ensures { SettingsStay }
{}

/// What is written over the new roster meets the condition of `base_codec::encode_base`, where the base before does.
pub fn rolled_can_be_written()
    ensures { RolledCanBeWritten }
{}

/// It fits the new roster, where the base before fits the old one.
pub fn rolled_fits()
    ensures { RolledFits }
{}
