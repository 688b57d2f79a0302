//! The laws of the limits, each the contract of a function that does nothing.

ghost use Rattle.tolerance_sets.specs.Laws.{NetworkIsWithin, HeldIsKept, BoundsAreThePairs, BoundsHaveOwners, LimitsAreGood, NothingIsKept, FreeModeReachesFloor, NoCycleIsLeft};

/// A network lies within the limits that are made for it, whatever members set.
pub fn network_is_within()
    ensures { NetworkIsWithin }
{}

/// Where no pair holds more than its amount, no lower bound is below what is held.
pub fn held_is_kept()
    ensures { HeldIsKept }
{}

/// The bounds of a pair are what its amount, what is held of it and both members' settings make them.
pub fn bounds_are_the_pairs()
    ensures { BoundsAreThePairs }
{}

/// Each bound of a pair is of whom it is told to be: who is named has set or holds as much, where the amount is named the pair may
/// not grow, and where nobody is there is no bound.
pub fn bounds_have_owners()
    ensures { BoundsHaveOwners }
{}

/// The limits of a network have at most 256 members and rows in rising order between different members, none with
/// its bounds crossed.
pub fn limits_are_good()
    ensures { LimitsAreGood }
{}

/// Where nobody set a floor and nothing is held, every lower bound is 0, in each mode.
pub fn nothing_is_kept()
    ensures { NothingIsKept }
{}

/// Where in free mode nobody set a floor or a ceiling and nothing is held, the gross of a certified network is the sum
/// of the positive net positions: no network with these positions has less.
pub fn free_mode_reaches_floor()
    ensures { FreeModeReachesFloor }
{}

/// Where every lower bound is 0, no directed cycle of sales is left in a certified network, in each mode.
pub fn no_cycle_is_left()
    ensures { NoCycleIsLeft }
{}
