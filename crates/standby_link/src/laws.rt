//! The laws of a standby over bytes, the contracts of functions that do nothing.

ghost use Rattle.standby_link.specs.Laws.{CrashesLeaveSoundWorlds, FollowersHoldAPrefix, ForksAreSeen};
ghost use Rattle.standby_link.specs.Talk.{CaughtUpText};

use standby::{crashes_keep_worlds_sound, worlds_stay_sound};
use standby_wire::{only_the_same_is_read, refusals_are_read, writing_is_read};

/// Where the bytes of a source are a primary's answers, a standby that follows it has a prefix of the primary's entries, if it had one
/// before.
pub fn followers_hold_a_prefix()
    ensures { FollowersHoldAPrefix }
{
    writing_is_read();
    only_the_same_is_read();
    refusals_are_read();
    worlds_stay_sound();
}

/// A standby that has all that its primary had wrote HELLO, the question for its last entry if it compares, a NEXT for each length
/// that its history had in turn, and BYE.
pub fn caught_up_text()
    ensures { CaughtUpText }
{}

/// A standby that compares follows over a primary's answers only where the primary has its last entry at the same place, or only entries
/// behind it.
pub fn forks_are_seen()
    ensures { ForksAreSeen }
{
    writing_is_read();
    only_the_same_is_read();
    refusals_are_read();
}

/// What a crash leaves of a standby's journal at any moment stands for entries with which the world is sound again, with all numbers
/// that were said by then.
pub fn crashes_leave_sound_worlds()
    ensures { CrashesLeaveSoundWorlds }
{
    worlds_stay_sound();
    crashes_keep_worlds_sound();
}
