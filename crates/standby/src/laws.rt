//! The laws of a standby, each the contract of a function that does nothing.

ghost use Rattle.standby.specs.Laws.{FoldsKeepTheList, PrimaryGrows, StandbyHoldsAPrefix, WorldsStaySound, JournalHoldsAPrefix, CrashesKeepWorldsSound};

/// After every list of events the primary's entries begin with the standby's, which are at least as many as each number that the
/// standby sent.
pub fn standby_holds_a_prefix()
    ensures { StandbyHoldsAPrefix }
{}

/// The primary's entries only grow.
pub fn primary_grows()
    ensures { PrimaryGrows }
{}

/// A history and what it is folded to stand for the same list of entries, and its length is their number.
pub fn folds_keep_the_list()
    ensures { FoldsKeepTheList }
{}

/// So it goes on from any world in which it is so.
pub fn worlds_stay_sound()
    ensures { WorldsStaySound }
{}

/// What a crash at any moment of following leaves stands for a prefix of the primary's entries, with all that were acknowledged.
pub fn journal_holds_a_prefix()
    ensures { JournalHoldsAPrefix }
{}

/// So a standby that is opened again on what a crash left goes on in a sound world.
pub fn crashes_keep_worlds_sound()
    ensures { CrashesKeepWorldsSound }
{}
