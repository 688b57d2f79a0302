//! The laws on statuses, on lines and on standbys, the contracts of functions that do nothing.
ghost use Rattle.compress_server.specs.Answered.{ScriptsAreAnswered, ServicesAreAnswered};
ghost use Rattle.compress_server.specs.Cancelled.{CancelsEndCycles};
ghost use Rattle.compress_server.specs.Complete.{AnswersWhatItCan};
ghost use Rattle.compress_server.specs.StandbyLaws.{StandbysHoldPrefixes, StandbysLeaveSoundWorlds};
ghost use Rattle.compress_server.specs.Telling.{StatusesTellTheEnd};

use doors::Listener;
use standby::folds_keep_the_list;
use standby_link::crashes_leave_sound_worlds;

/// The status that is told of an end is the end's, or that of want of memory where there was none for its line.
pub fn statuses_tell_the_end()
    ensures { StatusesTellTheEnd }
{}

/// Where the words are in form and nothing outside fails, the status is 0; or 1 of a check, 3 where a file of the form has a fault, 7
/// of a journal that is damaged, 8 of a script at its limit, 12 to 14 of a standby that can't go on, 15 of a refused roll, or 9.
pub fn answers_what_it_can<L: Listener>()
    ensures { AnswersWhatItCan L.Door.visits }
{}

/// Under the same premises every line of a script, unless the status is 3, 7 or 9, and of each connection of a service, but one whose
/// session found no memory at its start, is answered up to an accepted BYE or the session's limit: by the machine at a position
/// of the one history, for a full journal, or for want of memory. No answer tells that the desk is stopped. A service's connections
/// are those that were to come to its doors; at 3, 7 and 9 none may have been asked for.
pub fn every_line_is_answered<L: Listener>()
    ensures scripts { ScriptsAreAnswered L.Door.visits }
    ensures services { ServicesAreAnswered L.Door.visits }
{}

/// If the roster has an operator, what is rolled with `--cancel` is a legal history in which no cycle is open.
pub fn cancels_end_cycles()
    ensures { CancelsEndCycles }
{}

/// Where the journal of a standby stood for a prefix of the entries of a primary, and it read what that primary sent at any time, what a
/// crash at any moment of its run leaves stands for a prefix again.
pub fn standbys_hold_prefixes()
    ensures { StandbysHoldPrefixes }
{
    folds_keep_the_list();
}

/// And, since its house was opened, for at least as many entries as each number that it had said by then: the next run begins in a sound
/// world.
pub fn standbys_leave_sound_worlds()
    ensures { StandbysLeaveSoundWorlds }
{
    folds_keep_the_list();
    crashes_leave_sound_worlds();
}
