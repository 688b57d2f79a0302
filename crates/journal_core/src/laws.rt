//! The laws on journals' files, each the contract of a function that does nothing.
ghost use Rattle.journal_core.specs.Laws.{FilesEndAtOnePlace, FilesHoldOneList};

/// No file holds two bases, or two lists of records.
pub fn files_hold_one_list()
    ensures { FilesHoldOneList }
{}

/// A journal on a file ends at one place, or will when it is begun.
pub fn files_end_at_one_place()
    ensures { FilesEndAtOnePlace }
{}
