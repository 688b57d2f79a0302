//! The law on the histories of files, the contract of a function that does nothing.
ghost use Rattle.recovery.specs.Laws.{FilesStandForOneHistory};

/// No file stands for two histories of one roster.
pub fn files_stand_for_one_history()
    ensures { FilesStandForOneHistory }
{}
