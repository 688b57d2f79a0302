//! The form `replay`: what a journal stands for, told in full.
//!
//!     roster -> journal -> its changes, made again by a machine -> members with their rows -> executions -> `end N`
//!
//! Nothing is written to the disk.

ghost use Rattle.std.specs.Prelude.{◌≡◌};
ghost use Rattle.compress_server.specs.Files.{files_by};
ghost use Rattle.compress_server.specs.Housed.{disk_by};
ghost use Rattle.compress_server.specs.Replay.{replay_end, ReplayRuns};
ghost use Rattle.compress_server.specs.Seen.{output_by};

use crate::ending::End;
use crate::load::{LoadFault, load_roster};
use crate::opening::read_journal;
use crate::replay_text::text_of;
use house::Executions;
use journal_core::JournalFault;
use outside::{Disk, Files, Sink, write_all};
use program_words::ReplayWords;
use std::alloc::Global;

/// How a replay ended.
#[derive(Clone, Copy)]
pub enum ReplayEnd {
    /// All was written.
    Done,
    /// The roster could not be had.
    Unloaded(LoadFault),
    /// Nothing was read of the journal.
    Unread(JournalFault),
    /// The output failed.
    SinkFault,
    /// The memory that was needed was not to be had.
    Memory,
}

impl From<ReplayEnd> for End {
    ghost from_gives = { λ own end. end ≡ replay_end own };

    fn from(own: ReplayEnd) -> End {
        match own {
            ReplayEnd::Done => End::Done,
            ReplayEnd::Unloaded(fault) => End::from(fault),
            ReplayEnd::Unread(fault) => End::from(fault),
            ReplayEnd::SinkFault => End::SinkFault,
            ReplayEnd::Memory => End::Memory,
        }
    }
}

/// Reads the roster of the file with this name, and tells what the journal with that one stands for. No file changes.
pub fn run_replay<F: Files, K: Sink, D: Disk>(
    alloc: Global,
    files: &mut F,
    words: &ReplayWords<'_>,
    output: &mut K,
    disk: &mut D,
) -> ReplayEnd
    ensures runs { let seen = disk_by D.Disk in
        ReplayRuns words.now.roster.now (files_by F.Files files.old) (files_by F.Files files.new)
        (output_by K.Sink output.old) (output_by K.Sink output.new) (seen disk.old) (seen disk.new) result }
    ensures stays { F.folder files.new ≡ F.folder files.old }
{
    let roster = match load_roster(alloc, files, words.roster) {
        Ok(roster) => roster,
        Err(fault) => return ReplayEnd::Unloaded(fault),
    };
    let read = match read_journal(alloc, roster, words.journal, disk, Executions::none(alloc)) {
        Ok(read) => read,
        Err(fault) => return ReplayEnd::Unread(fault),
    };
    let Ok(text) = text_of(alloc, &read) else {
        return ReplayEnd::Memory;
    };
    if write_all(output, &text).is_err() {
        return ReplayEnd::SinkFault;
    }
    ReplayEnd::Done
}
