//! The form `follow`: a standby that follows a primary at the other end of the input and the output.
//!
//!     roster -> journal -> a house, which asks for one entry after another
//!
//! `standby_link` has what is said and heard.

ghost use Rattle.std.specs.Prelude.{◌≡◌};
ghost use Rattle.outside.specs.Disk.{IsSettled};
ghost use Rattle.program_words.specs.Words.{read_standby};
ghost use Rattle.compress_server.specs.Files.{files_by};
ghost use Rattle.compress_server.specs.Follow.{standby_end, StandbyRuns};
ghost use Rattle.compress_server.specs.Housed.{disk_by};
ghost use Rattle.compress_server.specs.Seen.{streams_by};

use crate::ending::End;
use crate::load::{LoadFault, load_roster};
use crate::opening::open_house;
use journal_core::JournalFault;
use outside::{Disk, Files, Sink, Source};
use program_words::StandbyWords;
use standby::FollowEnd;
use standby_link::{Login, follow};
use std::alloc::Global;

/// How a standby ended.
#[derive(Clone, Copy)]
pub enum StandbyEnd {
    /// The roster could not be had.
    Unloaded(LoadFault),
    /// No house was opened on the journal.
    Unopened(JournalFault),
    /// The house followed, up to this.
    Followed(FollowEnd),
}

impl From<StandbyEnd> for End {
    ghost from_gives = { λ own end. end ≡ standby_end own };

    fn from(own: StandbyEnd) -> End {
        match own {
            StandbyEnd::Unloaded(fault) => End::from(fault),
            StandbyEnd::Unopened(fault) => End::from(fault),
            StandbyEnd::Followed(FollowEnd::Caught) => End::Done,
            StandbyEnd::Followed(FollowEnd::Refused { number }) => End::PeerRefused(number),
            StandbyEnd::Followed(FollowEnd::Broken { at }) => End::PeerBroken(at),
            StandbyEnd::Followed(FollowEnd::Full { size }) => End::JournalFull(size),
            StandbyEnd::Followed(FollowEnd::SourceFault) => End::SourceFault,
            StandbyEnd::Followed(FollowEnd::SinkFault) => End::SinkFault,
            StandbyEnd::Followed(FollowEnd::DiskFault) => End::DiskFault,
            StandbyEnd::Followed(FollowEnd::Memory) => End::Memory,
        }
    }
}

/// Reads the roster of the file with this name, opens the journal with that one, and has it follow a primary over the input and
/// the output. No file changes but the journal, whose disk comes back.
pub fn run_follow<F: Files, S: Source, K: Sink, D: Disk + Send>(
    alloc: Global,
    files: &mut F,
    words: &StandbyWords<'_>,
    input: &mut S,
    output: &mut K,
    disk: D,
) -> (StandbyEnd, D)
    requires { IsSettled (D.history disk) }
    ensures runs { let seen = disk_by D.Disk in let streams = streams_by S.Source K.Sink in
        StandbyRuns (read_standby words.now) (files_by F.Files files.old) (files_by F.Files files.new)
        (streams input.old output.old) (streams input.new output.new) (seen disk) (seen result.1) result.0 }
    ensures stays { F.folder files.new ≡ F.folder files.old }
{
    let roster = match load_roster(alloc, files, words.roster) {
        Ok(roster) => roster,
        Err(fault) => return (StandbyEnd::Unloaded(fault), disk),
    };
    let mut house = match open_house(alloc, &roster, words.journal, disk) {
        Ok(house) => house,
        Err((fault, disk)) => return (StandbyEnd::Unopened(fault), disk),
    };
    let login = Login {
        name: words.name,
        key: words.key,
        compare: words.compare,
    };
    let end = follow(alloc, &mut house, login, input, output);
    (StandbyEnd::Followed(end), house.end())
}
