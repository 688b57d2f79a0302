//! The form `serve`: seats that serve connections beside one another, over a roster and a journal.
//!
//!     idle time -> roster -> house -> seats -> the disk
//!
//! A step that fails ends the call there, with the house's disk handed back.

ghost use Rattle.std.specs.Prelude.{◌≡◌};
ghost use Rattle.outside.specs.Disk.{IsSettled};
ghost use Rattle.compress_server.specs.Files.{files_by};
ghost use Rattle.compress_server.specs.Runs.{plan_of};
ghost use Rattle.compress_server.specs.Seen.{seen_by};
ghost use Rattle.compress_server.specs.Serve.{service_end, ServeRuns};

use crate::ending::End;
use crate::load::{LoadFault, load_roster};
use crate::opening::open_house;
use crate::resources::Resources;
use crate::seating::Seating;
use doors::Listener;
use journal_core::JournalFault;
use network_laws::Solver;
use outside::{Clock, Disk, Files, Gate, Sink};
use program_words::ServiceWords;
use std::sync::Wait;
use std::thread::Threads;

/// How a service ended.
#[derive(Clone, Copy)]
pub enum ServiceEnd {
    /// The seats served, and all was written.
    Done,
    /// The roster could not be had.
    Unloaded(LoadFault),
    /// No house was opened on the journal.
    Unopened(JournalFault),
    /// The listener or one of its doors failed.
    ListenerFault,
    /// A fault of the disk stopped the house; all seats ended whole.
    Stopped,
    /// The output failed.
    SinkFault,
    /// There was no memory for the seats, or one of them found none.
    Memory,
}

impl From<ServiceEnd> for End {
    ghost from_gives = { λ own end. end ≡ service_end own };

    fn from(own: ServiceEnd) -> End {
        match own {
            ServiceEnd::Done => End::Done,
            ServiceEnd::Unloaded(fault) => End::from(fault),
            ServiceEnd::Unopened(fault) => End::from(fault),
            ServiceEnd::ListenerFault => End::ListenerFault,
            ServiceEnd::Stopped => End::DiskFault,
            ServiceEnd::SinkFault => End::SinkFault,
            ServiceEnd::Memory => End::Memory,
        }
    }
}

// Reads the roster, opens the journal and has seats serve, at a listener that was told the idle time.
fn open_and_serve<
    R: Threads + Wait + Sync,
    V: Solver,
    G: Gate,
    T: Clock,
    F: Files,
    K: Sink,
    D: Disk + Send,
    L: Listener,
>(
    with: &Resources<'_, R, V, G, T>,
    files: &mut F,
    words: &ServiceWords<'_>,
    output: &mut K,
    disk: D,
    listener: &mut L,
) -> (ServiceEnd, D)
    requires settled { IsSettled (D.history disk) }
    requires told { L.idle listener.old ≡ words.now.idle }
    ensures runs { let seen = seen_by K.Sink D.Disk L.doors L.faults in
        ServeRuns (T.tells with.now.clock.now) L.Door.visits words.now.roster.now (plan_of words.now) (files_by F.Files files.old) (files_by F.Files files.new)
        (seen output.old disk listener.old) (seen output.new result.1 listener.new) result.0 }
    ensures stays { F.folder files.new ≡ F.folder files.old }
    ensures waits { L.idle listener.new ≡ L.idle listener.old }
{
    let roster = match load_roster(with.alloc, files, words.roster) {
        Ok(roster) => roster,
        Err(fault) => return (ServiceEnd::Unloaded(fault), disk),
    };
    let house = match open_house(with.alloc, &roster, words.journal, disk) {
        Ok(house) => house,
        Err((fault, disk)) => return (ServiceEnd::Unopened(fault), disk),
    };
    let seating = Seating {
        with,
        roster: &roster,
        words,
    };
    let (end, house) = seating.serve_at(house, listener, output);
    (end, house.end())
}

/// Tells the listener for how long a connection may be silent, reads the roster of the file with this name, opens the
/// journal with that one, and has seats serve at the address. No file changes but the journal, whose disk comes back.
pub fn run_serve<
    R: Threads + Wait + Sync,
    V: Solver,
    G: Gate,
    T: Clock,
    F: Files,
    K: Sink,
    D: Disk + Send,
    L: Listener,
>(
    with: &Resources<'_, R, V, G, T>,
    files: &mut F,
    words: &ServiceWords<'_>,
    output: &mut K,
    disk: D,
    listener: &mut L,
) -> (ServiceEnd, D)
    requires { IsSettled (D.history disk) }
    ensures runs { let seen = seen_by K.Sink D.Disk L.doors L.faults in
        ServeRuns (T.tells with.now.clock.now) L.Door.visits words.now.roster.now (plan_of words.now) (files_by F.Files files.old) (files_by F.Files files.new)
        (seen output.old disk listener.old) (seen output.new result.1 listener.new) result.0 }
    ensures idle { L.idle listener.new ≡ words.now.idle }
    ensures stays { F.folder files.new ≡ F.folder files.old }
{
    listener.set_idle(words.idle);
    open_and_serve(with, files, words, output, disk, listener)
}
