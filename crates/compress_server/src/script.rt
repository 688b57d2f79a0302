//! The form `script`: one session over a roster and a journal.

ghost use Rattle.std.specs.Prelude.{◌≡◌, false};
ghost use Rattle.outside.specs.Disk.{IsSettled};
ghost use Rattle.outside.specs.Faults.{Rose};
ghost use Rattle.command_types.specs.History.{end_of};
ghost use Rattle.house.specs.House.{figures_of, is_stopped};
ghost use Rattle.compress_server.specs.Files.{files_by};
ghost use Rattle.compress_server.specs.Housed.{disk_by};
ghost use Rattle.compress_server.specs.Script.{ScriptEnds, end_of_session, script_end, ScriptRuns};
ghost use Rattle.compress_server.specs.Seen.{streams_by};

use crate::ending::End;
use crate::load::{LoadFault, load_roster};
use crate::opening::open_house;
use crate::resources::Resources;
use command_types::Roster;
use cycle_lock::Turns;
use house::House;
use journal_core::JournalFault;
use network_laws::Solver;
use outside::{Clock, Disk, Files, Gate, Sink, Source};
use program_words::ScriptWords;
use session::{Host, SessionEnd};
use std::sync::Wait;
use std::thread::Threads;

/// How a script ended.
#[derive(Clone, Copy)]
pub enum ScriptEnd {
    /// The input was read to its end, or a BYE was accepted, and all was written.
    Done,
    /// The roster could not be had.
    Unloaded(LoadFault),
    /// No house was opened on the journal.
    Unopened(JournalFault),
    /// A fault of the disk stopped the house; the session ended whole.
    Stopped,
    /// The input failed.
    SourceFault,
    /// The output failed.
    SinkFault,
    /// The session took as many bytes as one may.
    Limit,
    /// There was no memory for the lock or the session's buffers.
    Memory,
}

impl From<ScriptEnd> for End {
    ghost from_gives = { λ own end. end ≡ script_end own };

    fn from(own: ScriptEnd) -> End {
        match own {
            ScriptEnd::Done => End::Done,
            ScriptEnd::Unloaded(fault) => End::from(fault),
            ScriptEnd::Unopened(fault) => End::from(fault),
            ScriptEnd::Stopped => End::DiskFault,
            ScriptEnd::SourceFault => End::SourceFault,
            ScriptEnd::SinkFault => End::SinkFault,
            ScriptEnd::Limit => End::Limit,
            ScriptEnd::Memory => End::Memory,
        }
    }
}

// The end of a script, by its session's end and by whether a fault of the disk stopped the house.
fn end_of_session(end: SessionEnd, stopped: bool) -> ScriptEnd
    ensures { result ≡ end_of_session end stopped }
{
    match end {
        SessionEnd::Ended if stopped => ScriptEnd::Stopped,
        SessionEnd::Ended => ScriptEnd::Done,
        SessionEnd::SourceFault => ScriptEnd::SourceFault,
        SessionEnd::SinkFault => ScriptEnd::SinkFault,
        SessionEnd::Limit => ScriptEnd::Limit,
        SessionEnd::Memory => ScriptEnd::Memory,
    }
}

/// A script whose roster was read: what it runs with, that roster, and the form's words.
#[derive(Drop)]
pub struct Script<'a, R: Threads + Wait + Sync, V: Solver, G: Gate, T: Clock> {
    pub with: &'a Resources<'a, R, V, G, T>,
    pub roster: &'a Roster,
    pub words: &'a ScriptWords<'a>,
}

impl<'a, R: Threads + Wait + Sync, V: Solver, G: Gate, T: Clock> Script<'a, R, V, G, T> {
    // Serves one session under seat 0, over a house that was just opened. Where memory for the lock or the session's buffers
    // is not to be had, nothing is read or written.
    fn serve_house<D: Disk + Send, S: Source, K: Sink>(
        &self,
        house: House<D>,
        input: &mut S,
        output: &mut K,
    ) -> (SessionEnd, House<D>)
        requires opened { end_of house.history ≡ (figures_of house).opening }
        requires roster { self.now.roster.now ≡ house.history.base.state.roster }
        requires running { is_stopped house ≡ false }
        ensures ends { ScriptEnds (T.tells self.now.with.now.clock.now) house result.1 (S.flow input.old) (S.flow input.new) (K.taken output.old) (K.taken output.new) result.0 }
        ensures figures { figures_of result.1 ≡ figures_of house }
        ensures source_fault { result.0 ≡ SessionEnd.SourceFault → Rose (S.faults input.old) (S.faults input.new) }
        ensures sink_fault { result.0 ≡ SessionEnd.SinkFault → Rose (K.faults output.old) (K.faults output.new) }
    {
        let (turns, pass) = match Turns::new(self.with.alloc, house) {
            Ok(lock) => lock,
            Err(house) => return (SessionEnd::Memory, house),
        };
        let host = Host {
            alloc: self.with.alloc,
            workers: self.with.workers(self.words.workers),
            clock: self.with.clock,
            roster: self.roster,
        };
        let (end, pass) = host.serve(&turns, pass, input, output);
        (end, turns.close(self.with.rt, pass))
    }
}

/// Reads the roster of the file with this name, opens the journal with that one, and serves one session. No file changes but
/// the journal, whose disk comes back.
pub fn run_script<
    R: Threads + Wait + Sync,
    V: Solver,
    G: Gate,
    T: Clock,
    F: Files,
    S: Source,
    K: Sink,
    D: Disk + Send,
>(
    with: &Resources<'_, R, V, G, T>,
    files: &mut F,
    words: &ScriptWords<'_>,
    input: &mut S,
    output: &mut K,
    disk: D,
) -> (ScriptEnd, D)
    requires { IsSettled (D.history disk) }
    ensures runs { let seen = disk_by D.Disk in let streams = streams_by S.Source K.Sink in
        ScriptRuns (T.tells with.now.clock.now) words.now.roster.now (files_by F.Files files.old) (files_by F.Files files.new)
        (streams input.old output.old) (streams input.new output.new) (seen disk) (seen result.1) result.0 }
    ensures stays { F.folder files.new ≡ F.folder files.old }
{
    let roster = match load_roster(with.alloc, files, words.roster) {
        Ok(roster) => roster,
        Err(fault) => return (ScriptEnd::Unloaded(fault), disk),
    };
    let house = match open_house(with.alloc, &roster, words.journal, disk) {
        Ok(house) => house,
        Err((fault, disk)) => return (ScriptEnd::Unopened(fault), disk),
    };
    let script = Script {
        with,
        roster: &roster,
        words,
    };
    let (end, house) = script.serve_house(house, input, output);
    let stopped = house.is_stopped();
    (end_of_session(end, stopped), house.end())
}
