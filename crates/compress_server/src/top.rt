//! The program, over whatever files and streams it is given.

ghost use Rattle.std.specs.Prelude.{◌≡◌, map, string_bytes};
ghost use Rattle.outside.specs.Disk.{IsSettled};
ghost use Rattle.program_words.specs.Words.{form_of, idle_after};
ghost use Rattle.compress_server.specs.Files.{files_by};
ghost use Rattle.compress_server.specs.Seen.{input_by, seen_by, world_by};
ghost use Rattle.compress_server.specs.Ending.{Runs};
ghost use Rattle.compress_server.specs.Telling.{Ends};

use crate::check::run_check;
use crate::ending::{End, tell_end};
use crate::following::run_follow;
use crate::generated::run_gen;
use crate::replay::run_replay;
use crate::resources::Resources;
use crate::rolling::run_roll;
use crate::script::run_script;
use crate::serve::run_serve;
use crate::solve::run_solve;
use doors::Listener;
use network_laws::Solver;
use outside::{Clock, Disk, Files, Gate, Sink, Source};
use path_solver::PathSolver;
use program_words::{Count, Form, read_words};
use std::alloc::Global;
use std::sync::Wait;
use std::thread::Threads;

// Does what the words ask for.
fn run_form<
    R: Threads + Wait + Sync,
    V: Solver,
    G: Gate,
    T: Clock,
    F: Files,
    S: Source,
    K: Sink,
    D: Disk + Send,
    L: Listener,
>(
    with: &Resources<'_, R, V, G, T>,
    words: &[String],
    files: &mut F,
    input: &mut S,
    output: &mut K,
    disk: D,
    listener: &mut L,
) -> (End, D)
    requires { IsSettled (D.history disk) }
    ensures runs { let seen = seen_by K.Sink D.Disk L.doors L.faults in
        Runs (T.tells with.now.clock.now) L.Door.visits (form_of (map string_bytes words.now)) (files_by F.Files files.old) (files_by F.Files files.new)
        (input_by S.Source input.old) (input_by S.Source input.new) (seen output.old disk listener.old) (seen output.new result.1 listener.new) result.0 }
    ensures idle { L.idle listener.new ≡ idle_after (form_of (map string_bytes words.now)) (L.idle listener.old) }
    ensures stays { F.folder files.new ≡ F.folder files.old }
{
    match read_words(words) {
        None => (End::BadWords, disk),
        Some(Form::Script(words)) => {
            let (end, disk) = run_script(with, files, &words, input, output, disk);
            (End::from(end), disk)
        }
        Some(Form::Serve(words)) => {
            let (end, disk) = run_serve(with, files, &words, output, disk, listener);
            (End::from(end), disk)
        }
        Some(Form::Check(words)) => {
            let workers = with.workers(Count::usual());
            let end = run_check(with.alloc, files, &words, output, &workers);
            (End::from(end), disk)
        }
        Some(Form::Solve { market, workers }) => {
            let workers = with.workers(workers);
            let end = run_solve(with.alloc, files, &market, output, &workers);
            (End::from(end), disk)
        }
        Some(Form::Gen { number, workers }) => {
            let workers = with.workers(workers);
            let end = run_gen(with.alloc, number, output, &workers);
            (End::from(end), disk)
        }
        Some(Form::Replay(words)) => {
            let mut disk = disk;
            let end = run_replay(with.alloc, files, &words, output, &mut disk);
            (End::from(end), disk)
        }
        Some(Form::Roll(words)) => {
            let mut disk = disk;
            let end = run_roll(with.alloc, files, &words, output, &mut disk);
            (End::from(end), disk)
        }
        Some(Form::Follow(words)) => {
            let (end, disk) = run_follow(with.alloc, files, &words, input, output, disk);
            (End::from(end), disk)
        }
    }
}

/// Runs the program by its words:
///
/// - `script ROSTER JOURNAL [--workers W]`: one session, under seat 0, over the roster of a file, on the history that the
///   journal keeps; each of its changes is in the journal before it is answered.
/// - `serve ROSTER JOURNAL ADDRESS [--seats N] [--connections C] [--workers W] [--idle SECONDS]`: N seats, under the numbers
///   1 to N, beside one another over the same; each serves the connections of a door at the address, one after another, at
///   most C of them. In the end `history N` tells the history's length. The listener is told SECONDS, for which a call of a
///   connection may wait: one that fails by then is a fault of that connection.
/// - `check ROSTER TRADES MODE PROPOSAL`: whether a proposal is right for a market; `yes`, or `no`, the first product
///   that fails and why.
/// - `solve ROSTER TRADES MODE [--workers W]`: a proposal for a market.
/// - `gen NUMBER [--workers W]`: the summary of the market of a number from 1 to 10^18, solved in the hybrid mode.
/// - `replay ROSTER JOURNAL`: what the journal stands for: each member and the trades in which it has a side, each
///   execution, and how many changes there are. Nothing is written to the disk.
/// - `roll ROSTER JOURNAL NEW-ROSTER [--matured DAY] [--cancel]`: a journal over the new roster, with which the market of this
///   one goes on: one position further, with its open trades, numbered from 1, and the settings of members and products that
///   are there. With DAY the trades of products that mature by it are left out. With `--cancel` all this is of the history
///   after a CANCEL of the open cycle by the operator, if one is open. Nothing is written to the disk.
/// - `follow ROSTER JOURNAL NAME KEY [--compare]`: a standby. It greets a primary at the other end of input and output as NAME with
///   KEY, and asks for one entry after another, from the journal's end on; each is in the journal before the next is asked for. With
///   `--compare` it first asks for its last entry again.
///
/// MODE is `conservative`, `hybrid` or `free`. W workers solve, from 1 to 64, and 4 check; N is from 1 to 64, C from 1 to 1,000,000,
/// and SECONDS from 1 to 86,400. Where the option is not given, W and N are 4, C is 1,000,000, and a call may wait without
/// end. DAY is `YYYY-MM-DD`. An option is `--name V` or `--name=V`, `--compare` has no value; it stands at any place behind the form's name, at most once; `--` ends the options.
///
/// The files are read in the order of the words of the form, the proposal last, a roll's journal behind both rosters, and the
/// first that can't be had ends the call. The disk, which a script attaches to its journal, has to be settled: a crash now would leave what a read gives. It is
/// handed back in each case. A worker passes the gate before it solves a piece. It answers the status:
///
/// - 0: all was done and written: a script's input was read to its end, or a BYE was accepted; a check says yes; a standby has
///   all that its primary had;
/// - 1: a check says no;
/// - 2: the words are out of form;
/// - 3: a file has a fault, and the files before it have none;
/// - 4: the input of a script failed; its whole lines up to there are replied to; or that of a standby;
/// - 5: the output failed; a front of what was to be written is there. Lines of a script whose replies are not may be
///   answered, and their changes made, if they were read together with one whose reply was cut off;
/// - 6: the disk failed: at the opening, and nothing was read or written; or later, and the session or all seats ended as
///   with 0;
/// - 7: the journal is damaged at a place that is told, and stays as it is;
/// - 8: a script's session took 2^30 bytes; its whole lines up to there are replied to;
/// - 9: memory was not to be had; where a seat found none, the others served on;
/// - 10: the listener failed, and no seat began; or the door of a seat, and the others served on;
/// - 11: the files failed at one of them, and the files before it have no fault;
/// - 12: a standby's primary refused, with the number that is told;
/// - 13: a standby's primary said what may not stand at the offset that is told, or nothing more;
/// - 14: a standby's journal is full, at the size that is told;
/// - 15: the market of a roll can't go on over the new roster, for the cause that is told.
///
/// At 2, 3, 7, 9, 11 and 15 nothing was read from the input or written to the output, but by a standby at 9. A check, a solve, a gen, a replay and a
/// roll read no input; the first three leave the disk alone. For each status but 0 and 1 one line goes to the errors. The moment of each
/// command is one that the clock tells.
pub fn run<
    R: Threads + Wait + Sync,
    F: Files,
    S: Source,
    K: Sink,
    E: Sink,
    D: Disk + Send,
    L: Listener,
    G: Gate,
    T: Clock,
>(
    rt: &R,
    alloc: Global,
    words: &[String],
    files: &mut F,
    input: &mut S,
    output: &mut K,
    errors: &mut E,
    disk: D,
    listener: &mut L,
    gate: &G,
    clock: &T,
) -> (u8, D)
    requires { IsSettled (D.history disk) }
    ensures ends { let seen = seen_by K.Sink D.Disk L.doors L.faults in
        let world = world_by F.Files S.Source E.Sink seen in
        Ends (T.tells clock.now) L.Door.visits (form_of (map string_bytes words.now)) (world files.old input.old errors.old output.old disk listener.old)
        (world files.new input.new errors.new output.new result.1 listener.new) result.0 }
    ensures idle { L.idle listener.new ≡ idle_after (form_of (map string_bytes words.now)) (L.idle listener.old) }
    ensures files { F.folder files.new ≡ F.folder files.old }
{
    let solver = PathSolver::new(alloc);
    let with = Resources {
        rt,
        alloc,
        solver: &solver,
        gate,
        clock,
    };
    let (end, disk) = run_form(&with, words, files, input, output, disk, listener);
    (tell_end(alloc, errors, end), disk)
}
