//! How a session asks several lines together: those at the front of what it read whose commands it knows before the first of
//! them is replied to.

ghost use Rattle.std.specs.Prelude.{◌≡◌, ℕ, Bool, ◌≤◌, ◌<◌, List, [], All, length, take, drop, get_or, IfSome, IfNone, IfOk, OnErr};
ghost use Rattle.outside.specs.Faults.{CountsFault};
ghost use Rattle.command_types.specs.Session.{IsTime};
ghost use Rattle.cycle_lock.specs.Passes.{seat_of};
ghost use Rattle.session.specs.AskedRun.{AsksRun, CutsRun, IsRunOf};
ghost use Rattle.session.specs.KeptSpeaker.{speaker_of};
ghost use Rattle.session.specs.Runs.{HasNoFeed, IsCommandOf};
ghost use Rattle.session.specs.Serving.{of_pass, roster_of};
ghost use Rattle.session.specs.Standing.{stand_of, GoesOn, IsCut};

use crate::asks::{ended, read_within};
use crate::moments::moment_now;
use crate::run::may_run;
use crate::session::Session;
use command_types::{Ask, Desk, Entry, MOST_TOGETHER};
use network_laws::Solver;
use outside::{Clock, Failed, Gate, Sink};
use std::sync::Wait;
use std::thread::Threads;

// Where the first line feed is.
fn feed_in(bytes: &[u8]) -> Option<usize>
    ensures feed { IfSome result (λ size. (size < length bytes.now) × HasNoFeed (take size bytes.now) × (get_or bytes.now size 0 ≡ 10)) }
    ensures none { IfNone result (HasNoFeed bytes.now) }
{
    let mut at = 0usize;
    while at < bytes.len() {
        if bytes[at] == b'\n' {
            return Some(at);
        }
        at += 1;
    }
    None
}

/// Whether at least two lines at the front of a piece may stand in a run.
pub fn begins_run(piece: &[u8]) -> bool {
    let Some(first) = feed_in(piece) else {
        return false;
    };
    let behind = &piece[first + 1..];
    let Some(second) = feed_in(behind) else {
        return false;
    };
    may_run(&read_within(ended(&piece[..first]))) && may_run(&read_within(ended(&behind[..second])))
}

impl<'a, T: Desk, R: Threads + Wait + Sync, V: Solver, G: Gate> Session<'a, T, R, V, G> {
    // The command of a line that a line feed ended, to be asked now, if the line may stand in a run.
    fn command_of<C: Clock>(&mut self, clock: &C, line: &[u8]) -> Option<Entry>
        ensures stays { stand_of self.new ≡ stand_of self.old }
        ensures run { self.new.run ≡ self.old.run }
        ensures command { IfSome result (IsCommandOf (C.tells clock.now) (roster_of (of_pass self.old.asker.pass)) (seat_of self.old.asker.pass) (speaker_of self.old.speaker) line.now) }
    {
        let read = read_within(ended(line));
        if !may_run(&read) {
            return None;
        }
        let Ok(what) = self.speaker.prepare(self.alloc, self.roster, &read) else {
            return None;
        };
        let by = self.speaker.party();
        let moment = moment_now(clock);
        Some(Entry {
            seat: self.asker.pass().seat(),
            ask: Ask { by, what, moment },
        })
    }

    // Takes the commands of the first lines of a piece, as far as they may stand in a run. The answer is where these lines end.
    fn gather<C: Clock>(&mut self, clock: &C, piece: &[u8]) -> usize
        ensures within { result ≤ length piece.now }
        ensures stays { stand_of self.new ≡ stand_of self.old }
        ensures run { IsRunOf (C.tells clock.now) (stand_of self.old) (take result piece.now) self.new.run.commands.items }
    {
        self.run.clear();
        let mut end = 0usize;
        while end < piece.len() {
            if self.run.len() >= MOST_TOGETHER {
                return end;
            }
            let Some(size) = feed_in(&piece[end..]) else {
                return end;
            };
            let Some(command) = self.command_of(clock, &piece[end..end + size]) else {
                return end;
            };
            self.run.push(command);
            end += size + 1;
        }
        end
    }

    // Asks the commands of the run from this place on, in one turn, and then puts the replies behind what waits. The answer is
    // the place of the first that is not asked yet.
    fn ask_run<K: Sink>(&mut self, at: usize, sink: &mut K) -> Result<usize, Failed>
        requires within { at < length self.old.run.commands.items }
        requires seats { All (λ command. command.seat ≡ seat_of self.old.asker.pass) (drop at self.old.run.commands.items) }
        requires times { (clock : ℕ → Bool) × All (λ command. IsTime clock command.ask.moment) (drop at self.old.run.commands.items) }
        ensures within { IfOk result (λ next. (at < next) × (next ≤ length self.new.run.commands.items)) }
        ensures length { length self.new.run.commands.items ≡ length self.old.run.commands.items }
        ensures on { IfOk result (λ next. AsksRun (stand_of self.old) (stand_of self.new) (K.taken sink.old) (K.taken sink.new) (drop at self.old.run.commands.items) (drop next self.new.run.commands.items)) }
        ensures cut_off { OnErr result (CutsRun (stand_of self.old) (stand_of self.new) (K.taken sink.old) (K.taken sink.new) (drop at self.old.run.commands.items)) }
        ensures counts { CountsFault result (K.faults sink.old) (K.faults sink.new) }
    {
        self.run.ask(at, &mut self.asker);
        self.writer
            .write_all(self.roster, self.asker.pass(), self.run.replies(), sink)?;
        Ok(at + self.run.replies().len())
    }

    /// Asks the first lines of a piece, as far as they may stand in a run, and puts their replies behind what waits. The answer
    /// is where these lines end.
    pub fn take_run<C: Clock, K: Sink>(
        &mut self,
        clock: &C,
        piece: &[u8],
        sink: &mut K,
    ) -> Result<usize, Failed>
        ensures within { IfOk result (λ size. size ≤ length piece.now) }
        ensures on { IfOk result (λ size. GoesOn (C.tells clock.now) (stand_of self.old) (stand_of self.new) [] [] (K.taken sink.old) (K.taken sink.new) (take size piece.now)) }
        ensures cut_off { OnErr result (IsCut (C.tells clock.now) (stand_of self.old) (stand_of self.new) [] (K.taken sink.old) (K.taken sink.new) piece.now) }
        ensures counts { CountsFault result (K.faults sink.old) (K.faults sink.new) }
    {
        let end = self.gather(clock, piece);
        let mut at = 0usize;
        while at < self.run.len() {
            at = self.ask_run(at, sink)?;
        }
        Ok(end)
    }
}
