//! How a line is replied to.

ghost use Rattle.std.specs.Prelude.{◌≡◌, ℕ, Bool, Some, None};
ghost use Rattle.command_types.specs.History.{end_of};
ghost use Rattle.command_types.specs.Session.{what_or_fault, IsTime};
ghost use Rattle.cycle_lock.specs.Passes.{seen};
ghost use Rattle.session.specs.Asks.{line_read, proposal_in};
ghost use Rattle.session.specs.KeptDraft.{HasRoom, HasPotential};
ghost use Rattle.session.specs.KeptSpeaker.{speaker_of};
ghost use Rattle.session.specs.Serving.{of_pass, roster_of, AnswersRead, Answers};

use crate::asker::Asker;
use crate::asks::read_within;
use crate::moments::moment_now;
use crate::proposals::propose;
use crate::speaker::Speaker;
use command_text::BadLine;
use command_types::{Answer, Ask, Desk, Line, Mode, Moment, Refusal, Reply, Roster, What};
use network_laws::Solver;
use outside::{Clock, Gate};
use std::alloc::Global;
use std::sync::Wait;
use std::thread::Threads;

// The cycle and the mode of a PROPOSE.
fn proposal_in(read: &Result<Line, BadLine>) -> Option<(u64, Mode)>
    ensures { result ≡ proposal_in (line_read read.now) }
{
    match *read {
        Ok(Line::Propose { cycle, mode }) => Some((cycle, mode)),
        _ => None,
    }
}

// Solves and posts, and takes the answer in.
fn answer_proposal<T: Desk, R: Threads + Wait + Sync, V: Solver, G: Gate, C: Clock>(
    alloc: Global,
    asker: &mut Asker<'_, T, R, V, G>,
    clock: &C,
    speaker: &mut Speaker,
    read: &Result<Line, BadLine>,
    proposed: (u64, Mode),
) -> Reply
    requires { proposal_in (line_read read.now) ≡ Some proposed }
    ensures { AnswersRead (C.tells clock.now) (of_pass asker.old.pass) (of_pass asker.new.pass) (speaker_of speaker.old) (speaker_of speaker.new) (line_read read.now) result }
{
    let by = speaker.party();
    let (cycle, mode) = proposed;
    let reply = propose(alloc, asker, clock, &by, cycle, mode);
    speaker.hear(read, &reply.answer);
    reply
}

// Asks at this moment what was read of a line, and takes the answer in.
fn ask<T: Desk, R: Threads + Wait + Sync, V: Solver, G: Gate>(
    asker: &mut Asker<'_, T, R, V, G>,
    speaker: &mut Speaker,
    read: &Result<Line, BadLine>,
    what: What,
    moment: Moment,
) -> Reply
    requires room { HasRoom speaker.old.draft read.now }
    requires potential { HasPotential (line_read read.now) }
    requires one { proposal_in (line_read read.now) ≡ None }
    requires what { what ≡ what_or_fault (roster_of (of_pass asker.old.pass)) (speaker_of speaker.old).draft (line_read read.now) }
    ensures { (clock : ℕ → Bool) → IsTime clock moment → AnswersRead clock (of_pass asker.old.pass) (of_pass asker.new.pass) (speaker_of speaker.old) (speaker_of speaker.new) (line_read read.now) result }
{
    let by = speaker.party();
    let reply = asker.ask(Ask { by, what, moment });
    speaker.hear(read, &reply.answer);
    reply
}

// The reply where no memory was to be had for a command.
fn no_memory<T: Desk, R: Threads + Wait + Sync, V: Solver, G: Gate>(
    asker: &Asker<'_, T, R, V, G>,
) -> Reply
    ensures { result ≡ record { at = end_of (seen asker.now.pass); answer = Answer.No Refusal.Memory } }
{
    Reply {
        at: asker.length(),
        answer: Answer::No(Refusal::Memory),
    }
}

/// Replies to a line, of which at least the first 4,097 bytes are given.
pub fn reply_to<T: Desk, R: Threads + Wait + Sync, V: Solver, G: Gate, C: Clock>(
    alloc: Global,
    asker: &mut Asker<'_, T, R, V, G>,
    clock: &C,
    roster: &Roster,
    speaker: &mut Speaker,
    line: &[u8],
) -> Reply
    requires { roster.now ≡ roster_of (of_pass asker.old.pass) }
    ensures { Answers (C.tells clock.now) (of_pass asker.old.pass) (of_pass asker.new.pass) (speaker_of speaker.old) (speaker_of speaker.new) line.now result }
{
    let read = read_within(line);
    if let Some(proposed) = proposal_in(&read) {
        return answer_proposal(alloc, asker, clock, speaker, &read, proposed);
    }
    let moment = moment_now(clock);
    match speaker.prepare(alloc, roster, &read) {
        Ok(what) => ask(asker, speaker, &read, what, moment),
        Err(_) => no_memory(asker),
    }
}
