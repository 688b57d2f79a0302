//! A run: lines whose commands are known before the first of them is replied to, and are asked together.

ghost use Rattle.std.specs.Prelude.{◌≡◌, ◌+◌, ◌≤◌, ◌<◌, [], ◌∷◌, ◌++◌, All, length, drop, vec_len, vec_capacity, IfOk};
ghost use Rattle.command_types.specs.declared.desk.TheConstants.{MOST_TOGETHER};
ghost use Rattle.cycle_lock.specs.Passes.{seat_of};
ghost use Rattle.session.specs.Asks.{line_read};
ghost use Rattle.session.specs.Runs.{may_run, AsksFront};
ghost use Rattle.session.specs.Serving.{of_pass};

use crate::asker::Asker;
use command_text::BadLine;
use command_types::{Desk, Entry, Line, MOST_TOGETHER, Reply};
use network_laws::Solver;
use outside::Gate;
use std::alloc::{AllocError, Global};
use std::sync::Wait;
use std::thread::Threads;

/// Room for the commands of a run, and for the replies to those that were asked last.
#[derive(Drop)]
pub struct Run {
    commands: Vec<Entry>,
    replies: Vec<Reply>,
    ghost few: { vec_len commands ≤ MOST_TOGETHER },
    ghost room: { MOST_TOGETHER ≤ vec_capacity commands },
    ghost reply_room: { MOST_TOGETHER ≤ vec_capacity replies },
}

impl Run {
    /// No commands. It takes all its memory now.
    pub fn new(alloc: Global) -> Result<Run, AllocError>
        ensures { IfOk result (λ run. run.commands.items ≡ []) }
    {
        Ok(Run {
            commands: Vec::with_capacity(alloc, MOST_TOGETHER)?,
            replies: Vec::with_capacity(alloc, MOST_TOGETHER)?,
        })
    }

    /// How many commands there are.
    pub fn len(&self) -> usize
        ensures { result ≡ length self.now.commands.items }
    {
        self.commands.len()
    }

    /// The replies to the commands that were asked last.
    pub fn replies(&self) -> &[Reply]
        ensures { result.now ≡ self.now.replies.items }
    {
        &self.replies
    }

    /// Drops all commands.
    pub fn clear(&mut self)
        ensures { self.new.commands.items ≡ [] }
    {
        self.commands.clear();
    }

    /// One command more, for which there is room.
    pub fn push(&mut self, command: Entry)
        requires room { length self.old.commands.items < MOST_TOGETHER }
        ensures { self.new.commands.items ≡ self.old.commands.items ++ command ∷ [] }
    {
        self.commands.push_reserved(command);
    }

    /// Asks the commands from this place on, in one turn. Some are answered, from the first on; their replies are there then.
    pub fn ask<T: Desk, R: Threads + Wait + Sync, V: Solver, G: Gate>(
        &mut self,
        at: usize,
        asker: &mut Asker<'_, T, R, V, G>,
    )
        requires within { at < length self.old.commands.items }
        requires seats { All (λ command. command.seat ≡ seat_of asker.old.pass) (drop at self.old.commands.items) }
        ensures some { 0 < length self.new.replies.items }
        ensures within { at + length self.new.replies.items ≤ length self.new.commands.items }
        ensures length { length self.new.commands.items ≡ length self.old.commands.items }
        ensures rest { drop (at + length self.new.replies.items) self.new.commands.items ≡ drop (at + length self.new.replies.items) self.old.commands.items }
        ensures asks { AsksFront (of_pass asker.old.pass) (of_pass asker.new.pass) (drop at self.old.commands.items) (length self.new.replies.items) self.new.replies.items }
    {
        asker.ask_all(&mut self.commands[at..], &mut self.replies);
    }
}

/// Whether a line of this kind may stand in a run.
pub fn may_run(read: &Result<Line, BadLine>) -> bool
    ensures { result ≡ may_run (line_read read.now) }
{
    matches!(
        read,
        Err(_)
            | Ok(
                Line::Trade { .. }
                    | Line::Affirm { .. }
                    | Line::End { .. }
                    | Line::Hold { .. }
                    | Line::Free { .. }
                    | Line::Tol { .. }
                    | Line::Nets { .. }
                    | Line::Statement
                    | Line::Freeze { .. }
                    | Line::Limits { .. }
                    | Line::Plan { .. }
                    | Line::Accept { .. }
                    | Line::Decline { .. }
                    | Line::Cancel { .. }
            )
    )
}
