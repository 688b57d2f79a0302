//! What a lock keeps, and what a session asks.

ghost use Rattle.std.specs.Prelude.{◌≡◌, ◌≤◌, ◌<◌, ◌^◌, Bool, IsTrue, true, false, length, take, drop, vec_len, vec_capacity};
ghost use Rattle.command_types.specs.declared.figures.Figures.{Figures};
ghost use Rattle.command_types.specs.History.{History, IsLegal, end_of, longer, recorded, is_recorded};
ghost use Rattle.command_types.specs.Roster.{IsRoster};
ghost use Rattle.command_types.specs.Told.{IsTold};
ghost use Rattle.command_types.specs.InTurn.{AreToldInTurn};
ghost use Rattle.command_types.specs.declared.desk.TheConstants.{MOST_TOGETHER};

use crate::answer::Reply;
use crate::ask::{Ask, Entry};

/// How many commands are asked together at most.
pub const MOST_TOGETHER: usize = 64;

/// One history, and the machine that answers from its end.
pub trait Desk: Send + Drop {
    // The accepted changes, from the base on.
    ghost history: { Self → History };

    // What the desk was when it was made.
    ghost figures: { Self → Figures };

    // A disk fault stopped it.
    ghost stopped: { Self → Bool };

    /// Answers a command of this seat. The history grows by the command exactly where the reply says that it is recorded.
    fn ask(&mut self, seat: u32, ask: Ask) -> Reply
        ensures place { result.at ≡ end_of (history self.new) }
        ensures told { IsTold (figures self.old) (stopped self.old) (stopped self.new) (history self.new) seat ask result }
        ensures grows { history self.new ≡ longer (history self.old) (recorded seat ask result.answer) }
        ensures runs { IsTrue (is_recorded ask.what result.answer) → stopped self.new ≡ false }
        ensures base { (history self.new).base ≡ (figures self.new).base }
        ensures legal { IsLegal (history self.new) }
        ensures short { end_of (history self.new) < 2 ^ 63 }
        ensures opening { (figures self.new).opening ≤ end_of (history self.new) }
        ensures figures { figures self.new ≡ figures self.old }
        ensures stays { stopped self.old ≡ true → stopped self.new ≡ true };

    /// Answers a front of these commands, at least the first, each as if it were asked alone behind the one before it. What is
    /// answered may be taken out of the commands. The replies take the place of those before.
    fn ask_all(&mut self, commands: &mut [Entry], replies: &mut Vec<Reply>)
        requires some { 0 < length commands.old }
        requires few { length commands.old ≤ MOST_TOGETHER }
        requires room { length commands.old ≤ vec_capacity replies.old }
        ensures some { 0 < vec_len replies.new }
        ensures few { vec_len replies.new ≤ length commands.old }
        ensures rest { drop (vec_len replies.new) commands.new ≡ drop (vec_len replies.new) commands.old }
        ensures told { AreToldInTurn (figures self.old) (stopped self.old) (stopped self.new) (history self.old) (take (vec_len replies.new) commands.old) replies.new.items (history self.new) }
        ensures capacity { vec_capacity replies.new ≡ vec_capacity replies.old }
        ensures base { (history self.new).base ≡ (figures self.new).base }
        ensures legal { IsLegal (history self.new) }
        ensures short { end_of (history self.new) < 2 ^ 63 }
        ensures opening { (figures self.new).opening ≤ end_of (history self.new) }
        ensures figures { figures self.new ≡ figures self.old };

    /// The length of the history. It takes no memory.
    fn length(&self) -> u64
        ensures length { result ≡ end_of (history self.now) }
        ensures base { (history self.now).base ≡ (figures self.now).base }
        ensures legal { IsLegal (history self.now) }
        ensures short { end_of (history self.now) < 2 ^ 63 }
        ensures opening { (figures self.now).opening ≤ end_of (history self.now) }
        ensures roster { IsRoster (figures self.now).base.state.roster };
}
