//! The desk is asked what a batch holds.
ghost use Rattle.std.specs.Prelude.{◌≡◌, ◌+◌, ◌<◌, ◌≤◌, take, drop, reverse, vec_len};
ghost use Rattle.cycle_lock.specs.Turn.{HasAnswered, IsSound, StaysAhead, StaysAheadFrom};

use super::{Batch, Home};
use command_types::Desk;

impl Batch {
    // Asks the commands from this place on. A front of them is answered, at least the first.
    fn ask<T: Desk>(&mut self, from: usize, desk: &mut T)
        requires within { from < vec_len self.old.commands }
        ensures passes { self.new.passes.items ≡ self.old.passes.items }
        ensures at { self.new.at ≡ self.old.at }
        ensures some { 0 < vec_len self.new.replies }
        ensures rest { drop (from + vec_len self.new.replies) self.new.commands.items ≡ drop (from + vec_len self.new.replies) self.old.commands.items }
        ensures told { HasAnswered T.history T.figures T.stopped desk.old desk.new (take (vec_len self.new.replies) (drop from self.old.commands.items)) (reverse self.new.replies.items) }
        ensures sound { IsSound T.history T.figures T.stopped (T.figures desk.old) desk.new }
    {
        desk.ask_all(&mut self.commands[from..], &mut self.replies);
        self.replies.reverse();
    }
}

impl<T: Desk> Home<T> {
    /// Asks the commands from this place on, where no reply is left.
    pub(crate) fn refill(&mut self, from: usize)
        requires within { from < vec_len self.old.batch.commands }
        requires none { vec_len self.old.batch.replies ≡ 0 }
        ensures ahead { StaysAheadFrom T.history T.figures T.stopped from self.old self.new }
        ensures some { 0 < vec_len self.new.batch.replies }
        ensures passes { self.new.batch.passes.items ≡ self.old.batch.passes.items }
    {
        self.batch.ask(from, &mut self.desk);
    }

    /// There is a reply for the next pass.
    pub(crate) fn ready(&mut self)
        requires some { 0 < vec_len self.old.batch.passes }
        requires left { vec_len self.old.batch.passes ≤ vec_len self.old.batch.commands + vec_len self.old.batch.replies }
        ensures ahead { StaysAhead T.history T.figures T.stopped self.old self.new }
        ensures some { 0 < vec_len self.new.batch.replies }
        ensures passes { self.new.batch.passes.items ≡ self.old.batch.passes.items }
    {
        if self.batch.replies.is_empty() {
            let from = self.batch.commands.len() - self.batch.passes.len();
            self.refill(from);
        }
    }
}
