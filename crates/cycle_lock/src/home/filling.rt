//! What is put into a batch, and taken out of it.
ghost use Rattle.std.specs.Prelude.{◌≡◌, ◌<◌, [], ◌∷◌, ◌++◌, reverse, vec_len, true, IfOk};
ghost use Rattle.command_types.specs.declared.desk.TheConstants.{MOST_TOGETHER};
ghost use Rattle.cycle_lock.specs.Errands.{command_of};

use super::Batch;
use crate::errands::Errand;
use crate::pass::Pass;
use command_types::{Entry, MOST_TOGETHER, Reply};
use std::alloc::{AllocError, Global};
use std::mem;

impl Batch {
    /// An empty one. It takes all its memory now.
    pub(crate) fn new(alloc: Global) -> Result<Batch, AllocError>
        ensures empty { IfOk result (λ batch. (batch.passes.items ≡ []) × (batch.commands.items ≡ []) × (batch.replies.items ≡ [])) }
    {
        Ok(Batch {
            passes: Vec::with_capacity(alloc, MOST_TOGETHER)?,
            commands: Vec::with_capacity(alloc, MOST_TOGETHER)?,
            replies: Vec::with_capacity(alloc, MOST_TOGETHER)?,
            at: 0,
            served: 0,
        })
    }

    /// One command alone, at the end of a history of this length.
    pub(crate) fn begin(&mut self, own: Entry, at: u64)
        ensures commands { self.new.commands.items ≡ own ∷ [] }
        ensures passes { self.new.passes.items ≡ [] }
        ensures replies { self.new.replies.items ≡ [] }
        ensures at { self.new.at ≡ at }
    {
        self.passes.clear();
        self.replies.clear();
        self.commands.clear();
        self.commands.push_reserved(own);
        self.at = at;
        self.served = 0;
    }

    /// Whether one more may be called in this turn.
    pub(crate) fn has_room(&self) -> bool
        ensures { result ≡ true → (vec_len self.now.commands < MOST_TOGETHER) × (vec_len self.now.passes < MOST_TOGETHER) }
    {
        self.commands.len() < MOST_TOGETHER && self.passes.len() < MOST_TOGETHER
    }

    /// One pass more. Its command is asked behind the others.
    pub(crate) fn add(&mut self, errand: Errand)
        requires room { (vec_len self.old.commands < MOST_TOGETHER) × (vec_len self.old.passes < MOST_TOGETHER) }
        ensures commands { self.new.commands.items ≡ self.old.commands.items ++ command_of errand ∷ [] }
        ensures passes { self.new.passes.items ≡ self.old.passes.items ++ errand.pass ∷ [] }
        ensures replies { self.new.replies.items ≡ self.old.replies.items }
        ensures at { self.new.at ≡ self.old.at }
    {
        let Errand { pass, ask } = errand;
        self.commands.push_reserved(Entry {
            seat: pass.number,
            ask,
        });
        self.passes.push_reserved(pass);
    }

    /// The passes that were added first come first.
    pub(crate) fn turn_round(&mut self)
        ensures passes { self.new.passes.items ≡ reverse self.old.passes.items }
        ensures commands { self.new.commands.items ≡ self.old.commands.items }
        ensures replies { self.new.replies.items ≡ self.old.replies.items }
        ensures at { self.new.at ≡ self.old.at }
    {
        self.passes.reverse();
    }

    /// The places to ring before more is asked: none, as long as replies are left.
    pub(crate) fn to_ring(&mut self) -> u64
        ensures passes { self.new.passes.items ≡ self.old.passes.items }
        ensures commands { self.new.commands.items ≡ self.old.commands.items }
        ensures replies { self.new.replies.items ≡ self.old.replies.items }
        ensures at { self.new.at ≡ self.old.at }
    {
        if self.replies.is_empty() {
            mem::take(&mut self.served)
        } else {
            0
        }
    }

    /// The next reply.
    pub(crate) fn next_reply(&mut self) -> Reply
        requires some { 0 < vec_len self.old.replies }
        ensures replies { self.old.replies.items ≡ self.new.replies.items ++ result ∷ [] }
        ensures passes { self.new.passes.items ≡ self.old.passes.items }
        ensures commands { self.new.commands.items ≡ self.old.commands.items }
        ensures at { self.new.at ≡ self.old.at }
    {
        let Some(reply) = self.replies.pop() else {
            unreachable!()
        };
        reply
    }

    /// The pass whose reply is next.
    pub(crate) fn next_pass(&mut self) -> Pass
        requires some { 0 < vec_len self.old.passes }
        ensures passes { self.old.passes.items ≡ self.new.passes.items ++ result ∷ [] }
        ensures replies { self.new.replies.items ≡ self.old.replies.items }
        ensures commands { self.new.commands.items ≡ self.old.commands.items }
        ensures at { self.new.at ≡ self.old.at }
    {
        let Some(pass) = self.passes.pop() else {
            unreachable!()
        };
        pass
    }
}
