//! The way in: replies as they come from a source.
ghost use Rattle.std.specs.Prelude.{◌≡◌, ◌≤◌, ◌<◌, ◌-◌, ◌^◌, [], length, IfOk, OnErr, Err};
ghost use Rattle.outside.specs.Faults.{CountsWhere};
ghost use Rattle.standby_wire.specs.Gives.{Gives};
ghost use Rattle.standby_wire.specs.Replies.{reply_to, IsFor};
ghost use Rattle.standby_wire.specs.Taking.{moved_on, Waits, Fills};

use crate::replies::reply_to;
use crate::reply::{Question, Reply};
use crate::stop::{NoReply, Stop};
use outside::Source;
use std::alloc::Global;
use std::marker::Model;

// How many bytes are taken at most at a time.
const PIECE: usize = 4096;

/// Why no reply was read.
#[derive(Clone, Copy, Debug, PartialEq, Eq)]
pub enum WaitFault {
    /// From this offset of the input on there is no reply that may stand there.
    Broken { at: u64 },
    /// The source failed.
    SourceFault,
    /// There was no memory.
    Memory,
}

/// What was taken of a source and belongs to no reply yet. Its room grows with the bytes that come. Contracts see these bytes, and
/// the offset of the first.
#[derive(Drop)]
pub struct Inbox {
    bytes: Vec<u8>,
    start: usize,
    due: u64,
    alloc: Global,
}

impl Model for Inbox {
    ghost use Rattle.std.specs.Prelude.{◌≤◌, drop, length};
    ghost use Rattle.standby_wire.specs.Taking.{Pending};

    ghost Value = { Pending };

    ghost view = { λ i. record { bytes = drop i.start i.bytes.items; due = i.due } };

    ghost invariant = { λ i. i.start ≤ length i.bytes.items };
}

impl Inbox {
    /// Nothing was taken yet. It takes no memory.
    pub fn new(alloc: Global) -> Inbox
        ensures { result ≡ record { bytes = []; due = 0 } }
    {
        Inbox {
            bytes: Vec::new(alloc),
            start: 0,
            due: 0,
            alloc,
        }
    }

    /// The offset in the input at which the next reply is due.
    pub fn due(&self) -> u64
        ensures { result ≡ self.now.due }
    {
        self.due
    }

    // What is read of the bytes that are there. Where it is no reply, they stay.
    fn read(&mut self, question: &Question) -> Result<Reply, NoReply>
        ensures gives { Gives result self.new.bytes (reply_to question.now self.old.bytes) }
        ensures fits { IfOk result (λ reply. IsFor reply question.now) }
        ensures stays { OnErr result (self.new ≡ self.old) }
        ensures due { self.new.due ≡ moved_on self.old.due (length self.old.bytes - length self.new.bytes) }
    {
        let mut at = self.start;
        let reply = reply_to(self.alloc, &self.bytes, &mut at, question)?;
        let end = at.min(self.bytes.len());
        self.due = self
            .due
            .saturating_add(end.saturating_sub(self.start) as u64);
        self.start = end;
        Ok(reply)
    }

    // Forgets the bytes of replies.
    #[tactic(auto, using(crate::proofs::InboxFacts::rotated))]
    fn forget(&mut self)
        ensures { self.new ≡ self.old }
    {
        if self.start == 0 {
            return;
        }
        let left = self.bytes.len() - self.start;
        self.bytes.rotate_left(self.start);
        self.bytes.truncate(left);
        self.start = 0;
    }

    // Takes a piece of a source, and says whether there was one. Its room is there before.
    fn fill<S: Source>(&mut self, source: &mut S) -> Result<bool, WaitFault>
        ensures fills { Fills self.old self.new (S.flow source.old) (S.flow source.new) result }
        ensures few { length self.new.bytes < 2 ^ 64 }
        ensures counts { CountsWhere (result ≡ Err WaitFault.SourceFault) (S.faults source.old) (S.faults source.new) }
    {
        self.forget();
        if self.bytes.reserve(PIECE).is_err() {
            return Err(WaitFault::Memory);
        }
        let mut piece = [0; PIECE];
        let Ok(count) = source.read(&mut piece) else {
            return Err(WaitFault::SourceFault);
        };
        if count == 0 {
            return Ok(false);
        }
        if self.bytes.extend_from_slice(&piece[..count]).is_err() {
            unreachable!();
        }
        Ok(true)
    }

    /// Waits for the reply to a question: takes one piece after another of a source, as long as what is there may go on to a reply.
    pub fn wait<S: Source>(
        &mut self,
        source: &mut S,
        question: &Question,
    ) -> Result<Reply, WaitFault>
        ensures waits { Waits question.now self.old self.new (S.flow source.old) (S.flow source.new) result }
        ensures fits { IfOk result (λ reply. IsFor reply question.now) }
        ensures counts { CountsWhere (result ≡ Err WaitFault.SourceFault) (S.faults source.old) (S.faults source.new) }
    {
        loop {
            match self.read(question) {
                Ok(reply) => return Ok(reply),
                Err(NoReply::Stopped(Stop::Bad)) => return Err(WaitFault::Broken { at: self.due }),
                Err(NoReply::Memory) => return Err(WaitFault::Memory),
                Err(NoReply::Stopped(Stop::More)) => {}
            }
            let is_more = self.fill(source)?;
            if !is_more {
                return Err(WaitFault::Broken { at: self.due });
            }
        }
    }
}
