//! What is replied to one question after another, from a source that is lent.
ghost use Rattle.std.specs.Prelude.{◌≡◌, [], IfOk};
ghost use Rattle.standby_wire.specs.Replies.{IsFor};
ghost use Rattle.standby_wire.specs.Replied.{hearing_over, Hears, IsHearing, IsSameSource};

use crate::inbox::{Inbox, WaitFault};
use crate::reply::{Question, Reply};
use outside::Source;
use std::alloc::Global;
use std::marker::Model;
use std::snapshot::Snapshot;

// A question, where its reply was due, and the reply, for contracts alone: it has no bytes.
#[derive(Drop)]
pub(crate) struct Noted {
    question: Snapshot<Question>,
    due: Snapshot<u64>,
    reply: Snapshot<Reply>,
}

/// Replies, as they come from one source, which each call is lent. Contracts see what was replied to each question, what was taken
/// beyond that, and the source at first.
#[derive(Drop)]
pub struct Hearing<S: Source> {
    inbox: Inbox,
    replied: Vec<Noted>,
    // The source as it was at first, for contracts alone.
    first: Snapshot<S>,
}

impl<S: Source> Model for Hearing<S> {
    ghost use Rattle.std.specs.Prelude.{map};
    ghost use Rattle.standby_wire.specs.Noted.{replied_of};
    ghost use Rattle.standby_wire.specs.Replied.{HeardView};

    ghost Value = { HeardView };

    ghost view = { λ h. record {
      replied = map replied_of h.replied.items;
      pending = h.inbox;
      first = S.flow h.first.value;
      first_faults = S.faults h.first.value;
    } };
}

impl<S: Source> Hearing<S> {
    /// Nothing was asked yet. It takes no memory.
    pub fn new(alloc: Global, source: &S) -> Hearing<S>
        ensures none { result.replied ≡ [] }
        ensures pending { result.pending ≡ record { bytes = []; due = 0 } }
        ensures first { (result.first ≡ S.flow source.now) × (result.first_faults ≡ S.faults source.now) }
        ensures heard { IsHearing (hearing_over result (S.flow source.now) (S.faults source.now)) }
    {
        Hearing {
            inbox: Inbox::new(alloc),
            replied: Vec::new(alloc),
            first: Snapshot::of(source),
        }
    }

    /// The offset in the input at which the next reply is due.
    pub fn due(&self) -> u64
        ensures { result ≡ self.now.pending.due }
    {
        self.inbox.due()
    }

    /// Waits for the reply to a question. The source is the one from the start, as each call left it.
    pub fn ask(&mut self, source: &mut S, question: &Question) -> Result<Reply, WaitFault>
        ensures hears { Hears question.now (hearing_over self.old (S.flow source.old) (S.faults source.old)) (hearing_over self.new (S.flow source.new) (S.faults source.new)) result }
        ensures fits { IfOk result (λ reply. IsFor reply question.now) }
        ensures same { IsSameSource (hearing_over self.old (S.flow source.old) (S.faults source.old)) (hearing_over self.new (S.flow source.new) (S.faults source.new)) }
        ensures heard { IsHearing (hearing_over self.old (S.flow source.old) (S.faults source.old)) → IsHearing (hearing_over self.new (S.flow source.new) (S.faults source.new)) }
    {
        if self.replied.reserve(1).is_err() {
            return Err(WaitFault::Memory);
        }
        let due = self.inbox.due();
        let reply = self.inbox.wait(source, question)?;
        self.replied.push_reserved(Noted {
            question: Snapshot::of(question),
            due: Snapshot::of(&due),
            reply: Snapshot::of(&reply),
        });
        Ok(reply)
    }
}
