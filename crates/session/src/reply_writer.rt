//! How the text of a reply is written: its head line, its detail lines and an entry's bytes, each behind what waits for the sink.

ghost use Rattle.std.specs.Prelude.{◌≡◌, ◌++◌, [], All, OnOk, OnErr, IfOk};
ghost use Rattle.outside.specs.Faults.{CountsFault};
ghost use Rattle.outside.specs.Flow.{Takes, TakesFront};
ghost use Rattle.command_types.specs.Details.{raw_text, reply_text};
ghost use Rattle.session.specs.Given.{IsGiven};
ghost use Rattle.session.specs.Pending.{Says};
ghost use Rattle.session.specs.Runs.{replies_text};
ghost use Rattle.session.specs.Serving.{of_pass};

use crate::given::Given;
use crate::outbox::Outbox;
use command_text::write_head;
use command_types::{Answer, Reply, Roster};
use cycle_lock::Pass;
use outside::{Failed, Sink};
use statements::{detail_count, detail_row, write_row};
use std::alloc::{AllocError, Global};

/// Writes replies: a buffer for one line, and what waits for the sink.
#[derive(Drop)]
pub struct ReplyWriter {
    line: [u8; 4096],
    outbox: Outbox,
}

impl ReplyWriter {
    /// Nothing waits. It takes all its memory now.
    pub fn new(alloc: Global) -> Result<ReplyWriter, AllocError>
        ensures { IfOk result (λ w. w.outbox ≡ []) }
    {
        Ok(ReplyWriter {
            line: [0; 4096],
            outbox: Outbox::new(alloc)?,
        })
    }

    /// Puts the text of a reply that was given behind what waits. What waits goes to the sink where there is no room for a line
    /// more.
    pub fn write<K: Sink>(
        &mut self,
        roster: &Roster,
        given: &Given<'_>,
        sink: &mut K,
    ) -> Result<(), Failed>
        ensures said { OnOk result (Says (K.taken sink.old) (K.taken sink.new) self.old.outbox self.new.outbox (reply_text roster.now given.now.reply.now)) }
        ensures front { OnErr result (TakesFront (K.taken sink.old) (K.taken sink.new) (self.old.outbox ++ reply_text roster.now given.now.reply.now)) }
        ensures counts { CountsFault result (K.faults sink.old) (K.faults sink.new) }
    {
        let end = write_head(given.reply, roster, &mut self.line);
        self.outbox.put(&self.line[..end], sink)?;
        for index in 0..detail_count(&given.reply.answer) {
            let row = detail_row(&given.reply.answer, index);
            let end = write_row(&row, roster, &mut self.line);
            self.outbox.put(&self.line[..end], sink)?;
        }
        self.write_raw(&given.reply.answer, sink)
    }

    // Puts the bytes of an entry and a line feed behind what waits, if the answer tells an entry.
    fn write_raw<K: Sink>(&mut self, answer: &Answer, sink: &mut K) -> Result<(), Failed>
        ensures said { OnOk result (Says (K.taken sink.old) (K.taken sink.new) self.old.outbox self.new.outbox (raw_text answer.now)) }
        ensures front { OnErr result (TakesFront (K.taken sink.old) (K.taken sink.new) (self.old.outbox ++ raw_text answer.now)) }
        ensures counts { CountsFault result (K.faults sink.old) (K.faults sink.new) }
    {
        let Answer::EntryBytes { bytes, .. } = answer else {
            return Ok(());
        };
        self.outbox.put_long(bytes.rows(), sink)?;
        self.outbox.put(b"\n", sink)
    }

    /// Puts the texts of replies that were given with this pass behind what waits, one after another.
    pub fn write_all<K: Sink>(
        &mut self,
        roster: &Roster,
        pass: &Pass,
        replies: &[Reply],
        sink: &mut K,
    ) -> Result<(), Failed>
        requires given { All (λ reply. IsGiven (of_pass pass.now) reply) replies.now }
        ensures said { OnOk result (Says (K.taken sink.old) (K.taken sink.new) self.old.outbox self.new.outbox (replies_text roster.now replies.now)) }
        ensures front { OnErr result (TakesFront (K.taken sink.old) (K.taken sink.new) (self.old.outbox ++ replies_text roster.now replies.now)) }
        ensures counts { CountsFault result (K.faults sink.old) (K.faults sink.new) }
    {
        for reply in replies {
            let given = Given { reply, pass };
            self.write(roster, &given, sink)?;
        }
        Ok(())
    }

    /// Gives the sink all that waits. Where the sink fails, it took a front.
    pub fn flush<K: Sink>(&mut self, sink: &mut K) -> Result<(), Failed>
        ensures takes { OnOk result (Takes (K.taken sink.old) (K.taken sink.new) self.old.outbox) }
        ensures empty { OnOk result (self.new.outbox ≡ []) }
        ensures front { OnErr result (TakesFront (K.taken sink.old) (K.taken sink.new) self.old.outbox) }
        ensures counts { CountsFault result (K.faults sink.old) (K.faults sink.new) }
    {
        self.outbox.flush(sink)
    }
}
