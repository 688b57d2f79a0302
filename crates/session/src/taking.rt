//! How a session takes its input, piece by piece: every whole line that was read is replied to, and the replies are
//! written, before more is read.

ghost use Rattle.std.specs.Prelude.{◌≡◌, ℕ, ◌≤◌, ◌<◌, ◌≢◌, [], ◌∷◌, length, IfOk, OnOk, OnErr, Ok};
ghost use Rattle.outside.specs.Faults.{CountsFault, Rose};
ghost use Rattle.outside.specs.Flow.{TakesFront};
ghost use Rattle.command_types.specs.Session.{nobody};
ghost use Rattle.session.specs.Ending.{Ends, most_piece};
ghost use Rattle.session.specs.KeptSpeaker.{speaker_of};
ghost use Rattle.session.specs.Pending.{Says};
ghost use Rattle.session.specs.Serving.{of_pass};
ghost use Rattle.session.specs.Standing.{stand_of, step_of, RepliesWhole, RepliesInPart, GoesOn, IsLeft, IsCut, EndsWritten, EndsCut};

use crate::asker::Asker;
use crate::asks::ended;
use crate::given::Given;
use crate::line_buffer::LineBuffer;
use crate::replies::reply_to;
use crate::reply_writer::ReplyWriter;
use crate::serve::SessionEnd;
use crate::session::Session;
use command_types::{Answer, Desk};
use network_laws::Solver;
use outside::{Clock, Failed, Gate, Sink, Source};
use std::sync::Wait;
use std::thread::Threads;
use units_core::MOST_INPUT;

// How many bytes a session takes at most.
const LIMIT: usize = MOST_INPUT;

/// Whether a session goes on after a line.
#[derive(Clone, Copy, Debug, PartialEq, Eq)]
pub enum Step {
    On,
    /// A BYE was accepted.
    Over,
}

fn step_after(answer: &Answer) -> Step
    ensures { result ≡ step_of answer.now }
{
    if matches!(answer, Answer::Bye) {
        return Step::Over;
    }
    Step::On
}

// Before a PROPOSE, which may take long, what waits is written.
fn flush_before<K: Sink>(line: &[u8], writer: &mut ReplyWriter, sink: &mut K) -> Result<(), Failed>
    ensures said { OnOk result (Says (K.taken sink.old) (K.taken sink.new) writer.old.outbox writer.new.outbox []) }
    ensures front { OnErr result (TakesFront (K.taken sink.old) (K.taken sink.new) writer.old.outbox) }
    ensures counts { CountsFault result (K.faults sink.old) (K.faults sink.new) }
{
    if line.starts_with(b"PROPOSE ") {
        return writer.flush(sink);
    }
    Ok(())
}

impl<'a, T: Desk, R: Threads + Wait + Sync, V: Solver, G: Gate> Session<'a, T, R, V, G> {
    /// Replies to a line. The reply waits for the sink, but that to a BYE is written.
    pub fn answer<C: Clock, K: Sink>(
        &mut self,
        clock: &C,
        line: &[u8],
        sink: &mut K,
    ) -> Result<Step, Failed>
        ensures whole { IfOk result (RepliesWhole (C.tells clock.now) (stand_of self.old) (stand_of self.new) line.now (K.taken sink.old) (K.taken sink.new)) }
        ensures in_part { OnErr result (RepliesInPart (C.tells clock.now) (stand_of self.old) (stand_of self.new) line.now (K.taken sink.old) (K.taken sink.new)) }
        ensures counts { CountsFault result (K.faults sink.old) (K.faults sink.new) }
    {
        let reply = reply_to(
            self.alloc,
            &mut self.asker,
            clock,
            self.roster,
            &mut self.speaker,
            line,
        );
        let given = Given {
            reply: &reply,
            pass: self.asker.pass(),
        };
        self.writer.write(self.roster, &given, sink)?;
        let step = step_after(&reply.answer);
        if step == Step::On {
            return Ok(step);
        }
        self.writer.flush(sink)?;
        Ok(step)
    }

    /// Takes one byte of the input. A line feed ends a line, which is replied to.
    pub fn take_byte<C: Clock, K: Sink>(
        &mut self,
        clock: &C,
        line: &mut LineBuffer,
        byte: u8,
        sink: &mut K,
    ) -> Result<Step, Failed>
        ensures on { result ≡ Ok Step.On → GoesOn (C.tells clock.now) (stand_of self.old) (stand_of self.new) line.old line.new (K.taken sink.old) (K.taken sink.new) (byte ∷ []) }
        ensures over { result ≡ Ok Step.Over → IsLeft (C.tells clock.now) (stand_of self.old) (stand_of self.new) line.old (K.taken sink.old) (K.taken sink.new) (byte ∷ []) }
        ensures cut_off { OnErr result (IsCut (C.tells clock.now) (stand_of self.old) (stand_of self.new) line.old (K.taken sink.old) (K.taken sink.new) (byte ∷ [])) }
        ensures counts { CountsFault result (K.faults sink.old) (K.faults sink.new) }
    {
        if byte != b'\n' {
            line.push(byte);
            return Ok(Step::On);
        }
        flush_before(line.bytes(), &mut self.writer, sink)?;
        let step = self.answer(clock, ended(line.bytes()), sink);
        line.clear();
        step
    }

    // Takes a piece of the input, up to a BYE. Then all its replies are written.
    fn take_piece<C: Clock, K: Sink>(
        &mut self,
        clock: &C,
        line: &mut LineBuffer,
        piece: &[u8],
        sink: &mut K,
    ) -> Result<Step, Failed>
        ensures on { result ≡ Ok Step.On → GoesOn (C.tells clock.now) (stand_of self.old) (stand_of self.new) line.old line.new (K.taken sink.old) (K.taken sink.new) piece.now }
        ensures over { result ≡ Ok Step.Over → IsLeft (C.tells clock.now) (stand_of self.old) (stand_of self.new) line.old (K.taken sink.old) (K.taken sink.new) piece.now }
        ensures cut_off { OnErr result (IsCut (C.tells clock.now) (stand_of self.old) (stand_of self.new) line.old (K.taken sink.old) (K.taken sink.new) piece.now) }
        ensures none_waits { result ≡ Ok Step.On → self.new.writer.outbox ≡ [] }
        ensures counts { CountsFault result (K.faults sink.old) (K.faults sink.new) }
    {
        let mut at = 0usize;
        while at < piece.len() {
            match self.take_front(clock, line, &piece[at..], sink)? {
                Some(size) => at += size,
                None => return Ok(Step::Over),
            }
        }
        self.writer.flush(sink)?;
        Ok(Step::On)
    }

    // Replies to a last line without a line feed, if it is not empty.
    fn take_end<C: Clock, K: Sink>(
        &mut self,
        clock: &C,
        line: &LineBuffer,
        sink: &mut K,
    ) -> Result<(), Failed>
        requires waits { self.old.writer.outbox ≡ [] }
        ensures written { OnOk result (EndsWritten (C.tells clock.now) (stand_of self.old) (stand_of self.new) line.now (K.taken sink.old) (K.taken sink.new)) }
        ensures cut_off { OnErr result (EndsCut (C.tells clock.now) (stand_of self.old) (stand_of self.new) line.now (K.taken sink.old) (K.taken sink.new)) }
        ensures counts { CountsFault result (K.faults sink.old) (K.faults sink.new) }
    {
        if line.bytes().is_empty() {
            return Ok(());
        }
        self.answer(clock, line.bytes(), sink)?;
        self.writer.flush(sink)
    }

    /// Replies to the lines of a source, which is read into this piece. The session is at its start.
    pub fn serve<C: Clock, S: Source, K: Sink>(
        &mut self,
        clock: &C,
        line: &mut LineBuffer,
        piece: &mut [u8],
        source: &mut S,
        sink: &mut K,
    ) -> SessionEnd
        requires piece { (0 < length piece.old) × (length piece.old ≤ most_piece) }
        requires line { line.old ≡ [] }
        requires waits { self.old.writer.outbox ≡ [] }
        requires speaker { speaker_of self.old.speaker ≡ nobody }
        ensures ends { Ends (C.tells clock.now) (of_pass self.old.asker.pass) (S.flow source.old) (S.flow source.new) (K.taken sink.old) (K.taken sink.new) (of_pass self.new.asker.pass) result }
        ensures memory { result ≢ SessionEnd.Memory }
        ensures source_fault { result ≡ SessionEnd.SourceFault → Rose (S.faults source.old) (S.faults source.new) }
        ensures sink_fault { result ≡ SessionEnd.SinkFault → Rose (K.faults sink.old) (K.faults sink.new) }
    {
        let mut taken = 0usize;
        while taken < LIMIT {
            let room = piece.len().min(LIMIT - taken);
            let n = match source.read(&mut piece[..room]) {
                Ok(n) => n,
                Err(Failed) => return SessionEnd::SourceFault,
            };
            if n == 0 {
                match self.take_end(clock, line, sink) {
                    Ok(()) => return SessionEnd::Ended,
                    Err(Failed) => return SessionEnd::SinkFault,
                }
            }
            match self.take_piece(clock, line, &piece[..n], sink) {
                Ok(Step::On) => taken += n,
                Ok(Step::Over) => return SessionEnd::Ended,
                Err(Failed) => return SessionEnd::SinkFault,
            }
        }
        SessionEnd::Limit
    }
}
