//! What a session takes first of what it has read: several lines together, or a byte.

ghost use Rattle.std.specs.Prelude.{◌≡◌, ◌≤◌, ◌<◌, length, IfSome, IfOk, OnErr, Ok, None};
ghost use Rattle.outside.specs.Faults.{CountsFault};
ghost use Rattle.session.specs.Standing.{stand_of, GoesOnFront, IsLeft, IsCut};

use crate::line_buffer::LineBuffer;
use crate::runs::begins_run;
use crate::session::Session;
use crate::taking::Step;
use command_types::Desk;
use network_laws::Solver;
use outside::{Clock, Failed, Gate, Sink};
use std::sync::Wait;
use std::thread::Threads;

impl<'a, T: Desk, R: Threads + Wait + Sync, V: Solver, G: Gate> Session<'a, T, R, V, G> {
    // Takes the first byte of a piece. The answer is how many that are; after a BYE there is none.
    fn take_one<C: Clock, K: Sink>(
        &mut self,
        clock: &C,
        line: &mut LineBuffer,
        piece: &[u8],
        sink: &mut K,
    ) -> Result<Option<usize>, Failed>
        requires some { 0 < length piece.now }
        ensures within { IfOk result (λ front. IfSome front (λ size. (0 < size) × (size ≤ length piece.now))) }
        ensures on { GoesOnFront (C.tells clock.now) (stand_of self.old) (stand_of self.new) line.old line.new (K.taken sink.old) (K.taken sink.new) piece.now result }
        ensures over { result ≡ Ok None → IsLeft (C.tells clock.now) (stand_of self.old) (stand_of self.new) line.old (K.taken sink.old) (K.taken sink.new) piece.now }
        ensures cut_off { OnErr result (IsCut (C.tells clock.now) (stand_of self.old) (stand_of self.new) line.old (K.taken sink.old) (K.taken sink.new) piece.now) }
        ensures counts { CountsFault result (K.faults sink.old) (K.faults sink.new) }
    {
        match self.take_byte(clock, line, piece[0], sink)? {
            Step::On => Ok(Some(1)),
            Step::Over => Ok(None),
        }
    }

    /// Takes what is first of a piece: the lines of a run, where no line is begun, or else a byte. The answer is how many bytes
    /// that is; after a BYE there is none.
    pub fn take_front<C: Clock, K: Sink>(
        &mut self,
        clock: &C,
        line: &mut LineBuffer,
        piece: &[u8],
        sink: &mut K,
    ) -> Result<Option<usize>, Failed>
        requires some { 0 < length piece.now }
        ensures within { IfOk result (λ front. IfSome front (λ size. (0 < size) × (size ≤ length piece.now))) }
        ensures on { GoesOnFront (C.tells clock.now) (stand_of self.old) (stand_of self.new) line.old line.new (K.taken sink.old) (K.taken sink.new) piece.now result }
        ensures over { result ≡ Ok None → IsLeft (C.tells clock.now) (stand_of self.old) (stand_of self.new) line.old (K.taken sink.old) (K.taken sink.new) piece.now }
        ensures cut_off { OnErr result (IsCut (C.tells clock.now) (stand_of self.old) (stand_of self.new) line.old (K.taken sink.old) (K.taken sink.new) piece.now) }
        ensures counts { CountsFault result (K.faults sink.old) (K.faults sink.new) }
    {
        if !line.bytes().is_empty() || !begins_run(piece) {
            return self.take_one(clock, line, piece, sink);
        }
        let size = self.take_run(clock, piece, sink)?;
        if size == 0 {
            return self.take_one(clock, line, piece, sink);
        }
        Ok(Some(size))
    }
}
