//! Who serves the sessions of a desk: a session over a pass, from its memory to the pass that comes back.

ghost use Rattle.std.specs.Prelude.{◌≡◌};
ghost use Rattle.outside.specs.Faults.{Rose};
ghost use Rattle.cycle_lock.specs.Passes.{IsPassOf, seen};
ghost use Rattle.session.specs.Ending.{Ends};
ghost use Rattle.session.specs.Serving.{of_pass};

use crate::asker::Asker;
use crate::line_buffer::LineBuffer;
use crate::reply_writer::ReplyWriter;
use crate::run::Run;
use crate::serve::SessionEnd;
use crate::session::Session;
use crate::speaker::Speaker;
use command_types::{Desk, Roster};
use cycle_lock::{Pass, Turns};
use network_laws::Solver;
use outside::{Clock, Gate, Sink, Source};
use parallel_solver::Workers;
use std::alloc::Global;
use std::sync::Wait;
use std::thread::Threads;

/// What all sessions of a desk have in common: memory, the workers that solve, the clock, and the desk's roster.
#[derive(Drop)]
pub struct Host<'a, R: Threads + Wait + Sync, V: Solver, G: Gate, C: Clock> {
    pub alloc: Global,
    pub workers: Workers<'a, R, V, G>,
    pub clock: &'a C,
    pub roster: &'a Roster,
}

impl<'a, R: Threads + Wait + Sync, V: Solver, G: Gate, C: Clock> Host<'a, R, V, G, C> {
    /// Replies to the lines of a source with a pass, up to the input's end, an accepted BYE or the session's limit of 2^30
    /// bytes. Every whole line that was read is answered, and the replies are written, before more is read; replies to lines
    /// that were read together are written together. What was read behind an accepted BYE is dropped. It takes its memory
    /// before it reads. Each command's moment is one that the clock tells. The roster is the desk's, and the pass comes back.
    pub fn serve<T: Desk, S: Source, K: Sink>(
        &'a self,
        turns: &'a Turns<T>,
        pass: Pass,
        source: &mut S,
        sink: &mut K,
    ) -> (SessionEnd, Pass)
        requires own { IsPassOf turns.now pass }
        requires roster { self.now.roster.now ≡ (seen pass).base.state.roster }
        ensures own { IsPassOf turns.now result.1 }
        ensures ends { Ends (C.tells self.now.clock.now) (of_pass pass) (S.flow source.old) (S.flow source.new) (K.taken sink.old) (K.taken sink.new) (of_pass result.1) result.0 }
        ensures source_fault { result.0 ≡ SessionEnd.SourceFault → Rose (S.faults source.old) (S.faults source.new) }
        ensures sink_fault { result.0 ≡ SessionEnd.SinkFault → Rose (K.faults sink.old) (K.faults sink.new) }
    {
        let Ok(mut line) = LineBuffer::new(self.alloc) else {
            return (SessionEnd::Memory, pass);
        };
        let Ok(mut piece) = vec![in self.alloc; 0u8; 65536] else {
            return (SessionEnd::Memory, pass);
        };
        let Ok(writer) = ReplyWriter::new(self.alloc) else {
            return (SessionEnd::Memory, pass);
        };
        let Ok(run) = Run::new(self.alloc) else {
            return (SessionEnd::Memory, pass);
        };
        let mut session = Session {
            alloc: self.alloc,
            asker: Asker::new(&self.workers, turns, pass),
            roster: self.roster,
            speaker: Speaker::nobody(self.alloc),
            writer,
            run,
        };
        let end = session.serve(self.clock, &mut line, &mut piece, source, sink);
        (end, session.asker.into_pass())
    }
}
