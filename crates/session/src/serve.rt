//! A session that is served with a runtime, workers, solver and gate.

ghost use Rattle.std.specs.Prelude.{◌≡◌, ◌≤◌};
ghost use Rattle.outside.specs.Faults.{Rose};
ghost use Rattle.cycle_lock.specs.Passes.{IsPassOf, seen};
ghost use Rattle.session.specs.Ending.{Ends};
ghost use Rattle.session.specs.Serving.{of_pass};
ghost use Rattle.units_core.specs.declared.limits.TheConstants.{MOST_WORKERS};

use crate::host::Host;
use command_types::{Desk, Roster};
use cycle_lock::{Pass, Turns};
use network_laws::Solver;
use outside::{Clock, Gate, Sink, Source};
use parallel_solver::Workers;
use std::alloc::Global;
use std::sync::Wait;
use std::thread::Threads;

/// How a session ended.
#[derive(Clone, Copy, Debug, PartialEq, Eq)]
pub enum SessionEnd {
    /// The input was read to its end, or a BYE was accepted.
    Ended,
    /// The source failed.
    SourceFault,
    /// The sink failed.
    SinkFault,
    /// The session took as many bytes as one may.
    Limit,
    /// The buffers could not be had at the start; nothing was read.
    Memory,
}

/// Replies to the lines of a source with a pass, as `Host::serve` does, with so many workers, this solver, this gate and this
/// clock.
pub fn serve_session<
    T: Desk,
    R: Threads + Wait + Sync,
    V: Solver,
    G: Gate,
    C: Clock,
    S: Source,
    K: Sink,
>(
    rt: &R,
    alloc: Global,
    turns: &Turns<T>,
    workers: u32,
    solver: &V,
    gate: &G,
    clock: &C,
    roster: &Roster,
    pass: Pass,
    source: &mut S,
    sink: &mut K,
) -> (SessionEnd, Pass)
    requires own { IsPassOf turns.now pass }
    requires workers { (1 ≤ workers) × (workers ≤ MOST_WORKERS) }
    requires roster { roster.now ≡ (seen pass).base.state.roster }
    ensures own { IsPassOf turns.now result.1 }
    ensures ends { Ends (C.tells clock.now) (of_pass pass) (S.flow source.old) (S.flow source.new) (K.taken sink.old) (K.taken sink.new) (of_pass result.1) result.0 }
    ensures source_fault { result.0 ≡ SessionEnd.SourceFault → Rose (S.faults source.old) (S.faults source.new) }
    ensures sink_fault { result.0 ≡ SessionEnd.SinkFault → Rose (K.faults sink.old) (K.faults sink.new) }
{
    let workers = Workers::new(rt, workers, solver, gate);
    let host = Host {
        alloc,
        workers,
        clock,
        roster,
    };
    host.serve(turns, pass, source, sink)
}
