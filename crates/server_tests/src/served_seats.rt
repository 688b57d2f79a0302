//! Seats that serve at their doors over one lock, in memory.

use crate::lock::opened;
use crate::program::{NOON, ROSTER};
use command_types::Desk;
use doors::Door;
use outside::{MemoryClock, OpenGate};
use parallel_solver::Workers;
use path_solver::PathSolver;
use seats::{Place, Service};
use session::Host;
use std::alloc::{AllocError, Global};
use std::sync::Wait;
use std::thread::Threads;
use trade_file::read_roster;

/// Serves at these places, at most 64, at most so many connections at each, and answers how long the history is then.
pub fn history_served<R: Threads + Wait + Sync, D: Door + Drop>(
    rt: &R,
    alloc: Global,
    places: &mut [Place<D>],
    most: u64,
) -> Result<u64, AllocError> {
    if places.len() > 64 {
        return Err(AllocError);
    }
    let Ok(roster) = read_roster(alloc, ROSTER) else {
        return Err(AllocError);
    };
    let (turns, pass) = opened(alloc, &roster)?;
    let solver = PathSolver::new(alloc);
    let host = Host {
        alloc,
        workers: Workers::new(rt, 2, &solver, &OpenGate),
        clock: &MemoryClock::new(NOON),
        roster: &roster,
    };
    let service = Service { host, most };
    Ok(service.serve(turns, pass, places).length())
}
