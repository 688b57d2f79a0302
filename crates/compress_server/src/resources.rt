//! What a form runs with.

use network_laws::Solver;
use outside::{Clock, Gate};
use parallel_solver::Workers;
use program_words::Count;
use std::alloc::Global;
use std::sync::Wait;
use std::thread::Threads;

/// The threads that a form runs on, its memory, the solver, the gate that a worker passes before it solves a piece, and the
/// clock that tells when commands are asked.
#[derive(Drop)]
pub struct Resources<'a, R: Threads + Wait + Sync, V: Solver, G: Gate, T: Clock> {
    pub rt: &'a R,
    pub alloc: Global,
    pub solver: &'a V,
    pub gate: &'a G,
    pub clock: &'a T,
}

impl<'a, R: Threads + Wait + Sync, V: Solver, G: Gate, T: Clock> Resources<'a, R, V, G, T> {
    /// So many workers, who solve with this solver.
    pub fn workers(&self, count: Count) -> Workers<'a, R, V, G> {
        Workers::new(self.rt, count.value, self.solver, self.gate)
    }
}
