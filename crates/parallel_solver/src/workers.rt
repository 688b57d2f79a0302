//! Who solves: workers beside one another, and the pieces that each of them solves.

ghost use Rattle.std.specs.Prelude.{◌≡◌, ℕ, ◌≤◌, ◌<◌, All, IfOk, length, vec_len};
ghost use Rattle.network_laws.specs.Solved.{AreSolved};
ghost use Rattle.parallel_solver.specs.Places.{SolvesAt};
ghost use Rattle.parallel_solver.specs.Jobs.{MayWork, HasWorked};
ghost use Rattle.parallel_solver.specs.Made.{AreMade};
ghost use Rattle.units_core.specs.declared.limits.TheConstants.{MOST_WORKERS};

use crate::found::{collected, places, put_jobs};
use crate::job::{Done, Job, jobs};
use crate::made::made_by;
use crate::pieces::Pieces;
use claim_counter::Counter;
use network_laws::{Solution, Solver};
use outside::Gate;
use std::alloc::{AllocError, Global};
use std::thread;
use std::thread::Threads;

/// Who solves: from 1 to 64 workers in threads of a runtime, each of which passes a gate before each piece, and has the
/// solver solve it.
#[derive(Drop)]
pub struct Workers<'a, R: Threads + Sync, V: Solver, G: Gate> {
    pub rt: &'a R,
    count: u32,
    solver: &'a V,
    gate: &'a G,
    ghost few: { (1 ≤ count) × (count ≤ MOST_WORKERS) },
}

impl<'a, R: Threads + Sync, V: Solver, G: Gate> Workers<'a, R, V, G> {
    /// So many workers.
    pub fn new(rt: &'a R, count: u32, solver: &'a V, gate: &'a G) -> Workers<'a, R, V, G>
        requires { (1 ≤ count) × (count ≤ MOST_WORKERS) }
        ensures { result.count ≡ count }
    {
        Workers {
            rt,
            count,
            solver,
            gate,
        }
    }

    /// How many they are.
    pub fn count(&self) -> u32
        ensures few { (1 ≤ result) × (result ≤ MOST_WORKERS) }
        ensures is { result ≡ self.now.count }
    {
        self.count
    }

    /// What a call gives at each place below a count, in order, by these workers, who share out the places in runs of the
    /// same length. No gate is passed. The only error is want of memory, of a call or here.
    pub fn make_all<T: Send + Drop, F: Fn(usize) -> Result<T, AllocError> + Sync>(
        &self,
        alloc: Global,
        count: usize,
        make: &F,
    ) -> Result<Vec<T>, AllocError>
        requires { (place : ℕ) → place < count → F.pre make.now place }
        ensures count { IfOk result (λ made. vec_len made ≡ count) }
        ensures made { IfOk result (λ made. AreMade F.Fn make.now made.items) }
    {
        made_by(self.rt, alloc, self.count as usize, count, make)
    }

    // Solves the piece of a place.
    fn solve_one(&self, pieces: &Pieces<'_>, place: usize) -> Result<Solution, AllocError>
        requires { place < length pieces.now }
        ensures { IfOk result (SolvesAt pieces.now place) }
    {
        self.gate.enter(place as u64);
        pieces.solve(self.solver, place)
    }

    // Claims one piece after another, and solves it, until none is left or there is no memory.
    fn work(&self, table: &Counter, pieces: &Pieces<'_>, job: &mut Job)
        requires { MayWork table.now pieces.now job.old }
        ensures { HasWorked table.now pieces.now job.new }
    {
        loop {
            let place = table.claim(&mut job.worker) as usize;
            if place >= pieces.len() {
                job.finished = true;
                return;
            }
            let Ok(solution) = self.solve_one(pieces, place) else {
                return;
            };
            if job.done.push(Done { place, solution }).is_err() {
                return;
            }
        }
    }

    // The workers work, beside one another.
    fn work_all(&self, table: &Counter, pieces: &Pieces<'_>, jobs: &mut [Job])
        requires { All (MayWork table.now pieces.now) jobs.old }
        ensures { All (HasWorked table.now pieces.now) jobs.new }
    {
        thread::for_each_mut(
            self.rt,
            jobs,
            64,
            &|_, job: &mut Job|
                requires { MayWork table.now pieces.now job.old }
                ensures { HasWorked table.entry.now pieces.entry.now job.new }
            { self.work(table, pieces, job) },
        );
    }

    /// A certified solution for each piece, in order, by at most so many workers, and no more than there are pieces, each of
    /// which claims one piece after another. The only error is want of memory.
    pub(crate) fn solve_pieces(
        &self,
        alloc: Global,
        pieces: &Pieces<'_>,
    ) -> Result<Vec<Solution>, AllocError>
        ensures { IfOk result (λ solutions. AreSolved pieces.now solutions.items) }
    {
        let mut found = places(alloc, pieces)?;
        let (table, mut first) = Counter::new(alloc, pieces.len() as u64)?;
        let needed = (self.count as usize).min(pieces.len()).max(1) as u32;
        let mut jobs = jobs(alloc, &table, pieces, &mut first, needed)?;
        self.work_all(&table, pieces, &mut jobs);
        put_jobs(&table, pieces, &mut first, &mut found, jobs)?;
        collected(alloc, pieces, found)
    }
}
