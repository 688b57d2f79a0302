//! The counter, and the workers that claim from it.

ghost use Rattle.std.specs.Prelude.{◌≡◌, ℕ, ◌+◌, ◌^◌, ◌<◌, ◌≤◌, nat_lt, [], ◌∷◌, ◌++◌, length, IfOk};
ghost use Rattle.claim_counter.specs.Claims.{newcomer, with_claim, rest_of, worker, both, times, one_if};
ghost use Rattle.claim_counter.specs.Workers.{IsWorkerOf, view_of};

use crate::rule::{Both, Claim, Cut, Know};
use crate::workers::{Counter, Worker};
use atomic_table::Table;
use std::alloc::{AllocError, Global};

impl Counter {
    /// A counter for so many pieces, and its first worker. It can split off 64 others.
    pub fn new(alloc: Global, pieces: u64) -> Result<(Counter, Worker), AllocError>
        requires { pieces + 64 < 2 ^ 64 }
        ensures { IfOk result (λ r. IsWorkerOf r.0 r.1 × (view_of r.1 ≡ newcomer pieces)) }
    {
        let (table, seat) = Table::of_words(alloc, &[0], &pieces)?;
        Ok((Counter { table }, Worker { seat }))
    }

    /// Claims the next number. It is no less than how many numbers the worker had claimed.
    pub fn claim(&self, by: &mut Worker) -> u64
        requires own { IsWorkerOf self.now by.old }
        requires room { (0 < (view_of by.old).room) × (0 < (view_of by.old).parts) }
        ensures own { IsWorkerOf self.now by.new }
        ensures claimed { view_of by.new ≡ with_claim result (view_of by.old) }
        ensures later { length (view_of by.old).taken ≤ result }
    {
        self.table.shared.fetch_add::<Claim>(&mut by.seat, 0, 1)
    }

    /// A worker more.
    pub fn split(&self, of: &mut Worker) -> Worker
        requires own { IsWorkerOf self.now of.old }
        requires parts { (1 < (view_of of.old).parts) × (0 < (view_of of.old).room) }
        ensures own { IsWorkerOf self.now of.new × IsWorkerOf self.now result }
        ensures rest { view_of of.new ≡ rest_of (view_of of.old) }
        ensures worker { view_of result ≡ worker (view_of of.old) }
    {
        Worker {
            seat: self.table.shared.split_seat::<Cut>(&mut of.seat),
        }
    }

    /// Takes in what another worker has claimed.
    pub fn join(&self, into: &mut Worker, other: Worker)
        requires own { IsWorkerOf self.now into.old × IsWorkerOf self.now other }
        requires parts { 0 < (view_of into.old).parts }
        ensures own { IsWorkerOf self.now into.new }
        ensures both { view_of into.new ≡ both (view_of into.old) (view_of other) }
    {
        self.table
            .shared
            .join_seat::<Both>(&mut into.seat, other.seat);
    }

    /// How many numbers were claimed so far. The worker that has taken in all others has claimed them all, each once.
    pub fn claimed(&self, by: &mut Worker) -> u64
        requires { IsWorkerOf self.now by.old }
        ensures own { IsWorkerOf self.now by.new × (view_of by.new ≡ view_of by.old) }
        ensures all { (view_of by.old).parts ≡ 65 → (k : ℕ) → times k (view_of by.old).taken ≡ one_if (nat_lt k result) }
    {
        self.table.shared.load::<Know>(&mut by.seat, 0)
    }
}
