//! What the threads of the tests do.

ghost use Rattle.std.specs.Prelude.{◌≡◌, ◌≤◌, All, IfOk};
ghost use Rattle.cycle_lock.specs.Passes.{IsPassOf, seat_of, may_split, Includes};

use super::calls::trade;
use command_types::{Answer, Desk};
use cycle_lock::{Pass, Turns};
use cycle_states::PlainDesk;
use std::alloc::{AllocError, Global};
use std::sync::Wait;
use std::thread;
use std::thread::Threads;

/// Makes this many trades, and counts those that are answered after all before.
pub fn many<R: Wait, D: Desk>(rt: &R, turns: &Turns<D>, pass: &mut Pass, count: u64) -> u64
    requires { IsPassOf turns.now pass.old }
    ensures { IsPassOf turns.now pass.new }
{
    let mut done = 0u64;
    let mut last = 0;
    for number in 0..count {
        let Some(ask) = trade(number) else {
            return done;
        };
        let reply = turns.call(rt, pass, ask);
        if matches!(reply.answer, Answer::Traded { .. }) && reply.at > last {
            done = done.wrapping_add(1);
        }
        last = reply.at;
    }
    done
}

/// A pass, and how many trades were made with it.
#[derive(Drop)]
pub struct Job {
    pub pass: Pass,
    pub done: u64,
}

/// So many passes, split off from one.
pub fn split_off(
    alloc: Global,
    turns: &Turns<PlainDesk>,
    pass: &mut Pass,
    count: u64,
) -> Result<Vec<Job>, AllocError>
    requires own { IsPassOf turns.now pass.old }
    requires left { count ≤ may_split pass.old }
    ensures own { IsPassOf turns.now pass.new }
    ensures jobs { IfOk result (λ jobs. All (λ job. IsPassOf turns.now job.pass) jobs.items) }
{
    let mut jobs = Vec::new(alloc);
    for _ in 0..count {
        let pass = turns.split(pass);
        jobs.push(Job { pass, done: 0 })?;
    }
    Ok(jobs)
}

/// Each pass makes its trades, in a thread of its own where there are at most 64.
pub fn work<R: Threads + Wait + Sync, D: Desk>(
    rt: &R,
    turns: &Turns<D>,
    jobs: &mut [Job],
    count: u64,
)
    requires { All (λ job. IsPassOf turns.now job.pass) jobs.old }
    ensures { All (λ job. IsPassOf turns.now job.pass) jobs.new }
{
    thread::for_each_mut(
        rt,
        jobs,
        64,
        &|_, job: &mut Job|
            requires { IsPassOf turns.now job.old.pass }
            ensures { IsPassOf turns.entry.now job.new.pass }
        { job.done = many(rt, turns, &mut job.pass, count) },
    );
}

/// The pass takes in all others, and their trades are counted.
pub fn gather(turns: &Turns<PlainDesk>, pass: &mut Pass, mut jobs: Vec<Job>) -> u64
    requires own { IsPassOf turns.now pass.old × All (λ job. IsPassOf turns.now job.pass) jobs.items }
    ensures own { IsPassOf turns.now pass.new × (seat_of pass.new ≡ seat_of pass.old) }
    ensures mine { Includes pass.new pass.old }
    ensures all { All (λ job. Includes pass.new job.pass) jobs.items }
{
    let mut done = 0u64;
    while let Some(job) = jobs.pop() {
        done = done.wrapping_add(job.done);
        turns.join(pass, job.pass);
    }
    done
}

/// Has so many passes make so many trades each, and counts those that are answered after all before; the pass takes them in.
pub fn run<R: Threads + Wait + Sync>(
    rt: &R,
    alloc: Global,
    turns: &Turns<PlainDesk>,
    pass: &mut Pass,
    load: (u64, u64),
) -> Result<u64, AllocError>
    requires own { IsPassOf turns.now pass.old }
    requires left { load.0 ≤ may_split pass.old }
    ensures own { IsPassOf turns.now pass.new }
{
    let (passes, trades) = load;
    let mut jobs = split_off(alloc, turns, pass, passes)?;
    work(rt, turns, &mut jobs, trades);
    Ok(gather(turns, pass, jobs))
}
