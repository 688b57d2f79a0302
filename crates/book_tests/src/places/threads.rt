//! Threads that ask, each at a place of its own, while the first serves.
ghost use Rattle.std.specs.Prelude.{◌≤◌, ◌<◌};
ghost use Rattle.publication_list.specs.declared.rule.TheConstants.{PLACES};
ghost use Rattle.publication_list.specs.Tokens.{key_of};

use super::asks::{Hand, List, ask};
use publication_list::PLACES;
use std::alloc::{AllocError, Global};
use std::sync::Wait;
use std::thread;
use std::thread::Threads;

// Answers all that wait, and tells how many they are.
fn serve(list: &List) -> u64 {
    let mut hand = Hand::new(list);
    let waiting = list.waiting();
    for place in 0..PLACES {
        if waiting >> place & 1 == 1 {
            hand.claim(list, place);
        }
    }
    let served = hand.answer_all(list);
    for place in 0..PLACES {
        if served >> place & 1 == 1 {
            list.ring(place);
        }
    }
    served.count_ones() as u64
}

// Serves until so many are answered.
fn serve_all<R: Wait>(rt: &R, list: &List, count: u64) -> u64 {
    let mut served = 0u64;
    for _ in rt.forever() {
        served = served.wrapping_add(serve(list));
        if served >= count {
            return served;
        }
        thread::yield_now();
    }
    unreachable!()
}

// Asks so many requests, and counts the replies that are right.
fn ask_all<R: Wait>(rt: &R, list: &List, place: usize, count: u32) -> u64
    requires lies { place < PLACES }
    requires fits { count ≤ key_of list.now }
{
    let mut told = 0u64;
    for request in 0..count {
        if ask(rt, list, place, request) == Some(2 * request as u64) {
            told = told.wrapping_add(1);
        }
    }
    told
}

// Where a thread asks, and how often it was answered. The one whose place is the last serves.
#[derive(Drop)]
struct Job {
    place: usize,
    told: u64,
    ghost lies: { place < PLACES },
}

// Each of the jobs, in a thread of its own: so many requests, which are so many in all.
fn work<R: Threads + Wait + Sync>(
    rt: &R,
    list: &List,
    jobs: &mut [Job],
    last: usize,
    load: (u32, u64),
)
    requires { load.0 ≤ key_of list.now }
{
    let (requests, all) = load;
    thread::for_each_mut(
        rt,
        jobs,
        PLACES,
        &|_, job: &mut Job|
            requires { requests ≤ key_of list.now }
        {
            job.told = if job.place == last {
                serve_all(rt, list, all)
            } else {
                ask_all(rt, list, job.place, requests)
            };
        },
    );
}

/// Whether so many threads are answered as often as they ask.
pub fn all_answered<R: Threads + Wait + Sync>(
    rt: &R,
    alloc: Global,
    askers: usize,
    requests: u32,
) -> Result<bool, AllocError>
    requires { (askers < PLACES) × (requests ≤ 5000) }
{
    let list = List::new(alloc, &5000)?;
    let mut jobs = Vec::new(alloc);
    for place in 0..askers + 1 {
        jobs.push(Job { place, told: 0 })?;
    }
    let all = askers as u64 * requests as u64;
    work(rt, &list, &mut jobs, askers, (requests, all));
    let is_right = |job: &Job| {
        let wanted = if job.place == askers {
            all
        } else {
            requests as u64
        };
        job.told == wanted
    };
    Ok(jobs.iter().all(is_right))
}
