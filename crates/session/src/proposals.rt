//! How a PROPOSE is replied to: by a BEGIN, by the problems of that version, and by a POST of their solutions.
//!
//! ```text
//!   BEGIN --- refused ----------------------------> its reply
//!     | begun
//!   FETCH --- refused: overtaken, or no memory ---> its reply
//!     | problems           (no turn of the lock is held from here on)
//!   solve_all -- no memory --> `28 memory` at the BEGIN's position
//!     | solutions
//!   POST ----------------------------------------> its reply
//! ```

ghost use Rattle.std.specs.Prelude.{◌≡◌};
ghost use Rattle.session.specs.Serving.{of_pass};
ghost use Rattle.session.specs.Proposing.{begun_version, has_problems, Proposes, Fetches, Posts};

use crate::asker::Asker;
use crate::moments::moment_now;
use command_types::{Answer, Ask, Desk, Listed, Mode, Refusal, Reply, What};
use network_laws::{Problem, Solver};
use outside::{Clock, Gate};
use std::alloc::Global;
use std::sync::Wait;
use std::thread::Threads;
use units_core::Name;

// The version that began.
fn begun_version(answer: &Answer) -> Option<u64>
    ensures { result ≡ begun_version answer.now }
{
    match answer {
        Answer::Begun { version, .. } => Some(*version),
        _ => None,
    }
}

fn has_problems(answer: &Answer) -> bool
    ensures { result ≡ has_problems answer.now }
{
    matches!(answer, Answer::Problems(_))
}

/// A version that a PROPOSE began: for whom, in which cycle, and at which position.
#[derive(Drop)]
struct Begun {
    by: Option<Name>,
    cycle: u64,
    version: u64,
    at: u64,
}

// Posts a solution of each problem. Where there is no memory for them, the reply is that, at the position at which the
// version began.
fn solve_and_post<T: Desk, R: Threads + Wait + Sync, V: Solver, G: Gate, C: Clock>(
    alloc: Global,
    asker: &mut Asker<'_, T, R, V, G>,
    clock: &C,
    begun: &Begun,
    problems: &[Problem],
) -> Reply
    ensures { Posts (C.tells clock.now) (of_pass asker.old.pass) (of_pass asker.new.pass) begun.now.by begun.now.cycle begun.now.version begun.now.at problems.now result }
{
    let Ok(solutions) = asker.solve_all(alloc, problems) else {
        return Reply {
            at: begun.at,
            answer: Answer::No(Refusal::Memory),
        };
    };
    let solutions = Listed::new(solutions);
    let what = What::Post {
        cycle: begun.cycle,
        version: begun.version,
        solutions,
    };
    let moment = moment_now(clock);
    asker.ask(Ask {
        by: begun.by,
        what,
        moment,
    })
}

// Asks for the problems of the version that was begun, and goes on with them.
fn fetch<T: Desk, R: Threads + Wait + Sync, V: Solver, G: Gate, C: Clock>(
    alloc: Global,
    asker: &mut Asker<'_, T, R, V, G>,
    clock: &C,
    begun: &Begun,
) -> Reply
    ensures { Fetches (C.tells clock.now) (of_pass asker.old.pass) (of_pass asker.new.pass) begun.now.by begun.now.cycle begun.now.version begun.now.at result }
{
    let (cycle, version) = (begun.cycle, begun.version);
    let what = What::Fetch { cycle, version };
    let moment = moment_now(clock);
    let reply = asker.ask(Ask {
        by: begun.by,
        what,
        moment,
    });
    if !has_problems(&reply.answer) {
        return reply;
    }
    let Answer::Problems(problems) = &reply.answer else {
        unreachable!()
    };
    solve_and_post(alloc, asker, clock, begun, problems.rows())
}

/// Begins a version, solves its problems, with no turn held, and posts the solutions. The reply is the first refusal on
/// the way, or that to the POST.
pub fn propose<T: Desk, R: Threads + Wait + Sync, V: Solver, G: Gate, C: Clock>(
    alloc: Global,
    asker: &mut Asker<'_, T, R, V, G>,
    clock: &C,
    by: &Option<Name>,
    cycle: u64,
    mode: Mode,
) -> Reply
    ensures { Proposes (C.tells clock.now) (of_pass asker.old.pass) (of_pass asker.new.pass) by.now cycle mode result }
{
    let what = What::Begin { cycle, mode };
    let moment = moment_now(clock);
    let reply = asker.ask(Ask {
        by: *by,
        what,
        moment,
    });
    match begun_version(&reply.answer) {
        Some(version) => {
            let begun = Begun {
                by: *by,
                cycle,
                version,
                at: reply.at,
            };
            fetch(alloc, asker, clock, &begun)
        }
        None => reply,
    }
}
