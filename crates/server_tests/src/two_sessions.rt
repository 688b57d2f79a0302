//! Two sessions over one lock, in two threads. Each is answered from what both have changed, and no turn is held while a
//! proposal is solved.

ghost use Rattle.std.specs.Prelude.{◌≡◌, ◌≤◌};
ghost use Rattle.cycle_lock.specs.Passes.{IsPassOf, seen, may_split};

use crate::lock::opened;
use crate::paced::{BarSink, MANY_LOOKS, PacedGate, PacedSource, Piece, Steps};
use crate::program::{NOON, ROSTER, so};
use command_types::{Desk, Roster};
use cycle_lock::{Pass, Turns};
use outside::MemoryClock;
use path_solver::PathSolver;
use session::{SessionEnd, serve_session};
use std::alloc::{AllocError, AllocGlobal, Global};
use std::sync::Wait;
use std::test::Fail;
use std::thread::{Threads, join};
use trade_file::read_roster;

// What a session is given, what it is to write while it sets up and then, a bar behind each write, and the step that its gate
// waits for.
#[derive(Clone, Copy)]
struct Part {
    pieces: &'static [Piece],
    set_up: &'static [u8],
    writes: &'static [u8],
    gate: u64,
}

impl Part {
    fn has(&self, bytes: &[u8]) -> bool {
        bytes.starts_with(self.set_up) && bytes.get(self.set_up.len()..) == Some(self.writes)
    }
}

// Two sessions beside one another, and how many steps there are.
type Case = (Part, Part, u64);

// Whether a session writes what it is to.
fn is_served<R: Threads + Wait + Sync, D: Desk>(
    rt: &R,
    alloc: Global,
    turns: &Turns<D>,
    roster: &Roster,
    pass: Pass,
    part: &Part,
    steps: &Steps,
) -> Result<bool, AllocError>
    requires own { IsPassOf turns.now pass }
    requires roster { roster.now ≡ (seen pass).base.state.roster }
{
    let mut source = PacedSource::new(part.pieces, steps, MANY_LOOKS);
    let mut sink = BarSink::new(alloc, steps, 0)?;
    let (end, _pass) = serve_session(
        rt,
        alloc,
        turns,
        2,
        &PathSolver::new(alloc),
        &PacedGate::new(part.gate, steps),
        &MemoryClock::new(NOON),
        roster,
        pass,
        &mut source,
        &mut sink,
    );
    Ok(matches!(end, SessionEnd::Ended) && part.has(sink.bytes()))
}

// Whether two sessions beside one another, over one lock, each write what they are to.
fn each_is_served<R: Threads + Wait + Sync, D: Desk>(
    rt: &R,
    alloc: Global,
    turns: &Turns<D>,
    roster: &Roster,
    pass: Pass,
    other: Pass,
    first: &Part,
    second: &Part,
    steps: &Steps,
) -> (Result<bool, AllocError>, Result<bool, AllocError>)
    requires pass { IsPassOf turns.now pass }
    requires other { IsPassOf turns.now other }
    requires roster { roster.now ≡ (seen pass).base.state.roster }
    requires same { roster.now ≡ (seen other).base.state.roster }
{
    join(
        rt,
        || -> Result<bool, AllocError>
            requires own { IsPassOf turns.now pass }
            requires roster { roster.now ≡ (seen pass).base.state.roster }
        { is_served(rt, alloc, turns, roster, pass, first, steps) },
        || -> Result<bool, AllocError>
            requires own { IsPassOf turns.now other }
            requires roster { roster.now ≡ (seen other).base.state.roster }
        { is_served(rt, alloc, turns, roster, other, second, steps) },
    )
}

// That two sessions beside one another, over one lock, each write what they are to.
fn both_are_served<R: Threads + Wait + Sync, D: Desk>(
    rt: &R,
    alloc: Global,
    turns: &Turns<D>,
    roster: &Roster,
    mut pass: Pass,
    case: &Case,
) -> Result<(), Fail>
    requires own { IsPassOf turns.now pass }
    requires roster { roster.now ≡ (seen pass).base.state.roster }
    requires left { 1 ≤ may_split pass }
{
    let (first, second, count) = case;
    let other = turns.split(&mut pass);
    let steps = Steps::new();
    let (one, two) = each_is_served(rt, alloc, turns, roster, pass, other, first, second, &steps);
    let served = matches!(one, Ok(true)) && matches!(two, Ok(true)) && steps.are(*count);
    so(served, "the sessions are served otherwise")
}

fn are_served<R: Threads + Wait + Sync + AllocGlobal>(rt: &R, case: &Case) -> Result<(), Fail> {
    let alloc = rt.alloc();
    let roster = read_roster(alloc, ROSTER)?;
    let (turns, pass) = opened(alloc, &roster)?;
    both_are_served(rt, alloc, &turns, &roster, pass, case)
}

fn all_are_served<R: Threads + Wait + Sync + AllocGlobal>(
    rt: &R,
    cases: &[Case],
) -> Result<(), Fail> {
    for case in cases {
        are_served(rt, case)?;
    }
    Ok(())
}

const RING: &str =
    "HELLO A KA\nTRADE A B P 10 2026-03-02\nHELLO B KB\nAFFIRM 1\nTRADE B C P 10 2026-03-02\nHELLO C KC\nAFFIRM 2\nTRADE C A P 10 2026-03-02\nHELLO A KA\nAFFIRM 3\n";

const SET_UP: &[u8] =
    b"ok 0 hello A\nok 1 trade 1\nok 1 hello B\nok 2 live 1\nok 3 trade 2\nok 3 hello C\nok 4 live 2\nok 5 trade 3\nok 5 hello A\nok 6 live 3\n|ok 6 hello OPS\nok 7 frozen 1 3\n|";

const FREEZE: &str = "HELLO OPS KO\nFREEZE 2026-03-31\n";

// The operator proposes, which reaches its gate at step 13.
const PROPOSE: &[Piece] = &[(0, RING), (0, FREEZE), (0, "PROPOSE 1 conservative\n")];

const CHANGES: &[Case] = &[
    // Each is answered from what the other has changed. The second has changed nothing when it shows the trade.
    (
        Part {
            pieces: &[
                (0, "HELLO A KA\nTRADE A B P 10 2026-03-02\n"),
                (6, "NETS P\nSTATEMENT\n"),
            ],
            set_up: b"",
            writes: b"ok 0 hello A\nok 1 trade 1\n|ok 2 nets 10 0 10\nok 2 statement 1\ntrade 1 A B P 10 2026-03-02 live -\n|",
            gate: 0,
        },
        Part {
            pieces: &[(2, "HELLO B KB\nSTATEMENT\nAFFIRM 1\n")],
            set_up: b"",
            writes: b"ok 1 hello B\nok 1 statement 1\ntrade 1 A B P 10 2026-03-02 alleged -\nok 2 live 1\n|",
            gate: 0,
        },
        9,
    ),
    // A version that the other session began stands between.
    (
        Part {
            pieces: &[
                (0, RING),
                (0, FREEZE),
                (0, "BEGIN 1 conservative\n"),
                (15, "POST 1 1\n"),
            ],
            set_up: SET_UP,
            writes: b"ok 8 begun 1 1\n|no 9 18 wrong-version 2\n|",
            gate: 0,
        },
        Part {
            pieces: &[
                (13, "HELLO OPS KO\nBEGIN 1 conservative\n"),
                (16, "POST 1 2\n"),
            ],
            set_up: b"",
            writes: b"ok 8 hello OPS\nok 9 begun 1 2\n|ok 10 proposed 1 2 30 0\n|",
            gate: 0,
        },
        17,
    ),
];

#[test]
fn a_session_is_answered_from_what_the_other_changed(rt: HostRuntime) -> Result<(), Fail> {
    all_are_served(&rt, CHANGES)
}

// A session proposes, and its gate waits until the other has said its part.
const MEANWHILE: &[Case] = &[
    // What reads: no turn is held.
    (
        Part {
            pieces: PROPOSE,
            set_up: SET_UP,
            writes: b"ok 9 proposed 1 1 30 0\n|",
            gate: 15,
        },
        Part {
            pieces: &[(13, "HELLO A KA\nNETS P\n")],
            set_up: b"",
            writes: b"ok 8 hello A\nok 8 nets 10 10 0\n|",
            gate: 0,
        },
        16,
    ),
    // A change that leaves the cycle as it is.
    (
        Part {
            pieces: PROPOSE,
            set_up: SET_UP,
            writes: b"ok 10 proposed 1 1 30 0\n|",
            gate: 15,
        },
        Part {
            pieces: &[(13, "HELLO A KA\nTRADE A C P 5 2026-03-02\n")],
            set_up: b"",
            writes: b"ok 8 hello A\nok 9 trade 4\n|",
            gate: 0,
        },
        16,
    ),
    // The next version begins.
    (
        Part {
            pieces: PROPOSE,
            set_up: SET_UP,
            writes: b"no 9 18 wrong-version 2\n|",
            gate: 15,
        },
        Part {
            pieces: &[(13, "HELLO OPS KO\nBEGIN 1 conservative\n")],
            set_up: b"",
            writes: b"ok 8 hello OPS\nok 9 begun 1 2\n|",
            gate: 0,
        },
        16,
    ),
    // The next version is proposed; its own gate is a step too.
    (
        Part {
            pieces: PROPOSE,
            set_up: SET_UP,
            writes: b"no 10 17 wrong-phase proposed\n|",
            gate: 16,
        },
        Part {
            pieces: &[(13, "HELLO OPS KO\nPROPOSE 1 conservative\n")],
            set_up: b"",
            writes: b"ok 8 hello OPS\n|ok 10 proposed 1 2 30 0\n|",
            gate: 0,
        },
        17,
    ),
    // The cycle is cancelled, and another one opened.
    (
        Part {
            pieces: PROPOSE,
            set_up: SET_UP,
            writes: b"no 9 17 wrong-phase none\n|",
            gate: 15,
        },
        Part {
            pieces: &[(13, "HELLO OPS KO\nCANCEL 1\n")],
            set_up: b"",
            writes: b"ok 8 hello OPS\nok 9 cancelled 1\n|",
            gate: 0,
        },
        16,
    ),
    (
        Part {
            pieces: PROPOSE,
            set_up: SET_UP,
            writes: b"no 10 16 wrong-cycle 2\n|",
            gate: 16,
        },
        Part {
            pieces: &[(13, "HELLO OPS KO\nCANCEL 1\nFREEZE 2026-03-31\n")],
            set_up: b"",
            writes: b"ok 8 hello OPS\nok 9 cancelled 1\nok 10 frozen 2 3\n|",
            gate: 0,
        },
        17,
    ),
    // A frozen trade ends.
    (
        Part {
            pieces: PROPOSE,
            set_up: SET_UP,
            writes: b"no 10 21 cycle-broken 1\n|",
            gate: 17,
        },
        Part {
            pieces: &[(13, "HELLO A KA\nEND 1\nHELLO B KB\nEND 1\n")],
            set_up: b"",
            writes: b"ok 8 hello A\nok 9 ending 1\nok 9 hello B\nok 10 ended 1\n|",
            gate: 0,
        },
        18,
    ),
];

#[test]
fn no_turn_is_held_while_a_proposal_is_solved_and_what_stands_between_refuses_it(
    rt: HostRuntime,
) -> Result<(), Fail> {
    all_are_served(&rt, MEANWHILE)
}
