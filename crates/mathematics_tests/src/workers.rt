//! Problems that workers solve beside one another, and the products of a market.

ghost use Rattle.std.specs.Prelude.{◌≤◌};

use crate::files::{FileMarket, solved_by, solved_through};
use crate::networks::{Market, OPEN_3, Sale, so};
use crate::problems::problem_of;
use command_types::Mode;
use net_positions::gross;
use network_laws::{Problem, Solution};
use outside::{Gate, OpenGate};
use parallel_solver::Workers;
use path_solver::PathSolver;
use std::alloc::{AllocGlobal, Global};
use std::hint::spin_loop;
use std::sync::atomic::{AtomicU64, Ordering};
use std::test::Fail;
use std::thread::Threads;

// How many looks at the word are many enough for another worker to come.
const MANY_LOOKS: u64 = 200_000_000;

// Holds each worker until two have come.
#[derive(Drop)]
struct Meeting {
    come: AtomicU64,
    missed: AtomicU64,
}

impl Meeting {
    fn new() -> Meeting {
        Meeting {
            come: AtomicU64::new(0),
            missed: AtomicU64::new(0),
        }
    }

    // Whether so many came, and none of them in vain.
    fn was(&self, count: u64) -> bool {
        self.come.load(Ordering::SeqCst) == count && self.missed.load(Ordering::SeqCst) == 0
    }
}

impl Gate for Meeting {
    fn enter(&self, _piece: u64) {
        self.come.fetch_add(1, Ordering::SeqCst);
        for _ in 0..MANY_LOOKS {
            if self.come.load(Ordering::SeqCst) >= 2 {
                return;
            }
            spin_loop();
        }
        self.missed.fetch_add(1, Ordering::SeqCst);
    }
}

// Chains of three members who may all trade with one another, and the least gross of each.
const CHAINS: [([Sale; 2], u64); 3] = [
    ([(0, 1, 10), (1, 2, 7)], 10),
    ([(0, 1, 20), (1, 2, 7)], 20),
    ([(0, 1, 30), (1, 2, 40)], 40),
];

/// That so many workers solve the first chains, each in its place.
fn are_solved<R: Threads + Sync + AllocGlobal, G: Gate>(
    rt: &R,
    workers: u32,
    count: usize,
    gate: &G,
) -> Result<(), Fail>
    requires { (1 ≤ workers) × (workers ≤ 64) }
{
    let problems = first_chains(rt.alloc(), count)?;
    let solver = PathSolver::new(rt.alloc());
    let solutions = Workers::new(rt, workers, &solver, gate).solve_all(rt.alloc(), &problems)?;
    let solved = solutions.len() == count && have_least_gross(&solutions);
    so(solved, "the solutions are otherwise")
}

/// The problems of the first chains, so many of them.
fn first_chains(alloc: Global, count: usize) -> Result<Vec<Problem>, Fail> {
    let mut problems = Vec::new(alloc);
    for (sales, _) in CHAINS.iter().take(count) {
        let market = Market {
            members: 3,
            sales,
            bounds: OPEN_3,
        };
        problems.push(problem_of(alloc, market)?)?;
    }
    Ok(problems)
}

fn have_least_gross(solutions: &[Solution]) -> bool {
    for (solution, (_, least)) in solutions.iter().zip(&CHAINS) {
        if gross(solution.network()) != *least {
            return false;
        }
    }
    true
}

fn all_are_solved<R: Threads + Sync + AllocGlobal>(rt: &R) -> Result<(), Fail> {
    for count in [0, 1, 3] {
        are_solved(rt, 1, count, &OpenGate)?;
        are_solved(rt, 2, count, &OpenGate)?;
        are_solved(rt, 64, count, &OpenGate)?;
    }
    Ok(())
}

#[test]
fn each_problem_is_solved_in_its_place(rt: HostRuntime) -> Result<(), Fail> {
    all_are_solved(&rt)
}

#[test]
fn two_workers_meet(rt: HostRuntime) -> Result<(), Fail> {
    let (two, many) = (Meeting::new(), Meeting::new());
    are_solved(&rt, 2, 2, &two)?;
    are_solved(&rt, 64, 2, &many)?;
    so(two.was(2) && many.was(2), "no two workers met")
}

const THREE_PRODUCTS: FileMarket<'static> = FileMarket {
    parties: "name,role,key\nA,dealer,KA\nB,dealer,KB\nC,dealer,KC\nP,product,2031-06-30\nQ,product,2031-06-30\nR,product,2032-06-30\n",
    trades: "A,B,P,10\nB,C,P,7\nA,B,Q,20\nB,C,Q,7\nA,B,R,30\nB,C,R,40\n",
    mode: Mode::Hybrid,
};

/// That any number of workers writes the same for a market.
fn all_write_the_same<R: Threads + Sync + AllocGlobal>(
    rt: &R,
    mode: Mode,
    begin: &str,
    end: &str,
) -> Result<(), Fail> {
    let market = FileMarket {
        mode,
        ..THREE_PRODUCTS
    };
    for workers in [1, 2, 3, 4, 5, 64] {
        let text = solved_by(rt, workers, market)?;
        let holds = text.starts_with(begin.as_bytes()) && text.ends_with(end.as_bytes());
        so(holds, "the bytes are otherwise")?;
        so(text == solved_by(rt, 1, market)?, "other bytes are written")?;
    }
    Ok(())
}

#[test]
fn any_number_of_workers_writes_the_same_bytes(rt: HostRuntime) -> Result<(), Fail> {
    let begin = "product P 17 10 10 17\nrow A B 3\nrow A C 7\n";
    let end = "\nbound 40\nend 3\n";
    all_write_the_same(&rt, Mode::Hybrid, begin, end)?;
    all_write_the_same(&rt, Mode::Free, begin, end)?;
    all_write_the_same(
        &rt,
        Mode::Conservative,
        "product P 17 17 10 17\nrow A B 10\nrow B C 7\n",
        "\nbound 70\nend 3\n",
    )
}

// Counts the pieces that come: each first one for 1, each second one for 100, and any other for 10,000.
#[derive(Drop)]
struct PieceCount {
    seen: AtomicU64,
}

impl Gate for PieceCount {
    fn enter(&self, piece: u64) {
        let worth = match piece {
            0 => 1,
            1 => 100,
            _ => 10_000,
        };
        self.seen.fetch_add(worth, Ordering::SeqCst);
    }
}

const SIX_DEALERS: &str =
    "name,role,key\nA,dealer,KA\nB,dealer,KB\nC,dealer,KC\nD,dealer,KD\nE,dealer,KE\nF,dealer,KF\nP,product,2031-06-30\n";

const TWO_RINGS: &str = "A,B,P,10\nB,C,P,10\nC,A,P,10\nD,E,P,4\nE,F,P,4\nF,D,P,4\n";

const RINGS_SOLVED: &str =
    "product P 42 0 0 42\npot A 0\npot B 0\npot C 0\npot D 0\npot E 0\npot F 0\nbound 0\nend 1\n";

const NOTHING_SOLVED: &str =
    "product P 0 0 0 0\npot A 0\npot B 0\npot C 0\npot D 0\npot E 0\npot F 0\nbound 0\nend 1\n";

/// That the trades of six dealers are solved so, with these pieces.
fn has_pieces<R: Threads + Sync + AllocGlobal>(
    rt: &R,
    trades: &str,
    mode: Mode,
    proposal: &str,
    pieces: u64,
) -> Result<(), Fail> {
    let gate = PieceCount {
        seen: AtomicU64::new(0),
    };
    let market = FileMarket {
        parties: SIX_DEALERS,
        trades,
        mode,
    };
    let found = solved_through(rt, market, &gate)?;
    let solved = found.as_slice() == proposal.as_bytes()
        && gate.seen.load(Ordering::SeqCst) == pieces;
    so(solved, "the proposal or its pieces are otherwise")
}

const PIECES: &[(&str, Mode, &str, u64)] = &[
    (TWO_RINGS, Mode::Conservative, RINGS_SOLVED, 101),
    (TWO_RINGS, Mode::Hybrid, RINGS_SOLVED, 1),
    ("", Mode::Conservative, NOTHING_SOLVED, 0),
];

fn all_have_pieces<R: Threads + Sync + AllocGlobal>(rt: &R) -> Result<(), Fail> {
    for &(trades, mode, proposal, pieces) in PIECES {
        has_pieces(rt, trades, mode, proposal, pieces)?;
    }
    Ok(())
}

#[test]
fn each_part_is_a_piece(rt: HostRuntime) -> Result<(), Fail> {
    all_have_pieces(&rt)
}
