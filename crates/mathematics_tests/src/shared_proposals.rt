//! Texts of proposals over two dealers and three products, read by one worker and by several.

ghost use Rattle.std.specs.Prelude.{◌≤◌};

use crate::networks::{Sale, has_rows, so};
use command_types::{FileFault, Roster};
use dual_certificate::ProposalPart;
use file_market::read_proposal_by;
use outside::OpenGate;
use parallel_solver::Workers;
use path_solver::PathSolver;
use std::alloc::AllocGlobal;
use std::test::Fail;
use std::thread::Threads;
use trade_file::read_roster;

const ROSTER: &str =
    "name,role,key\nA,dealer,KA\nB,dealer,KB\nP,product,2031-06-30\nQ,product,2031-06-30\nR,product,2032-06-30\n";

// The parts of the three products, of 5, 5 and 4 lines, and the last line.
const P: &str = "product P 5 6 7 8\nrow A B 5\npot A 1\npot B 0\nbound 9\n";

const Q: &str = "product Q 10 11 12 13\nrow B A 10\npot A 0\npot B -1\nbound 14\n";

const R: &str = "product R 15 16 17 18\npot A 0\npot B 2\nbound 19\n";

const END: &str = "end 3\n";

/// The figures, rows and potentials of a part.
type Said = ([u64; 5], &'static [Sale], [i32; 2]);

/// What the three parts say.
const SAID: &[Said] = &[
    ([5, 6, 7, 8, 9], &[(0, 1, 5)], [1, 0]),
    ([10, 11, 12, 13, 14], &[(1, 0, 10)], [0, -1]),
    ([15, 16, 17, 18, 19], &[], [0, 2]),
];

/// Texts, piece by piece, and the first line of each that cannot stand.
const BAD: &[(&[&str], u64)] = &[
    // A member sells to himself, a potential comes twice, and one is missing; the first of these is told.
    (&["product P 5 6 7 8\nrow A A 5\n", Q, R, END], 2),
    (
        &[
            P,
            "product Q 10 11 12 13\npot A 0\npot A 0\nbound 14\n",
            R,
            END,
        ],
        8,
    ),
    (
        &[P, Q, "product R 15 16 17 18\npot A 0\nbound 19\n", END],
        13,
    ),
    (
        &[
            P,
            "product Q 10 11 12 13\npot A 0\nbound 14\n",
            "product R 15 16 17 18\npot A 0\nbound 19\n",
            END,
        ],
        8,
    ),
    (
        &[
            "product P 5 6 7 8\nrow A B 5\npot A 1\n",
            Q,
            "product R 15 16 17 18\npot B 2\n",
            END,
        ],
        4,
    ),
    // A part is named by the next product, by the one before, and by none.
    (
        &[
            P,
            "product R 10 11 12 13\npot A 0\npot B 0\nbound 14\n",
            R,
            END,
        ],
        6,
    ),
    (
        &[
            P,
            Q,
            "product Q 15 16 17 18\npot A 0\npot B 2\nbound 19\n",
            END,
        ],
        11,
    ),
    (
        &[
            P,
            "product S 10 11 12 13\npot A 0\npot B 0\nbound 14\n",
            R,
            END,
        ],
        6,
    ),
    // Two parts are exchanged, one comes twice, and one is missing.
    (&[P, R, Q, END], 6),
    (&[Q, P, R, END], 1),
    (&[P, Q, R, R, END], 15),
    (&[P, Q, END], 11),
    // The last line is missing, comes too early, has no line feed, and is not the last.
    (&[P, Q, R], 15),
    (&[P, END, Q, R, END], 6),
    (&[P, Q, R, "end 3"], 15),
    (&[P, Q, R, END, P], 16),
    // A line stands between parts.
    (&[P, "row A B 5\n", Q, R, END], 6),
];

/// What so many workers read of a text, whose pieces these are.
fn read_by<R: Threads + Sync + AllocGlobal>(
    rt: &R,
    workers: u32,
    roster: &Roster,
    pieces: &[&str],
) -> Result<Vec<ProposalPart>, FileFault>
    requires { (1 ≤ workers) × (workers ≤ 64) }
{
    let mut text = Vec::new(rt.alloc());
    for piece in pieces {
        if text.extend_from_slice(piece.as_bytes()).is_err() {
            return Err(FileFault::Memory);
        }
    }
    let solver = PathSolver::new(rt.alloc());
    let workers = Workers::new(rt, workers, &solver, &OpenGate);
    read_proposal_by(rt.alloc(), &text, roster, &workers)
}

/// Whether a part says this.
fn says(part: &ProposalPart, said: &Said) -> bool {
    let (figures, rows, potentials) = *said;
    [
        part.gross,
        part.least,
        part.floor_m,
        part.bilateral,
        part.bound,
    ] == figures
        && has_rows(part.solution.network(), rows)
        && part.solution.potentials() == potentials.as_slice()
}

fn all_say(parts: &[ProposalPart], said: &[Said]) -> bool {
    for at in 0..parts.len().min(said.len()) {
        if !says(&parts[at], &said[at]) {
            return false;
        }
    }
    parts.len() == said.len()
}

/// That 1 to 5 workers, and 64, read the three parts.
fn all_read<R: Threads + Sync + AllocGlobal>(rt: &R) -> Result<(), Fail> {
    let roster = read_roster(rt.alloc(), ROSTER.as_bytes())?;
    for workers in [1, 2, 3, 4, 5, 64] {
        let parts = read_by(rt, workers, &roster, &[P, Q, R, END])?;
        so(all_say(&parts, SAID), "a part is read otherwise")?;
    }
    Ok(())
}

#[test]
fn any_number_of_workers_reads_the_same(rt: HostRuntime) -> Result<(), Fail> {
    all_read(&rt)
}

/// That so many workers tell these first lines that cannot stand.
fn all_are_told<R: Threads + Sync + AllocGlobal>(rt: &R, workers: u32) -> Result<(), Fail>
    requires { (1 ≤ workers) × (workers ≤ 64) }
{
    let roster = read_roster(rt.alloc(), ROSTER.as_bytes())?;
    for (pieces, row) in BAD {
        let told = match read_by(rt, workers, &roster, pieces) {
            Err(FileFault::BadLine { row: at }) => at == *row,
            _ => false,
        };
        so(told, "another line is told")?;
    }
    Ok(())
}

/// That 1 to 5 workers tell the same lines.
fn all_tell<R: Threads + Sync + AllocGlobal>(rt: &R) -> Result<(), Fail> {
    for workers in 1..6 {
        all_are_told(rt, workers)?;
    }
    Ok(())
}

#[test]
fn the_first_line_that_cannot_stand_is_told_by_all(rt: HostRuntime) -> Result<(), Fail> {
    all_tell(&rt)
}
