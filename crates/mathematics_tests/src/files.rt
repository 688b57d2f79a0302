//! Roster and trade files of small markets, and the proposals that are checked and solved for them.

ghost use Rattle.std.specs.Prelude.{◌≤◌};

use crate::networks::so;
use command_types::{Mode, Roster};
use dual_certificate::read_proposal;
use file_market::{Terms, check, solve, verdict};
use outside::{Gate, OpenGate};
use parallel_solver::Workers;
use path_solver::PathSolver;
use std::alloc::{AllocGlobal, Global};
use std::test::Fail;
use std::thread::Threads;
use trade_file::{Readers, read_roster, read_trades};

pub const FIVE_DEALERS: &str =
    "name,role,key\nA,dealer,KA\nB,dealer,KB\nC,dealer,KC\nD,dealer,KD\nE,dealer,KE\nP,product,2031-06-30\n";

pub const THREE_DEALERS: &str =
    "name,role,key\nA,dealer,KA\nB,dealer,KB\nC,dealer,KC\nOPS,operator,KO\nP,product,2031-06-30\n";

/// A dealer and a customer, and two products.
pub const ONE_AND_ONE: &str =
    "name,role,key\nA,dealer,KA\nB,customer,KB\nP,product,2031-06-30\nQ,product,2032-06-30\n";

/// Two dealers, two customers and two products.
pub const TWO_AND_TWO: &str =
    "name,role,key\nA,dealer,KA\nB,dealer,KB\nC,customer,KC\nD,customer,KD\nP,product,2031-06-30\nQ,product,2031-06-30\n";

/// A roster file, the lines of a trade file below its head, and a mode.
#[derive(Clone, Copy)]
pub struct FileMarket<'a> {
    pub parties: &'a str,
    pub trades: &'a str,
    pub mode: Mode,
}

/// The trade file with these lines below its head.
fn trades_text(alloc: Global, lines: &str) -> Result<Vec<u8>, Fail> {
    let mut text = Vec::new(alloc);
    text.extend_from_slice(b"seller,buyer,product,amount\n")?;
    text.extend_from_slice(lines.as_bytes())?;
    Ok(text)
}

/// What a check by so many workers says of a proposal's parts.
fn told_by<R: Threads + Sync + AllocGlobal>(
    rt: &R,
    workers: u32,
    roster: &Roster,
    market: FileMarket<'_>,
    proposal: &[u8],
) -> Result<Vec<u8>, Fail>
    requires { (1 ≤ workers) × (workers ≤ 64) }
{
    let alloc = rt.alloc();
    let text = trades_text(alloc, market.trades)?;
    let trades = read_trades(alloc, &text, roster, &Readers::new(rt, workers))?;
    let parts = read_proposal(alloc, proposal, roster)?;
    let solver = PathSolver::new(alloc);
    let workers = Workers::new(rt, workers, &solver, &OpenGate);
    let terms = Terms {
        roster,
        mode: market.mode,
    };
    let failing = check(alloc, &terms, &trades, &parts, &workers)?;
    let found = verdict(alloc, roster, &failing)?;
    Ok(found)
}

/// That a check of a proposal says this, by 1 to 5 workers.
pub fn is_told<R: Threads + Sync + AllocGlobal>(
    rt: &R,
    market: FileMarket<'_>,
    proposal: &[u8],
    told: &str,
) -> Result<(), Fail> {
    let roster = read_roster(rt.alloc(), market.parties.as_bytes())?;
    for workers in 1..6 {
        let found = told_by(rt, workers, &roster, market, proposal)?;
        so(
            found.as_slice() == told.as_bytes(),
            "the check says otherwise",
        )?;
    }
    Ok(())
}

/// What so many workers solve for the text of a trade file.
pub fn solved_text<R: Threads + Sync + AllocGlobal>(
    rt: &R,
    workers: u32,
    roster: &Roster,
    mode: Mode,
    text: &[u8],
) -> Result<Vec<u8>, Fail>
    requires { (1 ≤ workers) × (workers ≤ 64) }
{
    let readers = Readers::new(rt, workers);
    let trades = read_trades(rt.alloc(), text, roster, &readers)?;
    let solver = PathSolver::new(rt.alloc());
    let workers = Workers::new(rt, workers, &solver, &OpenGate);
    let proposal = solve(rt.alloc(), roster, mode, &trades, &workers)?;
    Ok(proposal)
}

/// What two workers solve for a market, each piece of which passes a gate.
pub fn solved_through<R: Threads + Sync + AllocGlobal, G: Gate>(
    rt: &R,
    market: FileMarket<'_>,
    gate: &G,
) -> Result<Vec<u8>, Fail> {
    let roster = read_roster(rt.alloc(), market.parties.as_bytes())?;
    let text = trades_text(rt.alloc(), market.trades)?;
    let trades = read_trades(rt.alloc(), &text, &roster, &Readers::new(rt, 2))?;
    let solver = PathSolver::new(rt.alloc());
    let workers = Workers::new(rt, 2, &solver, gate);
    let proposal = solve(rt.alloc(), &roster, market.mode, &trades, &workers)?;
    Ok(proposal)
}

/// What so many workers solve for a market.
pub fn solved_by<R: Threads + Sync + AllocGlobal>(
    rt: &R,
    workers: u32,
    market: FileMarket<'_>,
) -> Result<Vec<u8>, Fail>
    requires { (1 ≤ workers) × (workers ≤ 64) }
{
    let roster = read_roster(rt.alloc(), market.parties.as_bytes())?;
    let text = trades_text(rt.alloc(), market.trades)?;
    solved_text(rt, workers, &roster, market.mode, &text)
}

/// What is solved for a market.
pub fn solved<R: Threads + Sync + AllocGlobal>(
    rt: &R,
    market: FileMarket<'_>,
) -> Result<Vec<u8>, Fail> {
    solved_by(rt, 4, market)
}
