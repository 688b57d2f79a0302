//! What the compression of a market comes to.
ghost use Rattle.std.specs.Prelude.{IfOk};
ghost use Rattle.trade_file.specs.TradeFile.{AreFileTrades};
ghost use Rattle.file_market.specs.Summary.{IsSummaryText};

use crate::solving::solutions_of;
use command_types::{Mode, Roster};
use dual_certificate::write_summary;
use network_laws::Solver;
use outside::Gate;
use parallel_solver::Workers;
use std::alloc::{AllocError, Global};
use std::thread::Threads;
use trade_file::{FileTrade, networks};

/// The summary of a market that is solved: for each product of the roster the figures of its network, and the least gross
/// that the limits of the mode allow, which is that of a certified network. However many workers solve, the only error is
/// want of memory.
pub fn summarize<R: Threads + Sync, V: Solver, G: Gate>(
    alloc: Global,
    roster: &Roster,
    mode: Mode,
    trades: &[FileTrade],
    workers: &Workers<'_, R, V, G>,
) -> Result<Vec<u8>, AllocError>
    requires { AreFileTrades roster.now trades.now }
    ensures { IfOk result (λ text. IsSummaryText roster.now mode trades.now text.items) }
{
    let networks = networks(alloc, trades, roster)?;
    let solutions = solutions_of(alloc, roster, mode, &networks, workers)?;
    write_summary(alloc, roster, &networks, &solutions)
}
