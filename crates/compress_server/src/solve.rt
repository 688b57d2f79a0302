//! The form `solve`: a proposal for a market.

ghost use Rattle.std.specs.Prelude.{◌≡◌, Err};
ghost use Rattle.program_words.specs.Words.{read_market};
ghost use Rattle.compress_server.specs.Files.{files_by};
ghost use Rattle.compress_server.specs.Seen.{output_by};
ghost use Rattle.compress_server.specs.Solve.{solve_end, SolveRuns};

use crate::ending::End;
use crate::load::{LoadFault, load_roster, load_trades};
use file_market::solve;
use network_laws::Solver;
use outside::{Files, Gate, Sink, write_all};
use parallel_solver::Workers;
use program_words::MarketFiles;
use std::alloc::Global;
use std::thread::Threads;
use trade_file::Readers;

/// How a solve ended.
#[derive(Clone, Copy)]
pub enum SolveEnd {
    /// The proposal was written.
    Done,
    /// A file could not be had.
    Unloaded(LoadFault),
    /// The output failed.
    SinkFault,
    /// The memory that was needed was not to be had.
    Memory,
}

impl From<SolveEnd> for End {
    ghost from_gives = { λ own end. end ≡ solve_end own };

    fn from(own: SolveEnd) -> End {
        match own {
            SolveEnd::Done => End::Done,
            SolveEnd::Unloaded(fault) => End::from(fault),
            SolveEnd::SinkFault => End::SinkFault,
            SolveEnd::Memory => End::Memory,
        }
    }
}

/// Reads the market's files, has the workers solve the market, and writes the proposal. No file changes.
pub fn run_solve<R: Threads + Sync, V: Solver, G: Gate, F: Files, K: Sink>(
    alloc: Global,
    files: &mut F,
    market: &MarketFiles<'_>,
    output: &mut K,
    workers: &Workers<'_, R, V, G>,
) -> SolveEnd
    ensures runs { SolveRuns (read_market market.now) (files_by F.Files files.old) (files_by F.Files files.new) (output_by K.Sink output.old) (output_by K.Sink output.new) result }
    ensures stays { F.folder files.new ≡ F.folder files.old }
{
    let roster = match load_roster(alloc, files, market.roster) {
        Ok(roster) => roster,
        Err(fault) => return SolveEnd::Unloaded(fault),
    };
    let readers = Readers::new(workers.rt, workers.count());
    let trades = match load_trades(alloc, files, market.trades, &roster, &readers) {
        Ok(trades) => trades,
        Err(fault) => return SolveEnd::Unloaded(fault),
    };
    let Ok(text) = solve(alloc, &roster, market.mode, &trades, workers) else {
        return SolveEnd::Memory;
    };
    if write_all(output, &text).is_err() {
        return SolveEnd::SinkFault;
    }
    SolveEnd::Done
}
