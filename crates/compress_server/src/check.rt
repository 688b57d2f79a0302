//! The form `check`: whether a proposal is right for a market.

ghost use Rattle.std.specs.Prelude.{◌≡◌, Err, IfOk};
ghost use Rattle.trade_file.specs.TradeFile.{AreFileTrades};
ghost use Rattle.dual_certificate.specs.Parts.{AreParts};
ghost use Rattle.file_market.specs.Check.{IsChecked};
ghost use Rattle.file_market.specs.Verdict.{verdict_text};
ghost use Rattle.program_words.specs.Words.{read_market};
ghost use Rattle.compress_server.specs.Check.{check_end, CheckRuns};
ghost use Rattle.compress_server.specs.Files.{files_by};
ghost use Rattle.compress_server.specs.Seen.{output_by};

use crate::ending::End;
use crate::load::{LoadFault, load_proposal, load_roster, load_trades};
use dual_certificate::ProposalPart;
use file_market::{Failing, Terms, check, verdict};
use network_laws::Solver;
use outside::{Files, Gate, Sink, write_all};
use parallel_solver::Workers;
use program_words::CheckWords;
use std::alloc::{AllocError, Global};
use std::thread::Threads;
use trade_file::{FileTrade, Readers};

/// How a check ended.
#[derive(Clone, Copy)]
pub enum CheckEnd {
    /// Every product passes, and that was written.
    Yes,
    /// A product fails, and that was written.
    No,
    /// A file could not be had.
    Unloaded(LoadFault),
    /// The output failed.
    SinkFault,
    /// The memory that was needed was not to be had.
    Memory,
}

impl From<CheckEnd> for End {
    ghost from_gives = { λ own end. end ≡ check_end own };

    fn from(own: CheckEnd) -> End {
        match own {
            CheckEnd::Yes => End::Done,
            CheckEnd::No => End::No,
            CheckEnd::Unloaded(fault) => End::from(fault),
            CheckEnd::SinkFault => End::SinkFault,
            CheckEnd::Memory => End::Memory,
        }
    }
}

// What a check of the parts by the workers finds, and the text that tells it.
fn verdict_on<R: Threads + Sync, V: Solver, G: Gate>(
    alloc: Global,
    terms: &Terms<'_>,
    trades: &[FileTrade],
    parts: &[ProposalPart],
    workers: &Workers<'_, R, V, G>,
) -> Result<(Option<Failing>, Vec<u8>), AllocError>
    requires trades { AreFileTrades terms.now.roster.now trades.now }
    requires parts { AreParts terms.now.roster.now parts.now }
    ensures checked { IfOk result (λ found. IsChecked terms.now.roster.now terms.now.mode trades.now parts.now found.0) }
    ensures told { IfOk result (λ found. found.1.items ≡ verdict_text terms.now.roster.now found.0) }
{
    let failing = check(alloc, terms, trades, parts, workers)?;
    let text = verdict(alloc, terms.roster, &failing)?;
    Ok((failing, text))
}

/// Reads the market's files and the proposal, has the workers check it, and writes the verdict. No file changes.
pub fn run_check<R: Threads + Sync, V: Solver, G: Gate, F: Files, K: Sink>(
    alloc: Global,
    files: &mut F,
    words: &CheckWords<'_>,
    output: &mut K,
    workers: &Workers<'_, R, V, G>,
) -> CheckEnd
    ensures runs { let seen = files_by F.Files in let written = output_by K.Sink in
        CheckRuns (read_market words.now.market) words.now.proposal.now (seen files.old) (seen files.new) (written output.old) (written output.new) result }
    ensures stays { F.folder files.new ≡ F.folder files.old }
{
    let CheckWords { market, proposal } = *words;
    let roster = match load_roster(alloc, files, market.roster) {
        Ok(roster) => roster,
        Err(fault) => return CheckEnd::Unloaded(fault),
    };
    let readers = Readers::new(workers.rt, workers.count());
    let trades = match load_trades(alloc, files, market.trades, &roster, &readers) {
        Ok(trades) => trades,
        Err(fault) => return CheckEnd::Unloaded(fault),
    };
    let parts = match load_proposal(alloc, files, proposal, &roster, workers) {
        Ok(parts) => parts,
        Err(fault) => return CheckEnd::Unloaded(fault),
    };
    let terms = Terms {
        roster: &roster,
        mode: market.mode,
    };
    let Ok((failing, text)) = verdict_on(alloc, &terms, &trades, &parts, workers) else {
        return CheckEnd::Memory;
    };
    if write_all(output, &text).is_err() {
        return CheckEnd::SinkFault;
    }
    match failing {
        None => CheckEnd::Yes,
        Some(_) => CheckEnd::No,
    }
}
