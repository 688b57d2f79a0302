//! The trades of a trade file, as far as it was read.
ghost use Rattle.std.specs.Prelude.{◌≡◌, ◌<◌, [], nat_le, length, Ok, IfOk, IfSome, IsTrue};
ghost use Rattle.trade_file.specs.TradeFile.{with_trade};
ghost use Rattle.trade_file.specs.TradeDraft.{IsTradeDraft, trades_of_draft, TradeSteps, AreSums, AddUp, AreJoined};
ghost use Rattle.units_core.specs.declared.limits.TheConstants.{MOST_FILE_TRADES, MOST_PRODUCTS};

use crate::file_trade::FileTrade;
use command_types::FileFault;
use std::alloc::{AllocError, Global};
use units_core::{MOST_FILE_TRADES, MOST_GROSS};

/// The trades so far, and the sum of each product's amounts.
#[derive(Drop)]
pub(crate) struct TradeDraft {
    trades: Vec<FileTrade>,
    totals: [u64; 64],
}

// The sums of two drafts together. None where one passes the most.
fn added(front: &[u64; 64], back: &[u64; 64]) -> Option<[u64; 64]>
    requires front { AreSums front.now }
    requires back { AreSums back.now }
    ensures sums { IfSome result AreSums }
    ensures added { IfSome result (AddUp front.now back.now) }
{
    let mut all = [0u64; 64];
    for product in 0..64 {
        let total = front[product] + back[product];
        if total > MOST_GROSS {
            return None;
        }
        all[product] = total;
    }
    Some(all)
}

impl TradeDraft {
    pub(crate) fn new(alloc: Global) -> TradeDraft
        ensures trades { trades_of_draft result ≡ [] }
        ensures draft { IsTradeDraft result }
    {
        TradeDraft {
            trades: Vec::new(alloc),
            totals: [0; 64],
        }
    }

    /// Whether there is no room for one more trade.
    pub(crate) fn is_full(&self) -> bool
        ensures { result ≡ nat_le MOST_FILE_TRADES (length (trades_of_draft self.now)) }
    {
        self.trades.len() >= MOST_FILE_TRADES
    }

    /// Puts the trade of the record with this number last.
    #[inline(always)]
    pub(crate) fn add(&mut self, number: u64, trade: FileTrade) -> Result<(), FileFault>
        requires draft { IsTradeDraft self.old }
        requires product { trade.product < MOST_PRODUCTS }
        ensures { TradeSteps (with_trade number (trades_of_draft self.old) (Ok trade)) self.new result }
    {
        let product = trade.product.index();
        let total = self.totals[product] + trade.amount.get();
        if total > MOST_GROSS {
            return Err(FileFault::GrossLimit { row: number });
        }
        if self.trades.push(trade).is_err() {
            return Err(FileFault::Memory);
        }
        self.totals[product] = total;
        Ok(())
    }

    /// Puts another draft's trades behind these, and answers whether a file may have them all. If not, neither draft serves
    /// any more.
    pub(crate) fn append(&mut self, other: TradeDraft) -> Result<bool, AllocError>
        requires draft { IsTradeDraft self.old }
        requires other { IsTradeDraft other }
        ensures { IfOk result (λ fits. IsTrue fits → AreJoined self.old other self.new) }
    {
        if self.trades.len() + other.trades.len() > MOST_FILE_TRADES {
            return Ok(false);
        }
        if self.trades.is_empty() {
            *self = other;
            return Ok(true);
        }
        let Some(totals) = added(&self.totals, &other.totals) else {
            return Ok(false);
        };
        self.trades.extend_from_slice(&other.trades)?;
        self.totals = totals;
        Ok(true)
    }

    /// The trades.
    pub(crate) fn into_trades(self) -> Vec<FileTrade>
        ensures { result.items ≡ trades_of_draft self }
    {
        let TradeDraft { trades, totals: _ } = self;
        trades
    }
}
