//! What a command is answered.

use crate::listed::Listed;
use crate::plan::{LimitLine, PlanRow};
use crate::proof::{ProofHead, ProofRow};
use crate::refusal::Refusal;
use crate::trade::TradeRow;
use network_laws::Problem;
use units_core::Name;

/// What a command is answered.
#[derive(Drop)]
pub enum Answer {
    /// The session speaks for this party from now on.
    Hello {
        name: Name,
    },
    /// The trade is alleged, under this number.
    Traded {
        trade: u64,
    },
    /// The trade is live.
    Affirmed {
        trade: u64,
    },
    /// One party asked to end the trade.
    Marked {
        trade: u64,
    },
    /// The trade ended.
    Ended {
        trade: u64,
    },
    /// The party holds the trade.
    Held {
        trade: u64,
    },
    /// The party's hold is gone.
    Freed {
        trade: u64,
    },
    /// The party's floor and ceiling are set.
    Tolerance,
    /// What the asker owes in the product, what it is owed, and the difference, in units of the contract's currency.
    Own {
        out: u64,
        into: u64,
        net: i64,
    },
    /// The product's gross, the sum of its positive nets, the excess of the first over the second, and what is left
    /// after netting pair by pair.
    Market {
        gross: u64,
        floor_m: u64,
        excess: u64,
        bilateral: u64,
    },
    /// All trades of the party.
    Statement {
        rows: Listed<TradeRow>,
    },
    /// The cycle is open, with so many trades.
    Frozen {
        cycle: u64,
        trades: u64,
    },
    /// The cycle's limits are taken, under this version.
    Begun {
        cycle: u64,
        version: u64,
    },
    /// The limits of a product.
    LimitRows {
        rows: Listed<LimitLine>,
    },
    /// The session's draft has so many rows and potentials.
    Noted {
        size: u32,
    },
    /// The proposal stands; gross notional before and after, over all products.
    Proposed {
        cycle: u64,
        version: u64,
        before: u128,
        after: u128,
    },
    /// The proposal touches nobody and is done.
    Nothing {
        cycle: u64,
        version: u64,
    },
    /// The plan's rows that the party may see.
    PlanRows {
        cycle: u64,
        version: u64,
        rows: Listed<PlanRow>,
    },
    /// What the party needs to test its own part of the proposal.
    ProofRows {
        head: ProofHead,
        rows: Listed<ProofRow>,
    },
    /// The vote is kept; so many touched members have not voted.
    Accepted {
        cycle: u64,
        version: u64,
        left: u32,
    },
    /// The last vote: the plan executed, with so many rows of each kind.
    Executed {
        cycle: u64,
        version: u64,
        ended: u64,
        cut: u64,
        made: u64,
    },
    /// The proposal is dropped.
    Declined {
        cycle: u64,
        version: u64,
    },
    /// The cycle is over.
    Cancelled {
        cycle: u64,
    },
    /// The session ends.
    Bye,
    /// What a session has to solve: one problem for each product.
    Problems(Listed<Problem>),
    /// There is no entry behind the position.
    NoNext,
    /// The entry at this position, as a record of bytes.
    EntryBytes {
        position: u64,
        bytes: Listed<u8>,
    },
    /// Nothing changed.
    No(Refusal),
}

/// An answer, and the length of the history after the command.
#[derive(Drop)]
pub struct Reply {
    pub at: u64,
    pub answer: Answer,
}
