//! Trades, as the machine keeps them.

use units_core::{Amount, Day, MemberNo, ProductNo};

/// How far a trade has come.
#[derive(Clone, Copy, PartialEq, Eq)]
pub enum TradeState {
    /// One party submitted it; the other has not affirmed it yet.
    Alleged,
    Live,
    Ended,
}

/// The two sides of a trade: `Out` is the seller's, who owes, and `In` the buyer's.
#[derive(Clone, Copy, PartialEq, Eq)]
pub enum Side {
    Out,
    In,
}

/// A trade. Numbers count from 1 in the order of submission.
#[derive(Clone, Copy)]
pub struct TradeRow {
    pub number: u64,
    pub seller: MemberNo,
    pub buyer: MemberNo,
    pub product: ProductNo,
    pub amount: Amount,
    pub day: Day,
    pub state: TradeState,
    /// Who alleged it; nobody did where a plan made it.
    pub submitter: Option<Side>,
    /// Who asked to end it.
    pub mark: Option<Side>,
    /// The seller holds it.
    pub hold_out: bool,
    /// The buyer holds it.
    pub hold_in: bool,
    /// It takes part in an open cycle.
    pub frozen: bool,
}
