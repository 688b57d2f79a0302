//! What an execution does to the trades.

use units_core::{Amount, Day, MemberNo, ProductNo};

/// One step of a plan.
#[derive(Clone, Copy, PartialEq, Eq)]
pub enum PlanRow {
    /// The trade ends.
    End {
        trade: u64,
    },
    /// The trade's amount falls.
    Cut {
        trade: u64,
        from: u64,
        to: u64,
    },
    /// A new live trade.
    New {
        product: ProductNo,
        seller: MemberNo,
        buyer: MemberNo,
        amount: Amount,
        day: Day,
    },
}

/// A pair's limits as a member or the operator is told them: the least and the most that it may come to, where no
/// most is none, and its frozen amount now.
#[derive(Clone, Copy, PartialEq, Eq)]
pub struct LimitLine {
    pub seller: u16,
    pub buyer: u16,
    pub lower: u64,
    pub now: u64,
    pub upper: Option<u64>,
}
