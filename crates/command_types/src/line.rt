//! Lines of a session, as the grammar reads them.

use crate::cycle::Mode;
use crate::level::Level;
use crate::trade::Side;
use units_core::{Amount, Day, Name};

/// A line of the grammar.
#[derive(Clone, Copy)]
pub enum Line {
    /// `HELLO NAME KEY`
    Hello {
        name: Name,
        key: Name,
    },
    /// `TRADE SELLER BUYER PRODUCT AMOUNT DAY`
    Trade {
        seller: Name,
        buyer: Name,
        product: Name,
        amount: Amount,
        day: Day,
    },
    /// `AFFIRM TRADE`
    Affirm {
        trade: u64,
    },
    /// `END TRADE`
    End {
        trade: u64,
    },
    /// `HOLD TRADE`
    Hold {
        trade: u64,
    },
    /// `FREE TRADE`
    Free {
        trade: u64,
    },
    /// `TOL OTHER PRODUCT SIDE FLOOR CEILING`, where SIDE is `out` or `in` and CEILING may be `-`
    Tol {
        other: Name,
        product: Name,
        side: Side,
        floor: Level,
        ceiling: Option<Level>,
    },
    /// `NETS PRODUCT`
    Nets {
        product: Name,
    },
    /// `STATEMENT`
    Statement,
    /// `FREEZE DAY`
    Freeze {
        day: Day,
    },
    /// `BEGIN CYCLE MODE`
    Begin {
        cycle: u64,
        mode: Mode,
    },
    /// `LIMITS PRODUCT`
    Limits {
        product: Name,
    },
    /// `ROW PRODUCT SELLER BUYER AMOUNT`
    Row {
        product: Name,
        seller: Name,
        buyer: Name,
        amount: Amount,
    },
    /// `POT PRODUCT MEMBER VALUE`
    Pot {
        product: Name,
        member: Name,
        value: i32,
    },
    /// `POST CYCLE VERSION`
    Post {
        cycle: u64,
        version: u64,
    },
    /// `PROPOSE CYCLE MODE`
    Propose {
        cycle: u64,
        mode: Mode,
    },
    /// `NEXT POSITION`
    Next {
        position: u64,
    },
    /// `PLAN CYCLE`
    Plan {
        cycle: u64,
    },
    /// `PROOF CYCLE`
    Proof {
        cycle: u64,
    },
    /// `ACCEPT CYCLE VERSION`
    Accept {
        cycle: u64,
        version: u64,
    },
    /// `DECLINE CYCLE VERSION`
    Decline {
        cycle: u64,
        version: u64,
    },
    /// `CANCEL CYCLE`
    Cancel {
        cycle: u64,
    },
    /// `BYE`
    Bye,
}
