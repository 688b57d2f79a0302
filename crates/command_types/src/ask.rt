//! Commands, and the changes that the history keeps.
ghost use Rattle.std.specs.Prelude.{◌≡◌};

use crate::cycle::Mode;
use crate::level::Level;
use crate::listed::Listed;
use crate::moment::Moment;
use crate::trade::Side;
use network_laws::Solution;
use std::mem;
use units_core::{Amount, Day, Name};

/// A command.
#[derive(Drop)]
pub enum What {
    /// Speak for this party, by its key.
    Hello {
        name: Name,
        key: Name,
    },
    /// Allege a trade in which the seller owes the buyer.
    Trade {
        seller: Name,
        buyer: Name,
        product: Name,
        amount: Amount,
        day: Day,
    },
    /// Agree to a trade that the other party alleged.
    Affirm {
        trade: u64,
    },
    /// Ask to end a trade; it ends where both parties asked.
    End {
        trade: u64,
    },
    /// Keep a trade out of compression.
    Hold {
        trade: u64,
    },
    /// Take one's hold away.
    Free {
        trade: u64,
    },
    /// Set what one's amount towards another member may fall to and grow to; no ceiling is none.
    Tol {
        other: Name,
        product: Name,
        side: Side,
        floor: Level,
        ceiling: Option<Level>,
    },
    /// Ask for one's own position in a product, or, as the operator, for the market's figures.
    Nets {
        product: Name,
    },
    /// Ask for all one's trades.
    Statement,
    /// Open a cycle over the live trades of the products that mature after the day.
    Freeze {
        day: Day,
    },
    /// Take the limits, and begin a version.
    Begin {
        cycle: u64,
        mode: Mode,
    },
    /// Ask for the limits of a product.
    Limits {
        product: Name,
    },
    /// Note a row of the draft; `size` and `sum` are the draft's size and the product's draft sum as they would be.
    Row {
        product: Name,
        seller: Name,
        buyer: Name,
        amount: Amount,
        size: u32,
        sum: u64,
    },
    /// Note a potential of the draft; `size` is the draft's size as it would be.
    Pot {
        product: Name,
        member: Name,
        value: i32,
        size: u32,
    },
    /// Post one solution for each product.
    Post {
        cycle: u64,
        version: u64,
        solutions: Listed<Solution>,
    },
    /// Ask for the problems of the begun version. Sessions alone ask it.
    Fetch {
        cycle: u64,
        version: u64,
    },
    /// Ask, as the operator, for the entry behind this position of the history.
    Next {
        position: u64,
    },
    /// Ask for the proposed plan.
    Plan {
        cycle: u64,
    },
    /// Ask for what one needs to test one's own part of the proposal.
    Proof {
        cycle: u64,
    },
    /// Agree to the proposal.
    Accept {
        cycle: u64,
        version: u64,
    },
    /// Refuse the proposal.
    Decline {
        cycle: u64,
        version: u64,
    },
    /// End the cycle.
    Cancel {
        cycle: u64,
    },
    /// End the session.
    Bye,
    /// A line that is not in the grammar; `at` is the offset of the first word that is not of the form.
    Unreadable {
        at: u32,
    },
}

/// A command, the party that gives it, if one has greeted, and when it was asked.
#[derive(Drop)]
pub struct Ask {
    pub by: Option<Name>,
    pub what: What,
    pub moment: Moment,
}

/// A change that was accepted, under the seat that asked for it.
#[derive(Drop)]
pub struct Entry {
    pub seat: u32,
    pub ask: Ask,
}

impl Entry {
    /// This command, taken out. A BYE of nobody is left in its place.
    pub fn take(&mut self) -> Entry
        ensures { result ≡ self.old }
    {
        let blank = Entry {
            seat: 0,
            ask: Ask {
                by: None,
                what: What::Bye,
                moment: Moment::new(0),
            },
        };
        mem::replace(self, blank)
    }
}
