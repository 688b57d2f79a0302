//! Why a command is refused.

use crate::cycle::Phase;
use crate::trade::TradeState;
use network_laws::Clash;
use units_core::{Day, ProductNo};

/// What is wrong with a posted list of solutions.
#[derive(Clone, Copy, PartialEq, Eq)]
pub enum BadPost {
    /// Not one solution for each product, each with the roster's members.
    Shape,
    /// The first product that is not certified, and its first clash.
    At { product: ProductNo, clash: Clash },
}

/// Why a command is refused. Each has a number and a name in the reply's text.
#[derive(Clone, Copy, PartialEq, Eq)]
pub enum Refusal {
    /// 3: the line is not in the grammar; `at` is the offset of the first word that is not of the form.
    BadLine { at: u32 },
    /// 1: nobody has greeted, or the party is not in the roster.
    NotGreeted,
    /// 2: no member and no operator has that name and key.
    BadKey,
    /// 14: the party is not the operator.
    NotOperator,
    /// 4: a member's name in the command is no member's.
    UnknownMember,
    /// 5: the product's name is no product's.
    UnknownProduct,
    /// 6: both members are the same.
    OwnTrade,
    /// 11: no trade has that number.
    UnknownTrade,
    /// 7: the party is not one that may do this to the trade.
    NotParty,
    /// 8: the amount is over 10^15.
    AmountOver,
    /// 22: the trade's day is not before the product's maturity.
    Matured { maturity: Day },
    /// 23: the ceiling is below the floor.
    FloorOverCeiling,
    /// 12: the trade's state does not allow this.
    WrongTradeState { state: TradeState },
    /// 13: the trade is frozen in the open cycle.
    TradeFrozen { cycle: u64 },
    /// 15: a cycle is open.
    CycleOpen { cycle: u64 },
    /// 16: the number is not the cycle number.
    WrongCycle { cycle: u64 },
    /// 21: the cycle broke, since this frozen trade ended.
    CycleBroken { trade: u64 },
    /// 17: the phase is not one in which the command is allowed.
    WrongPhase { phase: Phase },
    /// 18: the number is not the version.
    WrongVersion { version: u64 },
    /// 19: the party is the operator, or is not touched by the plan.
    NotTouched,
    /// 20: the party's vote stands.
    AlreadyAccepted,
    /// 24: the posted list has the wrong shape, or a product of it is not certified.
    BadCertificate { post: BadPost },
    /// 9: amounts of a product would pass 10^18.
    GrossOver,
    /// 10: 100,000 trades were submitted.
    TradesFull,
    /// 29: the draft would hold more than 100,000 rows and potentials.
    DraftFull,
    /// 31: the position is below the one where the history begins, `from`.
    Gone { from: u64 },
    /// 32: the position is above the history's length, `end`.
    Ahead { end: u64 },
    /// 25: the journal, which has `size` bytes, has no room for the change.
    JournalFull { size: u64 },
    /// 26: a disk fault stopped the desk before; the history ends at position `at`.
    Stopped { at: u64 },
    /// 28: no memory was to be had. Nothing changed.
    Memory,
    /// 27: the disk failed in this call.
    DiskFault,
}
