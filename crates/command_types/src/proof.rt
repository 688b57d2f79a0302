//! What a member is told of a proposal, so that it can test its own part.

use crate::cycle::Mode;
use units_core::Day;

/// Which proposal a member is told of.
#[derive(Clone, Copy, PartialEq, Eq)]
pub struct ProofHead {
    pub cycle: u64,
    pub version: u64,
    /// The day of the cycle's freeze.
    pub day: Day,
    /// The mode in which the version began.
    pub mode: Mode,
    /// The position at which the version began.
    pub begun: u64,
}

/// Whose a bound of a pair is.
#[derive(Clone, Copy, PartialEq, Eq)]
pub enum Whose {
    /// The seller set it.
    Seller,
    /// The buyer set it.
    Buyer,
    /// So much of the pair is held.
    Hold,
    /// It is the frozen amount, since the pair may not grow.
    Now,
    /// There is no bound.
    Nobody,
}

/// A pair as a member is told it: its bounds and whose they are, its frozen amount now, and what a proposal makes of it.
#[derive(Clone, Copy, PartialEq, Eq)]
pub struct PairLine {
    pub product: u16,
    pub seller: u16,
    pub buyer: u16,
    pub lower: u64,
    pub lower_of: Whose,
    pub now: u64,
    pub next: u64,
    pub upper: Option<u64>,
    pub upper_of: Whose,
}

/// What a member is told of a proposal to test its own part.
#[derive(Clone, Copy, PartialEq, Eq)]
pub enum ProofRow {
    /// The potential of a member.
    Potential {
        product: u16,
        member: u16,
        value: i32,
    },
    /// A pair in which the member that asks has a side.
    Pair(PairLine),
}
