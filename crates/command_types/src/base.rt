//! Bases of histories, as they are written.

use crate::listed::Listed;
use crate::tolerance::ToleranceRow;
use crate::trade::TradeRow;
use units_core::Name;

/// What is written of a state in which no cycle is open, so that a history can begin there.
#[derive(Drop)]
pub struct Base {
    /// How many changes there were before.
    pub position: u64,
    /// How many cycles were opened.
    pub cycle: u64,
    /// How many versions the last of them had.
    pub version: u64,
    /// The names of the members, in the order of the roster.
    pub members: Listed<Name>,
    /// The names of the products.
    pub products: Listed<Name>,
    /// Every setting that was made, in rising order of member, product, other member and side.
    pub tolerances: Listed<ToleranceRow>,
    /// Every trade, from number 1 on.
    pub trades: Listed<TradeRow>,
}
