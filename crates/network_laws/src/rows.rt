//! What networks and limits are made of.

/// What a seller sold to a buyer: an amount in the contract's currency unit.
#[derive(Clone, Copy, PartialEq, Eq)]
pub struct Row {
    pub seller: u16,
    pub buyer: u16,
    pub amount: u64,
}

/// The least and the most that a seller may sell to a buyer, in the contract's currency unit. Where
/// `upper` is `None` there is no upper bound.
#[derive(Clone, Copy, PartialEq, Eq)]
pub struct LimitRow {
    pub seller: u16,
    pub buyer: u16,
    pub lower: u64,
    pub upper: Option<u64>,
}
