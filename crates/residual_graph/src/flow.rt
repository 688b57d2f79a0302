//! What can still move between two members.

/// A pair: its lower bound, what it has above that, and what it can take more, in the contract's
/// currency unit. Its amount is `lower` and `back` together.
#[derive(Clone, Copy)]
pub struct Flow {
    pub seller: u16,
    pub buyer: u16,
    pub lower: u64,
    pub back: u64,
    pub room: u64,
}
