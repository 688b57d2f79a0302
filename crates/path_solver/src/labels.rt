//! What stays while amounts are sent along the shortest paths.

use member_set::MemberSet;

/// The members by their prices, and each member's price and level.
#[derive(Clone, Copy)]
pub struct Labels<'a> {
    pub groups: &'a [MemberSet],
    pub prices: &'a [u16],
    pub levels: &'a [u16],
}
