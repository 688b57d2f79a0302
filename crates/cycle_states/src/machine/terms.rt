//! What a command asks for, where it says more than a name and a number.

use command_types::{Level, Side};
use units_core::{Amount, Day, Name};

/// What a party alleges.
#[derive(Clone, Copy)]
pub(super) struct Terms {
    pub seller: Name,
    pub buyer: Name,
    pub product: Name,
    pub amount: Amount,
    pub day: Day,
}

/// What a party sets towards another member.
#[derive(Clone, Copy)]
pub(super) struct Setting {
    pub other: Name,
    pub product: Name,
    pub side: Side,
    pub floor: Level,
    pub ceiling: Option<Level>,
}

/// A row of a draft that would then have this size, and this sum of the product's amounts.
#[derive(Clone, Copy)]
pub(super) struct DraftRow {
    pub product: Name,
    pub seller: Name,
    pub buyer: Name,
    pub size: u32,
    pub sum: u64,
}
