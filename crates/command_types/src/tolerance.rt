//! What members allow a compression to change.

use crate::level::Level;
use crate::trade::Side;
use units_core::{MemberNo, ProductNo};

/// A member's setting for what it owes another member in a product (`Out`), or for what it is owed (`In`): what the
/// amount may fall to, and what it may grow to; no ceiling is none. Both are in units of the contract's currency.
#[derive(Clone, Copy)]
pub struct ToleranceRow {
    pub member: MemberNo,
    pub product: ProductNo,
    pub other: MemberNo,
    pub side: Side,
    pub floor: Level,
    pub ceiling: Option<Level>,
}
