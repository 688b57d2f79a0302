//! A trade of a trade file.

use units_core::{Amount, MemberNo, ProductNo};

/// What the seller sold to the buyer of a product, in the contract's currency unit: a live trade.
#[derive(Clone, Copy)]
pub struct FileTrade {
    pub seller: MemberNo,
    pub buyer: MemberNo,
    pub product: ProductNo,
    pub amount: Amount,
}
