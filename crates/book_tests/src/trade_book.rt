//! The book of trades, over three members and two products: what is done to it, and what it tells then.

mod deeds;
mod freezes;
mod networks;
mod sums;

use units_core::ProductNo;

const P: ProductNo = ProductNo(0);

const Q: ProductNo = ProductNo(1);
