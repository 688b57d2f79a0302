//! Which trades come into a network.

ghost use Rattle.product_book.specs.Networks.{AllCount};

use network_laws::Row;
use product_book::{Book, Which};
use std::alloc::AllocError;
use units_core::ProductNo;

/// A row of a network: the places of seller and buyer, and the amount.
pub type Sold = (u16, u16, u64);

fn are_rows(rows: &[Row], sold: &[Sold]) -> bool {
    if rows.len() != sold.len() {
        return false;
    }
    for i in 0..rows.len() {
        let (seller, buyer, amount) = sold[i];
        if rows[i].seller != seller || rows[i].buyer != buyer || rows[i].amount != amount {
            return false;
        }
    }
    true
}

/// Whether the network of the product's trades of this kind, between three members, has these rows.
pub fn has_network(
    book: &Book,
    product: ProductNo,
    which: Which,
    sold: &[Sold],
) -> Result<bool, AllocError>
    requires { AllCount which book.now.rows }
{
    let network = book.network(product, which)?;
    Ok(network.members() == 3 && are_rows(network.rows(), sold))
}
