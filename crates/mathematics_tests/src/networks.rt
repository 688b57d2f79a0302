//! Networks and limits of small markets, by rows of numbers.

ghost use Rattle.std.specs.Prelude.{◌≡◌, IfOk};

use network_laws::{LimitRow, Limits, Network, Row};
use std::alloc::{AllocError, Global};
use std::test::Fail;

/// A seller, a buyer and an amount.
pub type Sale = (u16, u16, u64);

/// A seller, a buyer, and the least and the most that the one may sell to the other.
pub type Bound = (u16, u16, u64, Option<u64>);

/// That something holds; else the test fails, and says what is otherwise.
pub fn so(holds: bool, what: &str) -> Result<(), Fail> {
    if holds {
        return Ok(());
    }
    Err(Fail::new(what))
}

/// Bounds that let each pair of three members have any amount, and each pair of five.
pub const OPEN_3: &[Bound] = &[
    (0, 1, 0, None),
    (0, 2, 0, None),
    (1, 0, 0, None),
    (1, 2, 0, None),
    (2, 0, 0, None),
    (2, 1, 0, None),
];

pub const OPEN_5: &[Bound] = &[
    (0, 1, 0, None),
    (0, 2, 0, None),
    (0, 3, 0, None),
    (0, 4, 0, None),
    (1, 0, 0, None),
    (1, 2, 0, None),
    (1, 3, 0, None),
    (1, 4, 0, None),
    (2, 0, 0, None),
    (2, 1, 0, None),
    (2, 3, 0, None),
    (2, 4, 0, None),
    (3, 0, 0, None),
    (3, 1, 0, None),
    (3, 2, 0, None),
    (3, 4, 0, None),
    (4, 0, 0, None),
    (4, 1, 0, None),
    (4, 2, 0, None),
    (4, 3, 0, None),
];

/// Members, what they sold to one another, and the bounds of their pairs.
#[derive(Clone, Copy)]
pub struct Market<'a> {
    pub members: u16,
    pub sales: &'a [Sale],
    pub bounds: &'a [Bound],
}

/// The network of these sales.
pub fn network_of(alloc: Global, members: u16, sales: &[Sale]) -> Result<Network, Fail>
    ensures { IfOk result (λ y. y.members ≡ members) }
{
    let mut rows = Vec::new(alloc);
    for &(seller, buyer, amount) in sales {
        rows.push(Row {
            seller,
            buyer,
            amount,
        })?;
    }
    let network = Network::from_rows(members, rows)?;
    Ok(network)
}

/// The limits of these bounds.
pub fn limits_of(alloc: Global, members: u16, bounds: &[Bound]) -> Result<Limits, Fail>
    ensures { IfOk result (λ l. l.members ≡ members) }
{
    let mut rows = Vec::new(alloc);
    for &(seller, buyer, lower, upper) in bounds {
        rows.push(LimitRow {
            seller,
            buyer,
            lower,
            upper,
        })?;
    }
    let limits = Limits::from_rows(members, rows)?;
    Ok(limits)
}

/// Bounds that let each pair of members have any amount.
pub fn unbounded(alloc: Global, members: u16) -> Result<Vec<Bound>, AllocError> {
    let mut bounds = Vec::new(alloc);
    for seller in 0..members {
        for buyer in 0..members {
            if seller != buyer {
                bounds.push((seller, buyer, 0, None))?;
            }
        }
    }
    Ok(bounds)
}

/// Whether a network has these rows and no others.
pub fn has_rows(network: &Network, sales: &[Sale]) -> bool {
    let rows = network.rows();
    if rows.len() != sales.len() {
        return false;
    }
    for (row, &(seller, buyer, amount)) in rows.iter().zip(sales) {
        if row.seller != seller || row.buyer != buyer || row.amount != amount {
            return false;
        }
    }
    true
}
