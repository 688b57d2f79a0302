//! Amounts from 1 to 10^15 in one market, on which both solvers have to end at once; and markets of 256 members.

use crate::networks::{Bound, Market, Sale, unbounded};
use crate::problems::problem_of;
use crate::solvers::{Found, both_find, gross_is_same, paths_certify};
use std::alloc::{AllocError, Global};
use std::test::Fail;

/// A sold 1 to C, B 1 to A and 2k to C, and C k to A and to B; no pair may grow. The nets are -k, k + 1 and -1. So
/// with `a` from A to C, `b` from B to A and `c` from C to B the gross is 2k + 1 + 2a - b + 2c, which is least where
/// b is 1, and a and c are 0: it is 2k. The members are A, B and C in some order.
fn sales_of(order: [u16; 3], k: u64) -> [Sale; 5] {
    let [a, b, c] = order;
    [
        (a, c, 1),
        (b, a, 1),
        (b, c, k.saturating_mul(2)),
        (c, a, k),
        (c, b, k),
    ]
}

/// The other way round: who sold then buys. The least gross is the same.
fn turned(sale: Sale) -> Sale {
    (sale.1, sale.0, sale.2)
}

/// Adds the sale of each pair in order, if there is one.
fn in_order(alloc: Global, sales: &[Sale]) -> Result<Vec<Sale>, AllocError> {
    let mut sorted = Vec::new(alloc);
    for seller in 0..3u16 {
        for buyer in 0..3u16 {
            for sale in sales {
                if sale.0 == seller && sale.1 == buyer {
                    sorted.push(*sale)?;
                }
            }
        }
    }
    Ok(sorted)
}

/// Bounds by which no pair may grow.
pub fn no_growth(alloc: Global, sales: &[Sale]) -> Result<Vec<Bound>, AllocError> {
    let mut bounds = Vec::new(alloc);
    for &(seller, buyer, amount) in sales {
        bounds.push((seller, buyer, 0, Some(amount)))?;
    }
    Ok(bounds)
}

/// That both solvers find that the least gross of this market is 2k.
fn is_solved(alloc: Global, sales: &[Sale], k: u64) -> Result<(), Fail> {
    let sales = in_order(alloc, sales)?;
    let bounds = no_growth(alloc, &sales)?;
    let market = Market {
        members: 3,
        sales: &sales,
        bounds: &bounds,
    };
    let problem = problem_of(alloc, market)?;
    paths_certify(alloc, &problem, k.saturating_mul(2))?;
    gross_is_same(alloc, &problem)
}

const SIZES: [u64; 4] = [1, 1_000, 1_000_000_000, 1_000_000_000_000_000];

const ORDERS: [[u16; 3]; 6] = [
    [0, 1, 2],
    [0, 2, 1],
    [1, 0, 2],
    [1, 2, 0],
    [2, 0, 1],
    [2, 1, 0],
];

fn all_are_solved(alloc: Global) -> Result<(), Fail> {
    for k in SIZES {
        for order in ORDERS {
            let sales = sales_of(order, k);
            is_solved(alloc, &sales, k)?;
            is_solved(alloc, &sales.map(turned), k)?;
        }
    }
    Ok(())
}

#[test]
fn one_beside_large_amounts_is_solved_at_once(rt: HostRuntime) -> Result<(), Fail> {
    all_are_solved(rt.alloc())
}

/// So much from each of 256 members to the next one, but for the last.
fn steps_of(alloc: Global, amount: u64) -> Result<Vec<Sale>, AllocError> {
    let mut sales = Vec::new(alloc);
    for seller in 0..255u16 {
        sales.push((seller, seller + 1, amount))?;
    }
    Ok(sales)
}

/// 256 members, each of whom sold 10 to the next one, but for the last, who sold 7: all fall by 7.
fn ring_falls(alloc: Global) -> Result<(), Fail> {
    let mut sales = steps_of(alloc, 10)?;
    sales.push((255, 0, 7))?;
    let rows = steps_of(alloc, 3)?;
    let bounds = no_growth(alloc, &sales)?;
    let market = Market {
        members: 256,
        sales: &sales,
        bounds: &bounds,
    };
    let found = Found {
        gross: 765,
        rows: &rows,
        potentials: None,
    };
    both_find(alloc, market, found)
}

#[test]
fn a_ring_of_256_members_falls_by_its_least_amount(rt: HostRuntime) -> Result<(), Fail> {
    ring_falls(rt.alloc())
}

/// A product without trades, in which each of 256 members may sell any amount to each other one.
#[test]
fn no_trades_of_256_members_stay_none(rt: HostRuntime) -> Result<(), Fail> {
    let pairs = unbounded(rt.alloc(), 256)?;
    let market = Market {
        members: 256,
        sales: &[],
        bounds: &pairs,
    };
    let found = Found {
        gross: 0,
        rows: &[],
        potentials: None,
    };
    both_find(rt.alloc(), market, found)
}
