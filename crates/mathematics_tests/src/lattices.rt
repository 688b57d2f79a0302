//! Sparse markets of many members: each sells to the four that come next, round in a ring, so that paths are long.

use crate::generated::Draws;
use crate::networks::{Market, Sale};
use crate::problems::problem_of;
use crate::solvers::gross_is_same;
use crate::wide::no_growth;
use network_laws::Problem;
use std::alloc::{AllocError, Global};
use std::test::Fail;

/// What each member sold, pair by pair in order, with amounts up to 1,000.
fn sales_of(alloc: Global, members: u16, number: u64) -> Result<Vec<Sale>, AllocError> {
    let mut draws = Draws { state: number };
    let mut sales = Vec::new(alloc);
    for seller in 0..members {
        for buyer in 0..members {
            let ahead = (u32::from(buyer) + u32::from(members) - u32::from(seller))
                % u32::from(members);
            if 1 <= ahead && ahead <= 4 {
                sales.push((seller, buyer, 1 + draws.draw() % 1_000))?;
            }
        }
    }
    Ok(sales)
}

/// A lattice in which no pair may grow.
fn lattice_of(alloc: Global, members: u16, number: u64) -> Result<Problem, Fail> {
    let sales = sales_of(alloc, members, number)?;
    let bounds = no_growth(alloc, &sales)?;
    let market = Market {
        members,
        sales: &sales,
        bounds: &bounds,
    };
    problem_of(alloc, market)
}

/// A market that fills one word of a set, and one that needs the next.
fn are_same(alloc: Global) -> Result<(), Fail> {
    for members in [9u16, 64, 65] {
        gross_is_same(alloc, &lattice_of(alloc, members, 1)?)?;
    }
    Ok(())
}

#[test]
fn both_find_the_same_gross_for_lattices(rt: HostRuntime) -> Result<(), Fail> {
    are_same(rt.alloc())
}
