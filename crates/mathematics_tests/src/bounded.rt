//! Both solvers within floors, ceilings and held sums, with the least network worked out by hand.

use crate::networks::{Bound, Market, OPEN_3, Sale};
use crate::solvers::{Found, both_find};
use std::alloc::Global;
use std::test::Fail;

/// A market, its one least network, and the potentials that certify it, where just these do.
#[derive(Clone, Copy)]
struct Case<'a> {
    members: u16,
    sales: &'a [Sale],
    bounds: &'a [Bound],
    rows: &'a [Sale],
    potentials: Option<&'a [i32]>,
}

const RING: &[Sale] = &[(0, 1, 10), (1, 2, 10), (2, 0, 10)];

const STAR: &[Sale] = &[(0, 4, 5), (1, 4, 5), (4, 2, 5), (4, 3, 5)];

const CASES: &[Case<'static>] = &[
    // a floor of 4, or a held trade of 4, keeps 4 in the whole ring
    Case {
        members: 3,
        sales: RING,
        bounds: &[
            (0, 1, 4, Some(10)),
            (1, 2, 0, Some(10)),
            (2, 0, 0, Some(10)),
        ],
        rows: &[(0, 1, 4), (1, 2, 4), (2, 0, 4)],
        potentials: None,
    },
    // of two floors the larger one counts
    Case {
        members: 3,
        sales: RING,
        bounds: &[
            (0, 1, 4, Some(10)),
            (1, 2, 6, Some(10)),
            (2, 0, 0, Some(10)),
        ],
        rows: &[(0, 1, 6), (1, 2, 6), (2, 0, 6)],
        potentials: None,
    },
    // a pair that is held whole keeps the ring
    Case {
        members: 3,
        sales: RING,
        bounds: &[
            (0, 1, 0, Some(10)),
            (1, 2, 0, Some(10)),
            (2, 0, 10, Some(10)),
        ],
        rows: RING,
        potentials: None,
    },
    // the pair of the chain's ends may take 5 of its 7
    Case {
        members: 3,
        sales: &[(0, 1, 10), (1, 2, 7)],
        bounds: &[(0, 1, 0, Some(10)), (0, 2, 0, Some(5)), (1, 2, 0, Some(7))],
        rows: &[(0, 1, 5), (0, 2, 5), (1, 2, 2)],
        potentials: None,
    },
    // a customer between two dealers leaves
    Case {
        members: 3,
        sales: &[(0, 2, 5), (2, 1, 5)],
        bounds: &[
            (0, 1, 0, None),
            (0, 2, 0, Some(5)),
            (1, 0, 0, None),
            (2, 1, 0, Some(5)),
        ],
        rows: &[(0, 1, 5)],
        potentials: None,
    },
    // 12 and 6 between two members come to 6; a floor of 1 the other way makes it 7 and 1
    Case {
        members: 3,
        sales: &[(0, 1, 12), (1, 0, 6)],
        bounds: &[(0, 1, 0, Some(12)), (1, 0, 1, Some(6))],
        rows: &[(0, 1, 7), (1, 0, 1)],
        potentials: None,
    },
    // a ring falls to nothing
    Case {
        members: 3,
        sales: RING,
        bounds: &[
            (0, 1, 0, Some(10)),
            (1, 2, 0, Some(10)),
            (2, 0, 0, Some(10)),
        ],
        rows: &[],
        potentials: None,
    },
    // a chain of dealers is shortened
    Case {
        members: 3,
        sales: &[(0, 1, 10), (1, 2, 7)],
        bounds: OPEN_3,
        rows: &[(0, 1, 3), (0, 2, 7)],
        potentials: Some(&[1, 0, 0]),
    },
    // Two dealers sell to a customer that sells on to two others: nothing can fall where only old pairs may
    // have amounts, and the old network is the answer.
    Case {
        members: 5,
        sales: STAR,
        bounds: &[
            (0, 1, 0, None),
            (0, 4, 0, Some(5)),
            (1, 0, 0, None),
            (1, 4, 0, Some(5)),
            (4, 2, 0, Some(5)),
            (4, 3, 0, Some(5)),
        ],
        rows: STAR,
        potentials: None,
    },
    // an empty market stays empty
    Case {
        members: 2,
        sales: &[],
        bounds: &[],
        rows: &[],
        potentials: Some(&[0, 0]),
    },
];

/// That both solvers find the least network of each case.
fn all_are_found(alloc: Global) -> Result<(), Fail> {
    for case in CASES {
        let mut gross = 0u64;
        for row in case.rows {
            gross = gross.saturating_add(row.2);
        }
        let market = Market {
            members: case.members,
            sales: case.sales,
            bounds: case.bounds,
        };
        let found = Found {
            gross,
            rows: case.rows,
            potentials: case.potentials,
        };
        both_find(alloc, market, found)?;
    }
    Ok(())
}

#[test]
fn both_solvers_find_the_least_network(rt: HostRuntime) -> Result<(), Fail> {
    all_are_found(rt.alloc())
}
