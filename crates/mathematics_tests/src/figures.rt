//! Figures that were worked out by hand.

use crate::networks::{Sale, network_of, so};
use net_positions::{bilateral_gross, excess, floor_m, gross, net};
use std::alloc::Global;
use std::test::Fail;

const MOST: u64 = 1_000_000_000_000_000_000;

/// That a network has this gross, floor, excess and bilateral gross.
fn has_figures(
    alloc: Global,
    members: u16,
    sales: &[Sale],
    figures: (u64, u64, u64, u64),
) -> Result<(), Fail> {
    let network = network_of(alloc, members, sales)?;
    so(
        gross(&network) == figures.0
            && floor_m(&network) == figures.1
            && excess(&network) == figures.2
            && bilateral_gross(&network) == figures.3,
        "the figures are otherwise",
    )
}

/// Members, what they sold to one another, and the figures.
const NETWORKS: &[(u16, &[Sale], (u64, u64, u64, u64))] = &[
    (3, &[(0, 1, 10), (1, 2, 10), (2, 0, 10)], (30, 0, 30, 30)),
    (3, &[(0, 1, 10), (1, 2, 7)], (17, 10, 7, 17)),
    (3, &[(0, 1, 3), (0, 2, 7)], (10, 10, 0, 10)),
    (3, &[(0, 1, 12), (1, 0, 6)], (18, 6, 12, 6)),
    (
        5,
        &[(0, 4, 5), (3, 4, 5), (4, 1, 5), (4, 2, 5)],
        (20, 10, 10, 20),
    ),
    (256, &[(0, 1, MOST)], (MOST, MOST, 0, MOST)),
    (0, &[], (0, 0, 0, 0)),
];

fn all_have_figures(alloc: Global) -> Result<(), Fail> {
    for &(members, sales, figures) in NETWORKS {
        has_figures(alloc, members, sales, figures)?;
    }
    Ok(())
}

#[test]
fn a_ring_has_no_floor_and_a_chain_has_one(rt: HostRuntime) -> Result<(), Fail> {
    all_have_figures(rt.alloc())
}

/// That the three members of a network have these net positions.
fn has_nets(alloc: Global, sales: &[Sale], nets: [i64; 3]) -> Result<(), Fail> {
    let network = network_of(alloc, 3, sales)?;
    so(
        net(&network, 0) == nets[0] && net(&network, 1) == nets[1] && net(&network, 2) == nets[2],
        "the net positions are otherwise",
    )
}

#[test]
fn a_net_position_is_what_was_sold_less_what_was_bought(rt: HostRuntime) -> Result<(), Fail> {
    has_nets(rt.alloc(), &[(0, 1, 10), (1, 2, 7)], [10, -3, -7])
}
