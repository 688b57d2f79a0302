//! What members find in their own parts of certificates that were worked out by hand.

use crate::certificates::{LEAST, RING};
use crate::networks::{Bound, Market, Sale, limits_of, network_of, so};
use dual_certificate::check_own;
use network_laws::Clash;
use std::alloc::{AllocError, Global};
use std::test::Fail;

// A new network, its potentials, and what the members 0, 1 and 2 find of it, in their order.
type Told<'a> = (&'a [Sale], &'a [i32], [Option<Clash>; 3]);

/// The sales in which a member has a side.
fn own_sales(alloc: Global, sales: &[Sale], member: u16) -> Result<Vec<Sale>, AllocError> {
    let mut own = Vec::new(alloc);
    for &(seller, buyer, amount) in sales {
        if seller == member || buyer == member {
            own.push((seller, buyer, amount))?;
        }
    }
    Ok(own)
}

/// The bounds of the pairs in which it has one.
fn own_bounds(alloc: Global, bounds: &[Bound], member: u16) -> Result<Vec<Bound>, AllocError> {
    let mut own = Vec::new(alloc);
    for &(seller, buyer, lower, upper) in bounds {
        if seller == member || buyer == member {
            own.push((seller, buyer, lower, upper))?;
        }
    }
    Ok(own)
}

/// Whether a member finds what is told of it.
fn is_found(alloc: Global, market: Market<'_>, told: Told<'_>, member: u16) -> Result<bool, Fail> {
    let (new, potentials, clashes) = told;
    let limits = limits_of(alloc, market.members, market.bounds)?;
    let old = network_of(alloc, market.members, market.sales)?;
    let new = network_of(alloc, market.members, new)?;
    let Some(&clash) = clashes.get(usize::from(member)) else {
        return Ok(false);
    };
    if potentials.len() != usize::from(market.members) || member >= market.members {
        return Ok(false);
    }
    Ok(check_own(&limits, &old, &new, potentials, member) == clash)
}

/// Whether a member finds it in its own rows alone.
fn is_found_alone(
    alloc: Global,
    market: Market<'_>,
    told: Told<'_>,
    member: u16,
) -> Result<bool, Fail> {
    let (new, potentials, clashes) = told;
    let sales = own_sales(alloc, market.sales, member)?;
    let bounds = own_bounds(alloc, market.bounds, member)?;
    let new = own_sales(alloc, new, member)?;
    let own = Market {
        members: market.members,
        sales: &sales,
        bounds: &bounds,
    };
    is_found(alloc, own, (&new, potentials, clashes), member)
}

/// That a member finds what is told of it, in all rows and in its own.
fn finds_both(alloc: Global, told: Told<'_>, member: u16) -> Result<(), Fail> {
    let found = is_found(alloc, RING, told, member)?;
    let alone = is_found_alone(alloc, RING, told, member)?;
    so(found && alone, "a member finds another clash")
}

/// That each member of the ring finds what is told of it.
fn all_find(alloc: Global) -> Result<(), Fail> {
    for &told in OF_RING {
        for member in 0..3 {
            finds_both(alloc, told, member)?;
        }
    }
    Ok(())
}

const SLACK: Option<Clash> = Some(Clash::Slack {
    seller: 1,
    buyer: 2,
});

const OPEN: Option<Clash> = Some(Clash::Open {
    seller: 2,
    buyer: 0,
});

const BELOW: Option<Clash> = Some(Clash::Below {
    seller: 0,
    buyer: 1,
});

const ABOVE: Option<Clash> = Some(Clash::Above {
    seller: 1,
    buyer: 2,
});

const BACK: Option<Clash> = Some(Clash::Above {
    seller: 2,
    buyer: 1,
});

const NET_0: Option<Clash> = Some(Clash::Net { member: 0 });

const NET_1: Option<Clash> = Some(Clash::Net { member: 1 });

const OF_RING: &[Told<'static>] = &[
    (LEAST, &[0, 2, 1], [None, None, None]),
    (LEAST, &[0, 1, 1], [None, SLACK, SLACK]),
    (LEAST, &[0, 3, 2], [OPEN, None, OPEN]),
    (
        &[(0, 1, 3), (1, 2, 3), (2, 0, 3)],
        &[0, 2, 1],
        [BELOW, BELOW, None],
    ),
    (
        &[(0, 1, 10), (1, 2, 11), (2, 1, 1)],
        &[0, 2, 1],
        [NET_0, ABOVE, BACK],
    ),
    // Two silent members hide what they owe each other.
    (
        &[(0, 1, 4), (1, 2, 5), (2, 0, 5)],
        &[0, 2, 1],
        [NET_0, NET_1, None],
    ),
];

#[test]
fn each_member_finds_its_own_clashes(rt: HostRuntime) -> Result<(), Fail> {
    all_find(rt.alloc())
}
