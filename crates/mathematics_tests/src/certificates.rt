//! Certificates, clashes and bounds that were worked out by hand.

ghost use Rattle.std.specs.Prelude.{◌≡◌, length};

use crate::networks::{Market, OPEN_3, OPEN_5, Sale, limits_of, network_of, so};
use dual_certificate::{bound, check};
use network_laws::{Clash, Limits, Network, Problem};
use std::alloc::Global;
use std::test::Fail;

const MOST: u64 = 1_000_000_000_000_000_000;

pub const RING: Market<'static> = Market {
    members: 3,
    sales: &[(0, 1, 10), (1, 2, 10), (2, 0, 10)],
    bounds: &[
        (0, 1, 4, Some(10)),
        (1, 2, 0, Some(10)),
        (2, 0, 0, Some(10)),
    ],
};

const CHAIN: [Sale; 2] = [(0, 1, 10), (1, 2, 7)];

const STAR: [Sale; 4] = [(0, 4, 5), (3, 4, 5), (4, 1, 5), (4, 2, 5)];

// A new network, its potentials, and the clash that is told of them first, or none.
type Told<'a> = (&'a [Sale], &'a [i32], Option<Clash>);

/// That each of these is told so of a market.
fn are_told(alloc: Global, market: Market<'_>, cases: &[Told<'_>]) -> Result<(), Fail> {
    let limits = limits_of(alloc, market.members, market.bounds)?;
    let old = network_of(alloc, market.members, market.sales)?;
    for &(new, potentials, clash) in cases {
        let new = network_of(alloc, market.members, new)?;
        if potentials.len() != usize::from(market.members) {
            return Err(Fail::new("there are other potentials"));
        }
        let found = check(&limits, &old, &new, potentials);
        so(found == clash, "another clash is told")?;
    }
    Ok(())
}

/// Whether potentials give this bound, or none.
fn has_bound(
    alloc: Global,
    market: Market<'_>,
    potentials: &[i32],
    least: Option<i128>,
) -> Result<bool, Fail> {
    let limits = limits_of(alloc, market.members, market.bounds)?;
    let old = network_of(alloc, market.members, market.sales)?;
    if potentials.len() != usize::from(market.members) {
        return Ok(false);
    }
    Ok(bound(&limits, &old, potentials) == least)
}

pub const LEAST: &[Sale] = &[(0, 1, 4), (1, 2, 4), (2, 0, 4)];

const SLACK: Option<Clash> = Some(Clash::Slack {
    seller: 1,
    buyer: 2,
});

const OPEN: Option<Clash> = Some(Clash::Open {
    seller: 2,
    buyer: 0,
});

const BELOW: Option<Clash> = Some(Clash::Below {
    seller: 0,
    buyer: 1,
});

const ABOVE: Option<Clash> = Some(Clash::Above {
    seller: 1,
    buyer: 2,
});

const NET: Option<Clash> = Some(Clash::Net { member: 0 });

const OF_RING: &[Told<'static>] = &[
    (LEAST, &[0, 2, 1], None),
    (LEAST, &[0, 1, 1], SLACK),
    (LEAST, &[0, 3, 2], OPEN),
    (&[(0, 1, 3), (1, 2, 3), (2, 0, 3)], &[0, 2, 1], BELOW),
    (&[(0, 1, 10), (1, 2, 11), (2, 1, 1)], &[0, 2, 1], ABOVE),
    (&[(0, 1, 4), (1, 2, 5), (2, 0, 5)], &[0, 2, 1], NET),
    (&[(0, 1, 4), (1, 2, 4), (2, 0, 3)], &[9, 2, 1], NET),
];

const KEPT: Market<'static> = Market {
    members: 3,
    sales: &CHAIN,
    bounds: &[(0, 1, 0, Some(10)), (1, 2, 0, Some(7))],
};

const PASSED: Option<Clash> = Some(Clash::Open {
    seller: 0,
    buyer: 2,
});

const OF_OPEN_CHAIN: &[Told<'static>] = &[
    (&[(0, 1, 3), (0, 2, 7)], &[1, 0, 0], None),
    (&CHAIN, &[2, 1, 0], PASSED),
];

const OPEN_CHAIN: Market<'static> = Market {
    bounds: OPEN_3,
    ..KEPT
};

const STEPS: &[i32] = &[1, 0, 0, 1, 0];

const BACK: Option<Clash> = Some(Clash::Slack {
    seller: 4,
    buyer: 1,
});

const OF_STAR: &[Told<'static>] = &[
    (&[(0, 1, 5), (3, 2, 5)], STEPS, None),
    (&[(0, 2, 5), (3, 1, 5)], STEPS, None),
    (&STAR, STEPS, BACK),
];

const DEALERS: Market<'static> = Market {
    members: 5,
    sales: &STAR,
    bounds: OPEN_5,
};

const MARKETS: &[(Market<'static>, &[Told<'static>])] = &[
    (RING, OF_RING),
    // A chain is least until its pairs may grow.
    (KEPT, &[(&CHAIN, &[2, 1, 0], None)]),
    (OPEN_CHAIN, OF_OPEN_CHAIN),
    // Five dealers have two least networks.
    (DEALERS, OF_STAR),
];

fn all_are_told(alloc: Global) -> Result<(), Fail> {
    for &(market, cases) in MARKETS {
        are_told(alloc, market, cases)?;
    }
    Ok(())
}

#[test]
fn the_first_clash_is_told(rt: HostRuntime) -> Result<(), Fail> {
    all_are_told(rt.alloc())
}

// A sale of 10^18, which has to be left as it is, may fall, and may grow past all bounds.
const LARGE: Market<'static> = Market {
    members: 2,
    sales: &[(0, 1, MOST)],
    bounds: &[],
};

const LARGE_MAY_FALL: Market<'static> = Market {
    bounds: &[(0, 1, 0, Some(MOST))],
    ..LARGE
};

const LARGE_MAY_GROW: Market<'static> = Market {
    bounds: &[(0, 1, u64::MAX, None), (1, 0, 0, Some(u64::MAX))],
    ..LARGE
};

// Potentials that differ by 2^32 - 1.
const ENDS: &[i32] = &[i32::MAX, i32::MIN];

const TURNED: &[i32] = &[i32::MIN, i32::MAX];

// A market, potentials, and the bound that they give, or none. The last two pass 64 bits: 2^32 - 1 times 10^18, and 2 times
// 2^64 - 1 less that.
const BOUNDS: &[(Market<'static>, &[i32], Option<i128>)] = &[
    (RING, &[0, 2, 1], Some(12)),
    (KEPT, &[2, 1, 0], Some(17)),
    (OPEN_CHAIN, &[1, 0, 0], Some(10)),
    (OPEN_CHAIN, &[2, 1, 0], None),
    (DEALERS, STEPS, Some(10)),
    (LARGE_MAY_FALL, ENDS, Some(1_000_000_000_000_000_000)),
    (LARGE_MAY_GROW, ENDS, None),
    (LARGE, ENDS, Some(4_294_967_295_000_000_000_000_000_000)),
    (
        LARGE_MAY_GROW,
        TURNED,
        Some(-4_294_967_258_106_511_852_580_896_770),
    ),
];

fn have_bounds(alloc: Global) -> Result<(), Fail> {
    for &(market, potentials, least) in BOUNDS {
        so(
            has_bound(alloc, market, potentials, least)?,
            "the bound is otherwise",
        )?;
    }
    Ok(())
}

#[test]
fn potentials_give_their_bound(rt: HostRuntime) -> Result<(), Fail> {
    have_bounds(rt.alloc())
}

/// The problem of a network that potentials show to be least already.
fn problem_of(limits: Limits, network: Network, potentials: &[i32]) -> Option<Problem>
    requires members { limits.members ≡ network.members }
    requires potentials { length potentials.now ≡ network.members }
{
    match check(&limits, &network, &network, potentials) {
        Some(_) => None,
        None => Some(Problem::new(limits, network)),
    }
}

/// That a market that potentials show to be least is a problem of so many bounds and rows.
fn is_problem(
    alloc: Global,
    market: Market<'_>,
    potentials: &[i32],
    bounds: usize,
    rows: usize,
) -> Result<(), Fail> {
    let limits = limits_of(alloc, market.members, market.bounds)?;
    let network = network_of(alloc, market.members, market.sales)?;
    if potentials.len() != usize::from(market.members) {
        return Err(Fail::new("there are other potentials"));
    }
    let Some(problem) = problem_of(limits, network, potentials) else {
        return Err(Fail::new("it is not least"));
    };
    let counts = (
        problem.limits().rows().len(),
        problem.network().rows().len(),
    );
    let (limits, network) = problem.into_parts();
    so(
        counts == (bounds, rows)
            && limits.members() == market.members
            && network.members() == market.members,
        "the problem is otherwise",
    )
}

#[test]
fn a_least_network_is_a_problem(rt: HostRuntime) -> Result<(), Fail> {
    let market = Market {
        sales: &[(0, 1, 5), (3, 2, 5)],
        ..DEALERS
    };
    is_problem(rt.alloc(), market, STEPS, 20, 2)
}
