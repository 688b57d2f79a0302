//! The limits of a ring of two dealers and a customer that owe one another 10 each, worked out by hand.

use crate::networks::{Bound, Sale, network_of, so};
use command_types::{Level, Mode, Side};
use network_laws::Limits;
use std::alloc::{AllocError, Global};
use std::test::Fail;
use tolerance_sets::Tolerances;
use trade_file::read_roster;
use units_core::{MemberNo, ProductNo};

const PARTIES: &str = "name,role,key\nA,dealer,A\nB,dealer,B\nC,customer,C\n";

/// A side of the pair of A and B, with a floor, a ceiling, and whether they are allowed.
type Setting = (Side, u64, Option<u64>, bool);

/// What is set, the mode, what is held of each pair, how many pairs have limits, and some of these.
#[derive(Clone, Copy)]
struct Case<'a> {
    settings: &'a [Setting],
    mode: Mode,
    held: u64,
    pairs: usize,
    bounds: &'a [Bound],
}

fn level(n: u64) -> Result<Level, AllocError> {
    Level::new(n).ok_or(AllocError)
}

/// A setting of A for what it owes B, or of B for what it is owed; whether it was allowed.
fn set(
    tolerances: &mut Tolerances,
    side: Side,
    floor: u64,
    ceiling: Option<u64>,
) -> Result<bool, Fail> {
    let (member, other) = match side {
        Side::Out => (MemberNo(0), MemberNo(1)),
        Side::In => (MemberNo(1), MemberNo(0)),
    };
    let ceiling = match ceiling {
        None => None,
        Some(most) => Some(level(most)?),
    };
    tolerances.reserve()?;
    let put = tolerances.set(member, ProductNo(0), other, side, level(floor)?, ceiling);
    Ok(put.is_ok())
}

/// The settings, all taken at the end, or none where another was allowed than it says.
fn tolerances(alloc: Global, settings: &[Setting]) -> Result<Option<Tolerances>, Fail> {
    let mut tolerances = Tolerances::new(alloc);
    for &(side, floor, ceiling, allowed) in settings {
        if set(&mut tolerances, side, floor, ceiling)? != allowed {
            return Ok(None);
        }
    }
    tolerances.take();
    Ok(Some(tolerances))
}

/// The limits of the ring, of which so much is held.
fn limits(alloc: Global, tolerances: &Tolerances, mode: Mode, held: u64) -> Result<Limits, Fail> {
    let roster = read_roster(alloc, PARTIES.as_bytes())?;
    let network = network_of(alloc, 3, &[(0, 1, 10), (1, 2, 10), (2, 0, 10)])?;
    let ring = [(0, 1, held), (1, 2, held), (2, 0, held)];
    let none: [Sale; 0] = [];
    let held = if held > 0 {
        network_of(alloc, 3, &ring)?
    } else {
        network_of(alloc, 3, &none)?
    };
    if roster.members().len() != 3 {
        return Err("the roster has not three members".into());
    }
    Ok(tolerances.limits(mode, &roster, ProductNo(0), &network, &held)?)
}

/// Whether the limits of a case are as it says.
fn gives(alloc: Global, case: &Case<'_>) -> Result<bool, Fail> {
    let Some(tolerances) = tolerances(alloc, case.settings)? else {
        return Ok(false);
    };
    let limits = limits(alloc, &tolerances, case.mode, case.held)?;
    for &(seller, buyer, lower, upper) in case.bounds {
        let found = limits.bounds(seller, buyer);
        if found.lower != lower || found.upper != upper {
            return Ok(false);
        }
    }
    Ok(limits.rows().len() == case.pairs)
}

const CASES: &[Case<'static>] = &[
    // A floor keeps a part of a pair.
    Case {
        settings: &[(Side::Out, 4, None, true)],
        mode: Mode::Conservative,
        held: 0,
        pairs: 3,
        bounds: &[
            (0, 1, 4, Some(10)),
            (1, 2, 0, Some(10)),
            (2, 0, 0, Some(10)),
        ],
    },
    // What is held is kept.
    Case {
        settings: &[(Side::Out, 4, None, true)],
        mode: Mode::Conservative,
        held: 6,
        pairs: 3,
        bounds: &[(0, 1, 6, Some(10)), (1, 2, 6, Some(10))],
    },
    // Dealers grow in hybrid mode and customers do not.
    Case {
        settings: &[],
        mode: Mode::Hybrid,
        held: 0,
        pairs: 4,
        bounds: &[
            (0, 1, 0, None),
            (1, 0, 0, None),
            (1, 2, 0, Some(10)),
            (2, 1, 0, Some(0)),
        ],
    },
    // Every pair grows in free mode.
    Case {
        settings: &[],
        mode: Mode::Free,
        held: 4,
        pairs: 6,
        bounds: &[
            (0, 1, 4, None),
            (1, 0, 0, None),
            (1, 2, 4, None),
            (2, 1, 0, None),
            (2, 2, 0, Some(0)),
        ],
    },
    // A ceiling holds in free mode.
    Case {
        settings: &[(Side::In, 3, Some(20), true)],
        mode: Mode::Free,
        held: 0,
        pairs: 6,
        bounds: &[(0, 1, 3, Some(20)), (1, 2, 0, None)],
    },
    // The larger floor and the smaller ceiling count.
    Case {
        settings: &[
            (Side::Out, 2, Some(30), true),
            (Side::In, 3, Some(20), true),
        ],
        mode: Mode::Hybrid,
        held: 0,
        pairs: 4,
        bounds: &[(0, 1, 3, Some(20))],
    },
    // A pair may always stay as it is.
    Case {
        settings: &[(Side::Out, 0, Some(7), true), (Side::In, 25, None, true)],
        mode: Mode::Hybrid,
        held: 0,
        pairs: 4,
        bounds: &[(0, 1, 10, Some(10))],
    },
    // A later setting replaces an earlier one.
    Case {
        settings: &[
            (Side::In, 5, None, true),
            (Side::Out, 8, Some(8), true),
            (Side::Out, 1, Some(40), true),
            (Side::In, 9, Some(8), false),
        ],
        mode: Mode::Hybrid,
        held: 0,
        pairs: 4,
        bounds: &[(0, 1, 5, Some(40))],
    },
];

fn all_give(alloc: Global) -> Result<(), Fail> {
    for case in CASES {
        so(gives(alloc, case)?, "the limits are otherwise")?;
    }
    Ok(())
}

#[test]
fn settings_holds_and_the_mode_give_the_limits(rt: HostRuntime) -> Result<(), Fail> {
    all_give(rt.alloc())
}
