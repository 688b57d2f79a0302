//! A machine's base and back: it stands as the base says, and tells the same base.

use super::sheets::{ALLEGED, Deal, EMPTY, LIVE, Sheet};
use super::standing::{machine_of, stands_so};
use super::words::Word::{A, B, C, D, P, Q};
use crate::market::{three_dealers, two_products};
use command_types::{Roster, Side, TradeState};
use std::alloc::Global;
use std::test::Fail;

/// Each kind of trade, and settings of both sides, with and without a ceiling.
pub const MIXED: Sheet = Sheet {
    position: 40,
    cycle: 3,
    version: 2,
    members: &[A, B, C],
    products: &[P],
    settings: &[
        (0, 0, 1, Side::Out, 4, None),
        (0, 0, 1, Side::In, 0, Some(0)),
        (0, 0, 2, Side::Out, 7, Some(7)),
        (2, 0, 0, Side::In, 0, Some(1_000_000_000_000_000_000)),
    ],
    deals: &[
        LIVE,
        ALLEGED,
        Deal {
            submitter: Some(Side::In),
            seller: 2,
            buyer: 0,
            ..ALLEGED
        },
        Deal {
            mark: Some(Side::In),
            ..LIVE
        },
        Deal {
            mark: Some(Side::Out),
            hold_out: true,
            hold_in: true,
            ..LIVE
        },
        Deal {
            hold_in: true,
            amount: 1,
            ..LIVE
        },
        Deal {
            submitter: None,
            seller: 1,
            buyer: 2,
            ..LIVE
        },
        Deal {
            state: TradeState::Ended,
            submitter: None,
            hold_out: true,
            ..LIVE
        },
        Deal {
            state: TradeState::Ended,
            mark: Some(Side::Out),
            amount: 1_000_000_000_000_000_000,
            ..LIVE
        },
        Deal {
            state: TradeState::Ended,
            amount: 1_000_000_000_000_000_000,
            ..LIVE
        },
    ],
};

// The largest numbers, and a product at its most.
const MOST: Sheet = Sheet {
    position: 1_000_000_000_000_000_000,
    cycle: 1_000_000_000_000_000_000,
    version: 1_000_000_000_000_000_000,
    deals: &[
        Deal {
            amount: 999_999_999_999_999_990,
            ..ALLEGED
        },
        LIVE,
    ],
    ..EMPTY
};

// Two products, each at its most, and a customer.
const TWO: Sheet = Sheet {
    position: 7,
    cycle: 1,
    version: 0,
    members: &[A, D],
    products: &[P, Q],
    settings: &[
        (0, 1, 1, Side::In, 1, Some(2)),
        (1, 0, 0, Side::Out, 0, None),
    ],
    deals: &[
        Deal {
            amount: 1_000_000_000_000_000_000,
            ..LIVE
        },
        Deal {
            amount: 1_000_000_000_000_000_000,
            product: 1,
            seller: 1,
            buyer: 0,
            ..LIVE
        },
    ],
};

const SHEETS: [Sheet; 3] = [EMPTY, MIXED, MOST];

// Whether a machine over this roster that stands so tells the same base.
fn comes_back(alloc: Global, roster: Roster, sheet: &Sheet) -> Result<bool, Fail> {
    let machine = machine_of(alloc, roster, sheet)?;
    Ok(stands_so(alloc, &machine, sheet)?)
}

fn come_back(alloc: Global, sheets: &[Sheet]) -> Result<bool, Fail> {
    for sheet in sheets {
        if !comes_back(alloc, three_dealers(alloc)?, sheet)? {
            return Ok(false);
        }
    }
    Ok(true)
}

fn comes_back_over_two(alloc: Global, sheet: &Sheet) -> Result<bool, Fail> {
    comes_back(alloc, two_products(alloc)?, sheet)
}

#[test]
fn bases_come_back(rt: HostRuntime) -> Result<(), Fail> {
    assert!(rt; come_back(rt.alloc(), &SHEETS)?);
    assert!(rt; comes_back_over_two(rt.alloc(), &TWO)?);
    Ok(())
}
