//! Bases that a roster does not fit, one fault in each, and those that just fit.

use super::sheets::{ALLEGED, Deal, EMPTY, LIVE, Limit, Sheet, base_of};
use super::words::Word;
use super::words::Word::{A, B, C, D, P, Q};
use super::writable::can_be_written;
use crate::market::three_dealers;
use base_fitting::fits;
use command_types::{Side, TradeState};
use std::alloc::{AllocError, Global};
use std::test::Fail;

const MOST: u64 = 1_000_000_000_000_000_000;

// A position, a cycle and a version.
type Numbers = (u64, u64, u64);

const NUMBERS: [Numbers; 3] = [(MOST + 1, 0, 0), (0, MOST + 1, 0), (0, 0, MOST + 1)];

// Members and products.
type Names<'a> = (&'a [Word], &'a [Word]);

const NAMES: [Names; 8] = [
    (&[], &[P]),
    (&[A, B], &[P]),
    (&[A, B, C, D], &[P]),
    (&[A, C, B], &[P]),
    (&[A, B, D], &[P]),
    (&[A, B, C], &[]),
    (&[A, B, C], &[Q]),
    (&[A, B, C], &[P, Q]),
];

const SETTINGS: [Limit; 5] = [
    (3, 0, 1, Side::Out, 0, None),
    (0, 1, 1, Side::Out, 0, None),
    (0, 0, 3, Side::Out, 0, None),
    (1, 0, 1, Side::Out, 0, None),
    (0, 0, 1, Side::Out, 5, Some(4)),
];

// The first trade, behind which the live one stands.
const TRADES: [Deal; 10] = [
    Deal { seller: 3, ..LIVE },
    Deal { buyer: 3, ..LIVE },
    Deal { product: 1, ..LIVE },
    Deal { buyer: 0, ..LIVE },
    Deal {
        seller: 3,
        state: TradeState::Ended,
        ..LIVE
    },
    Deal {
        submitter: None,
        ..ALLEGED
    },
    Deal {
        mark: Some(Side::In),
        ..ALLEGED
    },
    Deal {
        hold_out: true,
        ..ALLEGED
    },
    Deal {
        hold_in: true,
        ..ALLEGED
    },
    Deal {
        amount: MOST - 9,
        ..ALLEGED
    },
];

// Whether it can be written, and does not fit the three dealers.
fn is_misfit(alloc: Global, sheet: &Sheet) -> Result<bool, AllocError> {
    let roster = three_dealers(alloc)?;
    let base = base_of(alloc, sheet)?;
    Ok(can_be_written(&base) && !fits(&base, &roster))
}

fn are_numbers_misfits(alloc: Global, numbers: &[Numbers]) -> Result<bool, AllocError> {
    for (position, cycle, version) in numbers {
        let sheet = Sheet {
            position: *position,
            cycle: *cycle,
            version: *version,
            ..EMPTY
        };
        if !is_misfit(alloc, &sheet)? {
            return Ok(false);
        }
    }
    Ok(true)
}

fn are_names_misfits(alloc: Global, names: &[Names]) -> Result<bool, AllocError> {
    for (members, products) in names {
        let sheet = Sheet {
            members,
            products,
            ..EMPTY
        };
        if !is_misfit(alloc, &sheet)? {
            return Ok(false);
        }
    }
    Ok(true)
}

fn are_settings_misfits(alloc: Global, limits: &[Limit]) -> Result<bool, AllocError> {
    for limit in limits {
        let sheet = Sheet {
            settings: &[*limit],
            ..EMPTY
        };
        if !is_misfit(alloc, &sheet)? {
            return Ok(false);
        }
    }
    Ok(true)
}

fn are_trades_misfits(alloc: Global, deals: &[Deal]) -> Result<bool, AllocError> {
    for deal in deals {
        let sheet = Sheet {
            deals: &[*deal, LIVE],
            ..EMPTY
        };
        if !is_misfit(alloc, &sheet)? {
            return Ok(false);
        }
    }
    Ok(true)
}

fn put_live(deals: &mut Vec<Deal>, count: u32) -> Result<(), AllocError> {
    for _ in 0..count {
        deals.push(LIVE)?;
    }
    Ok(())
}

// So many trades of A, and one more that a plan made.
fn is_misfit_of(alloc: Global, count: u32) -> Result<bool, AllocError> {
    let mut deals = Vec::new(alloc);
    put_live(&mut deals, count)?;
    deals.push(Deal {
        submitter: None,
        ..LIVE
    })?;
    let sheet = Sheet {
        deals: &deals,
        ..EMPTY
    };
    is_misfit(alloc, &sheet)
}

#[test]
fn other_bases_are_misfits(rt: HostRuntime) -> Result<(), Fail> {
    let alloc = rt.alloc();
    assert!(rt; are_numbers_misfits(alloc, &NUMBERS)? && are_names_misfits(alloc, &NAMES)?);
    assert!(rt; are_settings_misfits(alloc, &SETTINGS)? && are_trades_misfits(alloc, &TRADES)?);
    Ok(())
}

#[test]
fn few_trades_are_submitted(rt: HostRuntime) -> Result<(), Fail> {
    let alloc = rt.alloc();
    assert!(rt; !is_misfit_of(alloc, 100_000)? && is_misfit_of(alloc, 100_001)?);
    Ok(())
}
