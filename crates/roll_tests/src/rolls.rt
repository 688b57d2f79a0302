//! Markets that go on, row by row.

use crate::cases::{OLD, is_rolled, rolled};
use crate::sheets::{Deal, LIVE, Limit, Sheet};
use command_types::{Side, TradeState};
use std::alloc::Global;
use std::test::Fail;

// B first, then a new member, then A and C; the products the other way round, and a new one.
const GROWN: &str =
    "name,role,key\nB,dealer,KX\nD,customer,KD\nA,dealer,KA\nC,customer,KC\nOPS,operator,KO\nQ,product,2026-06-01\nR,product,2027-03-01\nP,product,2027-06-01\n";

// Without C and Q.
const SHRUNK: &str = "name,role,key\nA,dealer,KA\nB,dealer,KB\nP,product,2027-03-01\n";

const ENDED: Deal = Deal {
    state: TradeState::Ended,
    ..LIVE
};

// C owes B 7 in Q; B has marked it, and holds it.
const HELD: Deal = Deal {
    seller: 2,
    buyer: 1,
    product: 1,
    amount: 7,
    mark: Some(Side::In),
    hold_in: true,
    ..LIVE
};

const ALLEGED: Deal = Deal {
    state: TradeState::Alleged,
    submitter: Some(Side::In),
    ..LIVE
};

// A plan made it, of more than a TRADE may have.
const MADE: Deal = Deal {
    buyer: 2,
    amount: 2_000_000_000_000_000,
    submitter: None,
    hold_out: true,
    ..LIVE
};

const BEFORE: [Deal; 6] = [ENDED, HELD, ALLEGED, ENDED, MADE, LIVE];

// The same at their places in the grown roster.
const AFTER: [Deal; 4] = [
    Deal {
        seller: 3,
        buyer: 0,
        product: 0,
        ..HELD
    },
    Deal {
        seller: 2,
        buyer: 0,
        product: 2,
        ..ALLEGED
    },
    Deal {
        seller: 2,
        buyer: 3,
        product: 2,
        ..MADE
    },
    Deal {
        seller: 2,
        buyer: 0,
        product: 2,
        ..LIVE
    },
];

const SETTINGS: [Limit; 4] = [
    (0, 0, 1, Side::Out, 3, 9),
    (0, 1, 2, Side::In, 4, 4),
    (1, 0, 0, Side::In, 5, 8),
    (2, 1, 0, Side::Out, 0, 6),
];

// In the order of the new places.
const SETTINGS_AFTER: [Limit; 4] = [
    (0, 2, 2, Side::In, 5, 8),
    (2, 0, 3, Side::In, 4, 4),
    (2, 2, 0, Side::Out, 3, 9),
    (3, 0, 2, Side::Out, 0, 6),
];

fn sheet<'a>(position: u64, settings: &'a [Limit], deals: &'a [Deal]) -> Sheet<'a> {
    Sheet {
        position,
        settings,
        deals,
    }
}

#[test]
fn open_trades_and_settings_go_along(rt: HostRuntime) -> Result<(), Fail> {
    let before = sheet(40, &SETTINGS, &BEFORE);
    let after = sheet(41, &SETTINGS_AFTER, &AFTER);
    assert!(rt; is_rolled(rt.alloc(), (GROWN, None), &before, &after)?);
    Ok(())
}

// C's trade has ended.
const OF_GONE: [Deal; 2] = [
    Deal {
        state: TradeState::Ended,
        ..HELD
    },
    LIVE,
];

#[test]
fn what_is_not_there_is_left_behind(rt: HostRuntime) -> Result<(), Fail> {
    let settings = [SETTINGS[0], SETTINGS[2]];
    let before = sheet(0, &SETTINGS, &OF_GONE);
    let after = sheet(1, &settings, &[LIVE]);
    assert!(rt; is_rolled(rt.alloc(), (SHRUNK, None), &before, &after)?);
    Ok(())
}

#[test]
fn matured_products_are_left_out(rt: HostRuntime) -> Result<(), Fail> {
    let alloc = rt.alloc();
    let before = sheet(7, &[], &[HELD, LIVE]);
    let both = sheet(8, &[], &[HELD, LIVE]);
    let one = sheet(8, &[], &[LIVE]);
    let none = sheet(8, &[], &[]);
    assert!(rt; is_rolled(alloc, (OLD, Some((2026, 5, 31))), &before, &both)?);
    assert!(rt; is_rolled(alloc, (OLD, Some((2026, 6, 1))), &before, &one)?);
    assert!(rt; is_rolled(alloc, (SHRUNK, Some((2026, 6, 1))), &before, &one)?);
    assert!(rt; is_rolled(alloc, (OLD, Some((2027, 3, 1))), &before, &none)?);
    Ok(())
}

// Whether of so many trades, of which every hundredth is live, those go along.
fn is_thinned(alloc: Global, count: u32) -> Result<bool, Fail> {
    let mut deals = Vec::new(alloc);
    for number in 0..count {
        deals.push(if number % 100 == 99 { LIVE } else { ENDED })?;
    }
    let before = sheet(0, &[], &deals);
    let Some(Ok(made)) = rolled(alloc, OLD, (OLD, None), &before)? else {
        return Ok(false);
    };
    let rows = made.trades.rows();
    Ok(rows.len() == 1000 && rows[999].number == 1000)
}

#[test]
fn a_hundredth_of_100_000_trades_goes_along(rt: HostRuntime) -> Result<(), Fail> {
    assert!(rt; is_thinned(rt.alloc(), 100_000)?);
    Ok(())
}
