//! Markets from a number, from outside.

use command_types::Role;
use std::alloc::{AllocError, Global};
use std::test::Fail;
use trade_file::{FileTrade, generate};

/// A seller, a buyer, a product and an amount.
type Sale = (u16, u16, u16, u64);

/// Numbers, and the first two trades and the last one of their markets, as `bench/markets.py` draws them.
const MARKETS: &[(u64, Sale, Sale, Sale)] = &[
    (
        1,
        (34, 30, 4, 192_871),
        (2, 14, 2, 486_903),
        (3, 38, 4, 52_695),
    ),
    (
        2,
        (0, 35, 0, 780_505),
        (27, 15, 4, 997_479),
        (18, 21, 1, 956_492),
    ),
    (
        1_000_000_000_000_000_000,
        (40, 37, 6, 506_382),
        (29, 13, 0, 674_815),
        (1, 24, 1, 455_095),
    ),
];

fn is_sale(trade: Option<&FileTrade>, sale: Sale) -> bool {
    let (seller, buyer, product, amount) = sale;
    match trade {
        None => false,
        Some(trade) => {
            trade.seller.0 == seller
                && trade.buyer.0 == buyer
                && trade.product.0 == product
                && trade.amount.get() == amount
        }
    }
}

/// Whether each market has 3,000 trades, and those that are known.
fn are_drawn(alloc: Global, markets: &[(u64, Sale, Sale, Sale)]) -> Result<bool, AllocError> {
    for &(number, first, second, last) in markets {
        let (_, trades) = generate(alloc, number)?;
        if trades.len() != 3_000
            || !is_sale(trades.first(), first)
            || !is_sale(trades.get(1), second)
            || !is_sale(trades.last(), last)
        {
            return Ok(false);
        }
    }
    Ok(true)
}

#[test]
fn the_trades_are_those_of_another_generator(rt: HostRuntime) -> Result<(), Fail> {
    assert!(rt; are_drawn(rt.alloc(), MARKETS)?);
    Ok(())
}

/// Members by their places, with their names and roles.
const MEMBERS: &[(usize, &str, Role)] = &[
    (0, "D00", Role::Dealer),
    (9, "D09", Role::Dealer),
    (13, "D13", Role::Dealer),
    (14, "C14", Role::Customer),
    (34, "C34", Role::Customer),
    (43, "C43", Role::Customer),
];

/// Whether the roster has these members, whose keys are their names, and the products `P0` to `P7`.
fn is_roster(alloc: Global, members: &[(usize, &str, Role)]) -> Result<bool, AllocError> {
    let (roster, _) = generate(alloc, 1)?;
    for &(place, name, role) in members {
        let Some(row) = roster.members().get(place) else {
            return Ok(false);
        };
        if row.name.text() != name.as_bytes() || row.key != row.name || row.role != role {
            return Ok(false);
        }
    }
    for (name, row) in [b"P0", b"P1", b"P2", b"P3", b"P4", b"P5", b"P6", b"P7"]
        .iter()
        .zip(roster.products())
    {
        if row.name.text() != name.as_slice() || row.maturity.text() != *b"2040-01-01" {
            return Ok(false);
        }
    }
    Ok(roster.members().len() == 44 && roster.products().len() == 8 && roster.operator().is_none())
}

#[test]
fn the_roster_has_dealers_then_customers_and_no_operator(rt: HostRuntime) -> Result<(), Fail> {
    assert!(rt; is_roster(rt.alloc(), MEMBERS)?);
    Ok(())
}
