//! Which trades a freeze takes, which come into the networks of a cycle, and which a member and a pair have.

ghost use Rattle.std.specs.Prelude.{◌≡◌, IfOk};
ghost use Rattle.product_book.specs.Freezes.{FrozenCount};

use super::deeds::Deed::{Affirm, Allege, End, Hold};
use super::deeds::{Deed, book_of};
use super::networks::{Sold, has_network};
use super::{P, Q};
use crate::market::{A, B, C};
use command_types::{Side, TradeRow};
use product_book::{Book, Which};
use std::alloc::{AllocError, Global};
use std::test::Fail;
use units_core::{MemberNo, ProductNo};

// Of the first product a live trade, a held one, an alleged one and an ended one, and then a live one of the second.
const MARKET: [Deed; 10] = [
    Allege((0, 1, 0, 10), Side::Out),
    Affirm(1),
    Allege((0, 1, 0, 20), Side::In),
    Affirm(2),
    Hold(2, Side::In),
    Allege((0, 1, 0, 5), Side::Out),
    Allege((0, 1, 0, 9), Side::Out),
    End(4, Side::Out),
    Allege((1, 2, 1, 7), Side::Out),
    Affirm(5),
];

// The products, how many trades a freeze of them takes, and which.
type Frozen = ([bool; 2], u64, [bool; 5]);

const FREEZES: [Frozen; 4] = [
    ([true, false], 2, [true, true, false, false, false]),
    ([false, true], 1, [false, false, false, false, true]),
    ([true, true], 3, [true, true, false, false, true]),
    ([false, false], 0, [false, false, false, false, false]),
];

fn are_frozen(rows: &[TradeRow], want: &[bool]) -> bool {
    if rows.len() != want.len() {
        return false;
    }
    for i in 0..rows.len() {
        if rows[i].frozen != want[i] {
            return false;
        }
    }
    true
}

fn freezes(book: &mut Book, frozen: &Frozen) -> bool
    requires { book.old.products ≡ 2 }
    ensures { book.new.products ≡ 2 }
{
    let (products, number, want) = *frozen;
    book.freeze(&products) == number && are_frozen(book.rows(), &want)
}

fn thaws(book: &mut Book) -> bool
    requires { book.old.products ≡ 2 }
{
    book.freeze(&[true, true]);
    book.thaw();
    are_frozen(book.rows(), &[false, false, false, false, false])
}

// Whether each freeze, one after the other, takes its trades, and a thaw frees all.
fn freezes_and_thaws(book: &mut Book, cases: &[Frozen]) -> bool
    requires { book.old.products ≡ 2 }
{
    for case in cases {
        if !freezes(book, case) {
            return false;
        }
    }
    thaws(book)
}

fn market_freezes(alloc: Global) -> Result<bool, AllocError> {
    let mut book = book_of(alloc, &MARKET)?;
    Ok(freezes_and_thaws(&mut book, &FREEZES))
}

#[test]
fn a_freeze_takes_the_live_trades_of_its_products(rt: HostRuntime) -> Result<(), Fail> {
    assert!(rt; market_freezes(rt.alloc())?);
    Ok(())
}

// A product, a kind of trades, and the rows of their network.
type Shown<'a> = (ProductNo, Which, &'a [Sold]);

const NETWORKS: [Shown; 5] = [
    (P, Which::Live, &[(0, 1, 30)]),
    (P, Which::Frozen, &[(0, 1, 30)]),
    (P, Which::FrozenHeld, &[(0, 1, 20)]),
    (Q, Which::Frozen, &[]),
    (Q, Which::FrozenHeld, &[]),
];

fn have_networks(book: &Book, cases: &[Shown]) -> Result<bool, AllocError>
    requires { FrozenCount book.now.rows }
{
    for (product, which, sold) in cases {
        if !has_network(book, *product, *which, sold)? {
            return Ok(false);
        }
    }
    Ok(true)
}

// Whether the market has these networks once its first product is frozen.
fn market_has_networks(alloc: Global, cases: &[Shown]) -> Result<bool, AllocError> {
    let mut book = book_of(alloc, &MARKET)?;
    book.freeze(&[true, false]);
    have_networks(&book, cases)
}

#[test]
fn frozen_trades_and_the_held_ones_make_networks(rt: HostRuntime) -> Result<(), Fail> {
    assert!(rt; market_has_networks(rt.alloc(), &NETWORKS)?);
    Ok(())
}

fn are_numbered(rows: &[TradeRow], numbers: &[u64]) -> bool {
    if rows.len() != numbers.len() {
        return false;
    }
    for i in 0..rows.len() {
        if rows[i].number != numbers[i] {
            return false;
        }
    }
    true
}

// A member, and the numbers of its trades.
type Own<'a> = (MemberNo, &'a [u64]);

const OWN: [Own; 3] = [(A, &[1, 2, 3, 4]), (B, &[1, 2, 3, 4, 5]), (C, &[5])];

fn members_have(book: &Book, cases: &[Own]) -> Result<bool, AllocError> {
    for (member, numbers) in cases {
        if !are_numbered(&book.rows_of(*member)?, numbers) {
            return Ok(false);
        }
    }
    Ok(true)
}

// A product, a seller and a buyer, and the numbers of their live trades.
type Between<'a> = (ProductNo, MemberNo, MemberNo, &'a [u64]);

const BETWEEN: [Between; 4] = [
    (P, A, B, &[1, 2]),
    (P, B, A, &[]),
    (Q, A, B, &[]),
    (Q, B, C, &[5]),
];

fn pairs_have(book: &Book, cases: &[Between]) -> Result<bool, AllocError> {
    for (product, seller, buyer, numbers) in cases {
        if !are_numbered(&book.pair_rows(*product, *seller, *buyer)?, numbers) {
            return Ok(false);
        }
    }
    Ok(true)
}

fn all_have(book: &Book) -> Result<bool, AllocError> {
    Ok(members_have(book, &OWN)? && pairs_have(book, &BETWEEN)?)
}

fn market_has_trades(alloc: Global) -> Result<bool, AllocError> {
    let book = book_of(alloc, &MARKET)?;
    all_have(&book)
}

#[test]
fn a_member_has_its_trades_and_a_pair_its_live_ones(rt: HostRuntime) -> Result<(), Fail> {
    assert!(rt; market_has_trades(rt.alloc())?);
    Ok(())
}
