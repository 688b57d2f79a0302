//! What is done to a book of three members and two products.

ghost use Rattle.std.specs.Prelude.{◌≡◌, IfOk};
ghost use Rattle.command_types.specs.Trades.{hold_of, trade_numbered};
ghost use Rattle.product_book.specs.Book.{may_affirm, may_end, may_free, may_hold};

use command_types::{Side, TradeRow, TradeState};
use product_book::Book;
use std::alloc::{AllocError, Global};
use units_core::{Amount, Day, MemberNo, ProductNo};

/// A trade: the places of its seller, its buyer and its product, and the amount.
pub type Owed = (u16, u16, u16, u64);

/// What is done.
#[derive(Clone, Copy)]
pub enum Deed {
    /// This side alleges the trade.
    Allege(Owed, Side),
    Affirm(u64),
    Hold(u64, Side),
    Free(u64, Side),
    End(u64, Side),
}

const MOST: u64 = 1_000_000_000_000_000_000;

fn allege(book: &mut Book, owed: Owed, side: Side) -> Result<bool, AllocError>
    requires members { book.old.members ≡ 3 }
    requires products { book.old.products ≡ 2 }
    ensures members { book.new.members ≡ 3 }
    ensures products { book.new.products ≡ 2 }
{
    let (seller, buyer, product, size) = owed;
    if seller >= 3 || buyer >= 3 || product >= 2 || seller == buyer {
        return Ok(false);
    }
    let (seller, buyer, product) = (MemberNo(seller), MemberNo(buyer), ProductNo(product));
    let amount = Amount::new(size).ok_or(AllocError)?;
    let day = Day::new(2026, 3, 2).ok_or(AllocError)?;
    if book.product_sum(product) > MOST - size {
        return Ok(false);
    }
    book.reserve(1)?;
    book.allege(seller, buyer, product, amount, day, side);
    Ok(true)
}

fn is_alleged(book: &Book, trade: u64) -> bool
    ensures { result ≡ may_affirm (trade_numbered book.now.rows trade) }
{
    match book.get(trade) {
        Some(row) => row.state == TradeState::Alleged,
        None => false,
    }
}

fn affirm(book: &mut Book, trade: u64) -> bool
    ensures members { book.new.members ≡ book.old.members }
    ensures products { book.new.products ≡ book.old.products }
{
    let may = is_alleged(book, trade);
    if may {
        book.affirm(trade);
    }
    may
}

fn is_held(row: &TradeRow, side: Side) -> bool
    ensures { result ≡ hold_of side row.now }
{
    match side {
        Side::Out => row.hold_out,
        Side::In => row.hold_in,
    }
}

fn can_hold(book: &Book, trade: u64, side: Side) -> bool
    ensures { result ≡ may_hold side (trade_numbered book.now.rows trade) }
{
    match book.get(trade) {
        Some(row) => row.state == TradeState::Live && !is_held(row, side),
        None => false,
    }
}

fn hold(book: &mut Book, trade: u64, side: Side) -> bool
    ensures members { book.new.members ≡ book.old.members }
    ensures products { book.new.products ≡ book.old.products }
{
    let may = can_hold(book, trade, side);
    if may {
        book.hold(trade, side);
    }
    may
}

fn can_free(book: &Book, trade: u64, side: Side) -> bool
    ensures { result ≡ may_free side (trade_numbered book.now.rows trade) }
{
    match book.get(trade) {
        Some(row) => row.state == TradeState::Live && is_held(row, side),
        None => false,
    }
}

fn free(book: &mut Book, trade: u64, side: Side) -> bool
    ensures members { book.new.members ≡ book.old.members }
    ensures products { book.new.products ≡ book.old.products }
{
    let may = can_free(book, trade, side);
    if may {
        book.free(trade, side);
    }
    may
}

fn can_end(book: &Book, trade: u64, side: Side) -> bool
    ensures { result ≡ may_end side (trade_numbered book.now.rows trade) }
{
    match book.get(trade) {
        Some(row) => row.state != TradeState::Ended && row.mark != Some(side),
        None => false,
    }
}

fn end(book: &mut Book, trade: u64, side: Side) -> bool
    ensures members { book.new.members ≡ book.old.members }
    ensures products { book.new.products ≡ book.old.products }
{
    let may = can_end(book, trade, side);
    if may {
        book.end_by(trade, side);
    }
    may
}

fn takes(book: &mut Book, deed: Deed) -> Result<bool, AllocError>
    requires members { book.old.members ≡ 3 }
    requires products { book.old.products ≡ 2 }
    ensures members { book.new.members ≡ 3 }
    ensures products { book.new.products ≡ 2 }
{
    match deed {
        Deed::Allege(owed, side) => allege(book, owed, side),
        Deed::Affirm(trade) => Ok(affirm(book, trade)),
        Deed::Hold(trade, side) => Ok(hold(book, trade, side)),
        Deed::Free(trade, side) => Ok(free(book, trade, side)),
        Deed::End(trade, side) => Ok(end(book, trade, side)),
    }
}

/// Does one after the other, and says whether each may be done.
pub fn takes_all(book: &mut Book, deeds: &[Deed]) -> Result<bool, AllocError>
    requires members { book.old.members ≡ 3 }
    requires products { book.old.products ≡ 2 }
    ensures members { book.new.members ≡ 3 }
    ensures products { book.new.products ≡ 2 }
{
    for deed in deeds {
        if !takes(book, *deed)? {
            return Ok(false);
        }
    }
    Ok(true)
}

/// The book of these deeds. Each of them may be done.
pub fn book_of(alloc: Global, deeds: &[Deed]) -> Result<Book, AllocError>
    ensures members { IfOk result (λ book. book.members ≡ 3) }
    ensures products { IfOk result (λ book. book.products ≡ 2) }
{
    let mut book = Book::new(alloc, 3, 2)?;
    if takes_all(&mut book, deeds)? {
        Ok(book)
    } else {
        Err(AllocError)
    }
}
