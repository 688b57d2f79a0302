//! What trades come to: from a submission to its end, in pairs, and in a book that takes its trades as they stand.

ghost use Rattle.std.specs.Prelude.{◌≡◌, IfOk};

use super::P;
use super::deeds::Deed::{Affirm, Allege, End, Free, Hold};
use super::deeds::{Deed, book_of, takes_all};
use super::networks::{Sold, has_network};
use crate::market::{A, B, C};
use command_types::TradeState::{Alleged, Ended, Live};
use command_types::{Side, TradeRow, TradeState};
use product_book::{Book, Which};
use std::alloc::{AllocError, Global};
use std::test::Fail;

// What the product P comes to, what A owes B, B owes A, B owes C and C owes A in it, what A owes and is owed, what B owes and
// is owed, and how many trades there are and were submitted.
type Sums = [u64; 11];

// What is done, and then the states of the trades, the sums and the network of P.
#[derive(Clone, Copy)]
struct Moment<'a> {
    deeds: &'a [Deed],
    states: &'a [TradeState],
    sums: Sums,
    network: &'a [Sold],
}

fn sums(book: &Book) -> Sums {
    let (a, b) = (book.position(P, A), book.position(P, B));
    [
        book.product_sum(P),
        book.pair_sum(P, A, B),
        book.pair_sum(P, B, A),
        book.pair_sum(P, B, C),
        book.pair_sum(P, C, A),
        a.sold,
        a.bought,
        b.sold,
        b.bought,
        book.count(),
        book.submitted_count(),
    ]
}

fn are_states(rows: &[TradeRow], states: &[TradeState]) -> bool {
    if rows.len() != states.len() {
        return false;
    }
    for i in 0..rows.len() {
        if rows[i].state != states[i] {
            return false;
        }
    }
    true
}

fn tells(book: &Book, moment: &Moment) -> Result<bool, AllocError> {
    let is_told = are_states(book.rows(), moment.states) && sums(book) == moment.sums;
    Ok(is_told && has_network(book, P, Which::Live, moment.network)?)
}

fn goes(book: &mut Book, moments: &[Moment]) -> Result<bool, AllocError>
    requires members { book.old.members ≡ 3 }
    requires products { book.old.products ≡ 2 }
{
    for moment in moments {
        if !takes_all(book, moment.deeds)? || !tells(book, moment)? {
            return Ok(false);
        }
    }
    Ok(true)
}

// Whether a new book goes through these moments.
fn plays(alloc: Global, moments: &[Moment]) -> Result<bool, AllocError> {
    let mut book = book_of(alloc, &[])?;
    goes(&mut book, moments)
}

// The same trades in a book that has come by none of their commands.
fn loaded(alloc: Global, book: &Book) -> Result<Book, AllocError>
    requires members { book.now.members ≡ 3 }
    requires products { book.now.products ≡ 2 }
    ensures members { IfOk result (λ book. book.members ≡ 3) }
    ensures products { IfOk result (λ book. book.products ≡ 2) }
{
    if book.count() > 100 {
        return Err(AllocError);
    }
    Book::of_rows(alloc, 3, 2, book.rows())
}

fn goes_on(alloc: Global, book: &Book, moments: &[Moment]) -> Result<bool, AllocError>
    requires members { book.now.members ≡ 3 }
    requires products { book.now.products ≡ 2 }
{
    let mut book = loaded(alloc, book)?;
    goes(&mut book, moments)
}

// Whether a book that takes the trades of these deeds as they stand goes through these moments.
fn plays_on(alloc: Global, deeds: &[Deed], moments: &[Moment]) -> Result<bool, AllocError> {
    let book = book_of(alloc, deeds)?;
    goes_on(alloc, &book, moments)
}

// A trade of 10 is alleged, affirmed, held, freed and marked, and ended.
const LIFE: [Moment; 5] = [
    Moment {
        deeds: &[],
        states: &[],
        sums: [0, 0, 0, 0, 0, 0, 0, 0, 0, 0, 0],
        network: &[],
    },
    Moment {
        deeds: &[Allege((0, 1, 0, 10), Side::Out)],
        states: &[Alleged],
        sums: [10, 0, 0, 0, 0, 0, 0, 0, 0, 1, 1],
        network: &[],
    },
    Moment {
        deeds: &[Affirm(1)],
        states: &[Live],
        sums: [10, 10, 0, 0, 0, 10, 0, 0, 10, 1, 1],
        network: &[(0, 1, 10)],
    },
    Moment {
        deeds: &[Hold(1, Side::In), Free(1, Side::In), End(1, Side::In)],
        states: &[Live],
        sums: [10, 10, 0, 0, 0, 10, 0, 0, 10, 1, 1],
        network: &[(0, 1, 10)],
    },
    Moment {
        deeds: &[End(1, Side::Out)],
        states: &[Ended],
        sums: [0, 0, 0, 0, 0, 0, 0, 0, 0, 1, 1],
        network: &[],
    },
];

#[test]
fn a_trade_counts_from_its_affirmation_to_its_end(rt: HostRuntime) -> Result<(), Fail> {
    assert!(rt; plays(rt.alloc(), &LIFE)?);
    Ok(())
}

// Two trades of 10 from B to A, an alleged one, and one in the other product.
const PAIR: [Moment; 1] = [Moment {
    deeds: &[
        Allege((1, 0, 0, 10), Side::Out),
        Allege((1, 0, 0, 10), Side::Out),
        Allege((1, 0, 0, 10), Side::Out),
        Allege((1, 0, 1, 10), Side::Out),
        Affirm(1),
        Affirm(2),
        Affirm(4),
    ],
    states: &[Live, Live, Alleged, Live],
    sums: [30, 0, 20, 0, 0, 0, 20, 20, 0, 4, 4],
    network: &[(1, 0, 20)],
}];

#[test]
fn live_trades_of_a_pair_add_up(rt: HostRuntime) -> Result<(), Fail> {
    assert!(rt; plays(rt.alloc(), &PAIR)?);
    Ok(())
}

// Trade 1 of 10 from A to B is live and marked by A; trade 2 of 7 from B to C has ended; trade 3 of 5 from C to A is alleged.
const STANDING: [Deed; 6] = [
    Allege((0, 1, 0, 10), Side::Out),
    Affirm(1),
    End(1, Side::Out),
    Allege((1, 2, 0, 7), Side::In),
    End(2, Side::In),
    Allege((2, 0, 0, 5), Side::Out),
];

// Then trade 3 is affirmed, trade 1 ends, and one more of 2 from A to B is alleged.
const ON: [Moment; 4] = [
    Moment {
        deeds: &[],
        states: &[Live, Ended, Alleged],
        sums: [15, 10, 0, 0, 0, 10, 0, 0, 10, 3, 3],
        network: &[(0, 1, 10)],
    },
    Moment {
        deeds: &[Affirm(3)],
        states: &[Live, Ended, Live],
        sums: [15, 10, 0, 0, 5, 10, 5, 0, 10, 3, 3],
        network: &[(0, 1, 10), (2, 0, 5)],
    },
    Moment {
        deeds: &[End(1, Side::In)],
        states: &[Ended, Ended, Live],
        sums: [5, 0, 0, 0, 5, 0, 5, 0, 0, 3, 3],
        network: &[(2, 0, 5)],
    },
    Moment {
        deeds: &[Allege((0, 1, 0, 2), Side::Out)],
        states: &[Ended, Ended, Live, Alleged],
        sums: [7, 0, 0, 0, 5, 0, 5, 0, 0, 4, 4],
        network: &[(2, 0, 5)],
    },
];

#[test]
fn trades_are_taken_as_they_stand(rt: HostRuntime) -> Result<(), Fail> {
    assert!(rt; plays_on(rt.alloc(), &STANDING, &ON)?);
    Ok(())
}
