//! What a freeze of a day takes: the live trades of the products that mature after it.

ghost use Rattle.std.specs.Prelude.{◌≡◌, ◌≤◌, length, filter};
ghost use Rattle.command_types.specs.Cycles.{is_taken, frozen_rows};
ghost use Rattle.product_book.specs.Freezes.{chosen_by};
ghost use Rattle.cycle_states.specs.Machine.{IsBookOf};

use command_types::{ProductRow, Roster, TradeRow, TradeState};
use product_book::Book;
use units_core::Day;

/// The most products of a roster.
const MOST_PRODUCTS: usize = 64;

// Whether a freeze of the day takes the trade.
fn is_taken(products: &[ProductRow], day: Day, row: &TradeRow) -> bool
    ensures { result ≡ is_taken products.now day row.now }
{
    match products.get(row.product.index()) {
        None => false,
        Some(product) => row.state == TradeState::Live && day.comes_before(product.maturity),
    }
}

/// How many trades a freeze of the day takes.
pub(super) fn taken_count(products: &[ProductRow], day: Day, rows: &[TradeRow]) -> u64
    ensures { result ≡ length (filter (λ row. row.frozen) (frozen_rows products.now day rows.now)) }
{
    let mut count = 0;
    for row in rows {
        if is_taken(products, day, row) {
            count += 1;
        }
    }
    count
}

// Flags the products that mature after the day.
fn choose(products: &[ProductRow], day: Day, flags: &mut [bool])
    requires { length flags.old ≡ length products.now }
    ensures { flags.new ≡ chosen_by products.now day }
{
    for (place, product) in products.iter().enumerate() {
        flags[place] = day.comes_before(product.maturity);
    }
}

/// Freezes the trades that a freeze of the day takes, and no others. It takes no memory.
pub(super) fn freeze(roster: &Roster, book: &mut Book, day: Day)
    requires { IsBookOf roster.now book.old.members book.old.products }
    ensures { book.new ≡ record book.old { rows = frozen_rows roster.now.products day book.old.rows } }
{
    let products = roster.products();
    let mut flags = [false; MOST_PRODUCTS];
    let flags = &mut flags[..products.len()];
    choose(products, day, flags);
    book.freeze(flags);
}
