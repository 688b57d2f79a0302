//! How the sums and the lists of a book without trades take trades, one after another and each as it stands, in the room that
//! there is. One that has ended enters its lists and leaves them at once, so that its place there stays its number.

ghost use Rattle.std.specs.Prelude.{ℕ, ◌≡◌, ◌+◌, ◌≤◌, [], length};
ghost use Rattle.command_types.specs.Trades.{gross_of, submitted_count};
ghost use Rattle.product_book.specs.Book.{gross_limit, AreTrades};
ghost use Rattle.product_book.specs.Execution.{IsRunning};

use crate::kept::KeptSums;
use crate::links::Links;
use crate::row::has_ended;
use command_types::TradeRow;

/// Puts trades into the sums and the lists of a book without any.
pub(super) fn load(sums: &mut KeptSums, links: &mut Links, rows: &[TradeRow])
    requires none { IsRunning sums.old.members (length links.old.by_product.lists) sums.old links.old.by_product links.old.by_pair links.old.spare [] }
    requires spare { length rows.now ≤ links.old.spare }
    requires trades { AreTrades sums.old.members (length links.old.by_product.lists) 1 rows.now }
    requires bounded { (product : ℕ) → gross_of product rows.now ≤ gross_limit }
    ensures members { sums.new.members ≡ sums.old.members }
    ensures spare { links.new.spare + length rows.now ≡ links.old.spare }
    ensures running { IsRunning sums.old.members (length links.old.by_product.lists) sums.new links.new.by_product links.new.by_pair links.new.spare rows.now }
{
    for row in rows {
        sums.enter(row);
        links.enter(sums.members, row);
        if has_ended(row) {
            links.leave(row.number);
        }
    }
}

/// How many of the trades a party submitted.
pub(super) fn submitted_among(rows: &[TradeRow]) -> u64
    ensures { result ≡ submitted_count rows.now }
{
    let mut count = 0u64;
    for row in rows {
        if row.submitter.is_some() {
            count += 1;
        }
    }
    count
}
