//! Cursors over the rows of a network, from seller to seller and from buyer to buyer: rows are gone past one by one.

ghost use Rattle.std.specs.Prelude.{◌≡◌, ℕ, ◌+◌, ◌*◌, ◌≤◌, length};
ghost use Rattle.network_laws.specs.Networks.{place, IsCursor, IsRising};
ghost use Rattle.acceptance.specs.Planning.{AreBefore};

use network_laws::Row;

/// How many rows of the old network and of the new one a walk has gone past.
#[derive(Clone, Copy)]
pub(super) struct Cursors {
    pub old: usize,
    pub new: usize,
}

// Where a row stands in the order by seller and buyer.
fn place_of(row: Row) -> u32
    ensures { result ≡ place row }
{
    row.seller as u32 * 65536 + row.buyer as u32
}

/// The cursor of a seller's first pair, from one in front of which rows of earlier sellers alone stand.
pub(super) fn seller_row(rows: &[Row], passed: usize, seller: u16) -> usize
    requires rising { IsRising rows.now }
    requires before { AreBefore rows.now passed (seller * 65536) }
    ensures end { result ≤ length rows.now }
    ensures cursor { IsCursor rows.now result (seller * 65536) }
{
    let wanted = seller as u32 * 65536;
    let mut at = passed;
    while at < rows.len() && place_of(rows[at]) < wanted {
        at += 1;
    }
    at
}

/// The buyer of a seller's row at a cursor, or the number of members where the cursor is past the seller's rows.
pub(super) fn buyer_at(rows: &[Row], at: usize, seller: u16, members: u16) -> u16
    requires rising { IsRising rows.now }
    ensures end { result ≤ members }
    ensures from { (buyer : ℕ) → buyer ≤ members → IsCursor rows.now at (seller * 65536 + buyer) → buyer ≤ result }
    ensures cursor { (buyer : ℕ) → buyer ≤ result → IsCursor rows.now at (seller * 65536 + buyer) → (to : ℕ) → buyer ≤ to → to ≤ result → IsCursor rows.now at (seller * 65536 + to) }
{
    if at >= rows.len() {
        return members;
    }
    let ahead = place_of(rows[at]).saturating_sub(seller as u32 * 65536);
    ahead.min(members as u32) as u16
}
