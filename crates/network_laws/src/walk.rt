//! Walking rows in the order of pairs: a cursor is the place of the first row that is not before a pair.
//! Two lists that are walked in step cost one pass, where a search for each pair costs a logarithm more.

ghost use Rattle.std.specs.Prelude.{◌≡◌, ◌≢◌, ℕ, ◌+◌, ◌*◌, ◌<◌, ◌≤◌, length};
ghost use Rattle.network_laws.specs.Networks.{IsRising, IsCursor, amount_in, place};
ghost use Rattle.network_laws.specs.Limits.{IsRisingLimits, IsLimitCursor, limit_place, lower_in, upper_in};

use crate::limits::Bounds;
use crate::rows::{LimitRow, Row};

/// Where a row stands in the order by seller and buyer.
pub fn place_of(row: Row) -> u32
    ensures { result ≡ place row }
{
    row.seller as u32 * 65536 + row.buyer as u32
}

/// Where a row stands in the order by seller and buyer.
pub fn limit_place_of(row: LimitRow) -> u32
    ensures { result ≡ limit_place row }
{
    row.seller as u32 * 65536 + row.buyer as u32
}

/// The cursor of a pair, by binary search.
pub fn first_row(rows: &[Row], seller: u16, buyer: u16) -> usize
    requires rising { IsRising rows.now }
    ensures end { result ≤ length rows.now }
    ensures cursor { IsCursor rows.now result (seller * 65536 + buyer) }
{
    let wanted = seller as u32 * 65536 + buyer as u32;
    rows.partition_point(|row| place_of(*row) < wanted)
}

/// The cursor of a pair, by binary search.
pub fn first_limit(rows: &[LimitRow], seller: u16, buyer: u16) -> usize
    requires rising { IsRisingLimits rows.now }
    ensures end { result ≤ length rows.now }
    ensures cursor { IsLimitCursor rows.now result (seller * 65536 + buyer) }
{
    let wanted = seller as u32 * 65536 + buyer as u32;
    rows.partition_point(|row| limit_place_of(*row) < wanted)
}

/// The amount of the pair whose cursor is `at`.
pub fn amount_at(rows: &[Row], at: usize, seller: u16, buyer: u16) -> u64
    requires rising { IsRising rows.now }
    requires cursor { IsCursor rows.now at (seller * 65536 + buyer) }
    ensures { result ≡ amount_in rows.now seller buyer }
{
    if at < rows.len() && rows[at].seller == seller && rows[at].buyer == buyer {
        rows[at].amount
    } else {
        0
    }
}

/// The bounds of the pair whose cursor is `at`.
pub fn bounds_at(rows: &[LimitRow], at: usize, seller: u16, buyer: u16) -> Bounds
    requires rising { IsRisingLimits rows.now }
    requires cursor { IsLimitCursor rows.now at (seller * 65536 + buyer) }
    ensures lower { result.lower ≡ lower_in rows.now seller buyer }
    ensures upper { result.upper ≡ upper_in rows.now seller buyer }
{
    if at < rows.len() && rows[at].seller == seller && rows[at].buyer == buyer {
        Bounds {
            lower: rows[at].lower,
            upper: rows[at].upper,
        }
    } else {
        Bounds {
            lower: 0,
            upper: Some(0),
        }
    }
}

/// The cursor of the pair with the next buyer, from that of this pair.
pub fn next_row(rows: &[Row], at: usize, seller: u16, buyer: u16) -> usize
    requires rising { IsRising rows.now }
    requires end { at ≤ length rows.now }
    requires cursor { IsCursor rows.now at (seller * 65536 + buyer) }
    ensures end { result ≤ length rows.now }
    ensures cursor { IsCursor rows.now result (seller * 65536 + (buyer + 1)) }
{
    let wanted = seller as u32 * 65536 + buyer as u32;
    if at < rows.len() && place_of(rows[at]) == wanted {
        at + 1
    } else {
        at
    }
}

/// The cursor of the pair with the next buyer, from that of this pair.
pub fn next_limit(rows: &[LimitRow], at: usize, seller: u16, buyer: u16) -> usize
    requires rising { IsRisingLimits rows.now }
    requires end { at ≤ length rows.now }
    requires cursor { IsLimitCursor rows.now at (seller * 65536 + buyer) }
    ensures end { result ≤ length rows.now }
    ensures cursor { IsLimitCursor rows.now result (seller * 65536 + (buyer + 1)) }
{
    let wanted = seller as u32 * 65536 + buyer as u32;
    if at < rows.len() && limit_place_of(rows[at]) == wanted {
        at + 1
    } else {
        at
    }
}
