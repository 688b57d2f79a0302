//! The rows of pairs, searched from a place on that is not far before them.

ghost use Rattle.std.specs.Prelude.{◌≡◌, ◌+◌, ◌-◌, ◌≤◌, length, slice_index_or};
ghost use Rattle.network_laws.specs.Networks.{IsCursor, IsRising, place};
ghost use Rattle.network_laws.specs.Limits.{IsLimitCursor, IsRisingLimits, limit_place};
ghost use Rattle.network_laws.specs.declared.rows.LimitRow.{LimitRow};
ghost use Rattle.cycle_states.specs.PairPlaces.{IsPastLimits, IsPastRows};

use network_laws::{LimitRow, Row};

fn place_of(row: Row) -> u32
    ensures { result ≡ place row }
{
    row.seller as u32 * 65536 + row.buyer as u32
}

fn limit_place_of(row: LimitRow) -> u32
    ensures { result ≡ limit_place row }
{
    row.seller as u32 * 65536 + row.buyer as u32
}

/// The first row from one on that is not before a place.
pub(super) fn row_from(rows: &[Row], from: usize, wanted: u32) -> usize
    requires rising { IsRising rows.now }
    requires past { IsPastRows rows.now from wanted }
    ensures end { result ≤ length rows.now }
    ensures cursor { IsCursor rows.now result wanted }
{
    let mut at = from;
    while at < rows.len() {
        if place_of(rows[at]) >= wanted {
            break;
        }
        at += 1;
    }
    at
}

// From one row on so many rows at once, while all of them are before a place.
fn limits_passed(rows: &[LimitRow], from: usize, step: usize, wanted: u32) -> usize
    requires rising { IsRisingLimits rows.now }
    requires step { 1 ≤ step }
    requires past { IsPastLimits rows.now from wanted }
    ensures past { IsPastLimits rows.now result wanted }
    ensures stops { result + step ≤ length rows.now → (d : LimitRow) → wanted ≤ limit_place (slice_index_or rows.now (result + step - 1) d) }
{
    let mut at = from;
    while step <= rows.len() - at {
        if limit_place_of(rows[at + step - 1]) >= wanted {
            break;
        }
        at += step;
    }
    at
}

/// The first row of limits from one on that is not before a place. Where all pairs of so many members have limits, the next seller's
/// row stands one less than so many rows further on.
pub(super) fn limit_from(rows: &[LimitRow], from: usize, members: u16, wanted: u32) -> usize
    requires rising { IsRisingLimits rows.now }
    requires past { IsPastLimits rows.now from wanted }
    ensures end { result ≤ length rows.now }
    ensures cursor { IsLimitCursor rows.now result wanted }
{
    let others = usize::from(members).max(2) - 1;
    let far = limits_passed(rows, from, others, wanted);
    let near = limits_passed(rows, far, 8, wanted);
    limits_passed(rows, near, 1, wanted)
}
