//! The pairs that have a row in the limits or in the network, one after another: two cursors walk both lists in step.
//! A pair without a row has the amount 0 and may come to nothing else, so nothing can be wrong with it.

ghost use Rattle.std.specs.Prelude.{◌≡◌, ◌↔◌, ◌+◌, ◌*◌, ◌/◌, ◌%◌, ◌<◌, ◌≤◌, slice_get, IsTrue};
ghost use Rattle.network_laws.specs.Networks.{amount_in, place, IsRising};
ghost use Rattle.network_laws.specs.Limits.{lower_in, upper_in, limit_place, IsRisingLimits};
ghost use Rattle.dual_certificate.specs.Walks.{ArePairs, AreAtPlace, IsAtPair, IsAtLimit, IsAtRow, HaveNoRow, no_pair, limit_or_end, row_or_end};

use network_laws::{Bounds, LimitRow, Row};

/// Behind all pairs.
const NO_PAIR: u32 = u32::MAX;

/// The rows of limits and of a network over the same members.
#[derive(Clone, Copy)]
pub(super) struct Pairs<'a> {
    pub members: u16,
    pub limits: &'a [LimitRow],
    pub rows: &'a [Row],
}

/// The number of a row, and its place in the order by seller and buyer; at the rows' end that behind all pairs.
#[derive(Clone, Copy)]
pub(super) struct RowCursor {
    pub at: usize,
    pub place: u32,
}

/// A pair with the cursors of its rows.
#[derive(Clone, Copy)]
pub(super) struct PairCursor {
    pub limit: RowCursor,
    pub row: RowCursor,
    /// The pair's place in the order by seller and buyer, or that behind all pairs.
    pub place: u32,
}

impl PairCursor {
    /// At the first pair with a row.
    pub(super) fn first(pairs: &Pairs) -> PairCursor
        requires pairs { ArePairs pairs.now }
        ensures pair { IsAtPair pairs.now result }
        ensures passed { HaveNoRow pairs.now 0 result.place }
    {
        let start = PairCursor {
            limit: RowCursor {
                at: 0,
                place: limit_from(pairs.limits, 0),
            },
            row: RowCursor {
                at: 0,
                place: row_from(pairs.rows, 0),
            },
            place: 0,
        };
        start.found(pairs)
    }

    /// At the next pair with a row.
    #[inline(always)]
    pub(super) fn next(self, pairs: &Pairs) -> PairCursor
        requires pairs { ArePairs pairs.now }
        requires pair { IsAtPair pairs.now self }
        requires within { self.place < no_pair }
        ensures pair { IsAtPair pairs.now result }
        ensures behind { self.place < result.place }
        ensures passed { HaveNoRow pairs.now (self.place + 1) result.place }
    {
        let after = PairCursor {
            limit: limit_behind(pairs.limits, self.limit, self.place),
            row: row_behind(pairs.rows, self.row, self.place),
            place: self.place + 1,
        };
        after.found(pairs)
    }

    // At the first pair with a row from this place on.
    #[inline(always)]
    fn found(self, pairs: &Pairs) -> PairCursor
        requires pairs { ArePairs pairs.now }
        requires at { AreAtPlace pairs.now self }
        requires within { self.place ≤ no_pair }
        ensures pair { IsAtPair pairs.now result }
        ensures behind { self.place ≤ result.place }
        ensures passed { HaveNoRow pairs.now self.place result.place }
    {
        PairCursor {
            place: self.limit.place.min(self.row.place),
            ..self
        }
    }

    /// Whether a pair is left.
    pub(super) fn is_pair(self) -> bool
        ensures { IsTrue result ↔ (self.place < no_pair) }
    {
        self.place < NO_PAIR
    }

    /// The pair's seller.
    pub(super) fn seller(self) -> u16
        ensures { result ≡ self.place / 65536 }
    {
        (self.place / 65536) as u16
    }

    /// The pair's buyer.
    pub(super) fn buyer(self) -> u16
        ensures { result ≡ self.place % 65536 }
    {
        (self.place % 65536) as u16
    }

    /// The pair's amount in the network.
    #[inline(always)]
    pub(super) fn amount(self, pairs: &Pairs) -> u64
        requires pairs { ArePairs pairs.now }
        requires pair { IsAtPair pairs.now self }
        requires within { self.place < no_pair }
        ensures { result ≡ amount_in pairs.now.rows.now (self.place / 65536) (self.place % 65536) }
    {
        if self.row.place == self.place {
            pairs.rows[self.row.at].amount
        } else {
            0
        }
    }

    /// The pair's bounds.
    #[inline(always)]
    pub(super) fn bounds(self, pairs: &Pairs) -> Bounds
        requires pairs { ArePairs pairs.now }
        requires pair { IsAtPair pairs.now self }
        requires within { self.place < no_pair }
        ensures lower { result.lower ≡ lower_in pairs.now.limits.now (self.place / 65536) (self.place % 65536) }
        ensures upper { result.upper ≡ upper_in pairs.now.limits.now (self.place / 65536) (self.place % 65536) }
    {
        if self.limit.place == self.place {
            let row = &pairs.limits[self.limit.at];
            Bounds {
                lower: row.lower,
                upper: row.upper,
            }
        } else {
            Bounds {
                lower: 0,
                upper: Some(0),
            }
        }
    }
}

// The place of a row of limits, or that behind all pairs.
#[inline(always)]
fn limit_from(limits: &[LimitRow], at: usize) -> u32
    ensures { result ≡ limit_or_end (slice_get limits.now at) }
{
    match limits.get(at) {
        Some(row) => row.seller as u32 * 65536 + row.buyer as u32,
        None => NO_PAIR,
    }
}

// The place of a row of a network, or that behind all pairs.
#[inline(always)]
fn row_from(rows: &[Row], at: usize) -> u32
    ensures { result ≡ row_or_end (slice_get rows.now at) }
{
    match rows.get(at) {
        Some(row) => row.seller as u32 * 65536 + row.buyer as u32,
        None => NO_PAIR,
    }
}

// The cursor of the place behind one, in limits.
#[inline(always)]
fn limit_behind(limits: &[LimitRow], cursor: RowCursor, place: u32) -> RowCursor
    requires rising { IsRisingLimits limits.now }
    requires within { place < no_pair }
    requires cursor { IsAtLimit limits.now cursor place }
    ensures { IsAtLimit limits.now result (place + 1) }
{
    if cursor.place == place {
        RowCursor {
            at: cursor.at + 1,
            place: limit_from(limits, cursor.at + 1),
        }
    } else {
        cursor
    }
}

// The cursor of the place behind one, in a network.
#[inline(always)]
fn row_behind(rows: &[Row], cursor: RowCursor, place: u32) -> RowCursor
    requires rising { IsRising rows.now }
    requires within { place < no_pair }
    requires cursor { IsAtRow rows.now cursor place }
    ensures { IsAtRow rows.now result (place + 1) }
{
    if cursor.place == place {
        RowCursor {
            at: cursor.at + 1,
            place: row_from(rows, cursor.at + 1),
        }
    } else {
        cursor
    }
}
