//! The problem of a part, in its own numbers.
//!
//! Rows stand in the order of their sellers, so the rows of a part are found by its members: from the rows of one member the
//! reading goes on to those of the next, and rows between them are passed over.

ghost use Rattle.std.specs.Prelude.{◌≡◌, ◌<◌, ◌≤◌, ◌*◌, ℕ, length, filter_map, slice_index_or, Some, All, IfOk};
ghost use Rattle.network_laws.specs.Networks.{IsCursor, IsRising, place};
ghost use Rattle.network_laws.specs.Limits.{IsLimitCursor, IsRisingLimits, IsWithinLimits, limit_place};
ghost use Rattle.network_laws.specs.declared.rows.LimitRow.{LimitRow};
ghost use Rattle.network_laws.specs.declared.rows.Row.{Row};
ghost use Rattle.split_parts.specs.Own.{number_in, own_bounds, own_row, own_limit_rows, own_rows, own_limits, own_network, own_problem};
ghost use Rattle.split_parts.specs.Parts.{IsRisingPart};
ghost use Rattle.split_parts.specs.Places.{IsNumbering};
ghost use Rattle.units_core.specs.declared.limits.TheConstants.{MOST_MEMBERS};

use crate::places::Place;
use network_laws::{LimitRow, Limits, Network, Problem, Row, first_limit, first_row};
use std::alloc::{AllocError, Global};

/// A part, and where all members stand, of whom its own have this part.
#[derive(Clone, Copy)]
pub struct PartAt<'a> {
    pub members: &'a [u16],
    pub places: &'a [Place],
    pub part: usize,
}

// A row in own numbers, of the member with this number, if the buyer is in the part too.
fn row_in(part: PartAt<'_>, seller: u16, row: Row) -> Option<Row>
    requires seller { number_in part.members.now row.seller ≡ Some seller }
    requires buyer { row.buyer < length part.places.now }
    requires numbers { IsNumbering part.members.now part.places.now part.part }
    ensures { result ≡ own_row part.entry.members.now row }
{
    let buyer = part.places[row.buyer as usize];
    if buyer.part != part.part {
        return None;
    }
    Some(Row {
        seller,
        buyer: buyer.number,
        amount: row.amount,
    })
}

// The same of limits.
fn limit_in(part: PartAt<'_>, seller: u16, row: LimitRow) -> Option<LimitRow>
    requires seller { number_in part.members.now row.seller ≡ Some seller }
    requires buyer { row.buyer < length part.places.now }
    requires numbers { IsNumbering part.members.now part.places.now part.part }
    ensures { result ≡ own_bounds part.entry.members.now row }
{
    let buyer = part.places[row.buyer as usize];
    if buyer.part != part.part {
        return None;
    }
    Some(LimitRow {
        seller,
        buyer: buyer.number,
        lower: row.lower,
        upper: row.upper,
    })
}

// The first row from a place on that is the seller's or a later one's, where no row before that place is.
fn rows_from(rows: &[Row], from: usize, seller: u16) -> usize
    requires rising { IsRising rows.now }
    requires end { from ≤ length rows.now }
    requires before { (k : ℕ) (d : Row) → k < from → place (slice_index_or rows.now k d) < seller * 65536 }
    ensures end { result ≤ length rows.now }
    ensures cursor { IsCursor rows.now result (seller * 65536) }
{
    if from < rows.len() && rows[from].seller >= seller {
        return from;
    }
    first_row(rows, seller, 0)
}

// The same of limits.
fn limits_from(rows: &[LimitRow], from: usize, seller: u16) -> usize
    requires rising { IsRisingLimits rows.now }
    requires end { from ≤ length rows.now }
    requires before { (k : ℕ) (d : LimitRow) → k < from → limit_place (slice_index_or rows.now k d) < seller * 65536 }
    ensures end { result ≤ length rows.now }
    ensures cursor { IsLimitCursor rows.now result (seller * 65536) }
{
    if from < rows.len() && rows[from].seller >= seller {
        return from;
    }
    first_limit(rows, seller, 0)
}

// How many rows to make room for at first: one for each pair of the part, but no more than there are.
fn room_for(members: usize, rows: usize) -> usize {
    let pairs = members.saturating_mul(members.saturating_sub(1));
    pairs.min(rows)
}

// The rows of the part's network.
fn part_rows(alloc: Global, part: PartAt<'_>, rows: &[Row]) -> Result<Vec<Row>, AllocError>
    requires few { length part.places.now ≤ MOST_MEMBERS }
    requires short { length part.members.now ≤ MOST_MEMBERS }
    requires members { IsRisingPart part.members.now }
    requires rising { IsRising rows.now }
    requires within { All (λ row. (row.seller < length part.places.now) × (row.buyer < length part.places.now)) rows.now }
    requires numbers { IsNumbering part.members.now part.places.now part.part }
    ensures { IfOk result (λ own. own.items ≡ filter_map (own_row part.entry.members.now) rows.now) }
{
    let mut own = Vec::with_capacity(alloc, room_for(part.members.len(), rows.len()))?;
    let mut at = 0;
    for number in 0..part.members.len() {
        let seller = part.members[number];
        at = rows_from(rows, at, seller);
        while at < rows.len() && rows[at].seller == seller {
            if let Some(row) = row_in(part, number as u16, rows[at]) {
                own.push(row)?;
            }
            at += 1;
        }
    }
    Ok(own)
}

// The rows of the part's limits.
fn part_limits(
    alloc: Global,
    part: PartAt<'_>,
    rows: &[LimitRow],
) -> Result<Vec<LimitRow>, AllocError>
    requires few { length part.places.now ≤ MOST_MEMBERS }
    requires short { length part.members.now ≤ MOST_MEMBERS }
    requires members { IsRisingPart part.members.now }
    requires rising { IsRisingLimits rows.now }
    requires within { All (λ row. (row.seller < length part.places.now) × (row.buyer < length part.places.now)) rows.now }
    requires numbers { IsNumbering part.members.now part.places.now part.part }
    ensures { IfOk result (λ own. own.items ≡ filter_map (own_bounds part.entry.members.now) rows.now) }
{
    let mut own = Vec::with_capacity(alloc, room_for(part.members.len(), rows.len()))?;
    let mut at = 0;
    for number in 0..part.members.len() {
        let seller = part.members[number];
        at = limits_from(rows, at, seller);
        while at < rows.len() && rows[at].seller == seller {
            if let Some(row) = limit_in(part, number as u16, rows[at]) {
                own.push(row)?;
            }
            at += 1;
        }
    }
    Ok(own)
}

// The limits of a part, of these rows.
fn limits_of(limits: &Limits, part: &[u16], rows: Vec<LimitRow>) -> Limits
    requires rising { IsRisingPart part.now }
    requires within { All (λ m. m < limits.now.members) part.now }
    requires rows { rows.items ≡ own_limit_rows limits.now part.now }
    ensures { result ≡ own_limits limits.now part.now }
{
    let _members = limits.members();
    match Limits::from_rows(part.len() as u16, rows) {
        Ok(own) => own,
        Err(_) => unreachable!(),
    }
}

// The network of a part, of these rows.
fn network_of(network: &Network, part: &[u16], rows: Vec<Row>) -> Network
    requires rising { IsRisingPart part.now }
    requires within { All (λ m. m < network.now.members) part.now }
    requires rows { rows.items ≡ own_rows network.now part.now }
    ensures { result ≡ own_network network.now part.now }
{
    let _members = network.members();
    match Network::from_rows(part.len() as u16, rows) {
        Ok(network) => network,
        Err(_) => unreachable!(),
    }
}

/// The problem of a part: its limits and its network, in its own numbers.
pub fn problem_of(
    alloc: Global,
    limits: &Limits,
    network: &Network,
    part: PartAt<'_>,
) -> Result<Problem, AllocError>
    requires same_members { limits.now.members ≡ network.now.members }
    requires within { IsWithinLimits limits.now network.now }
    requires places { length part.places.now ≡ limits.now.members }
    requires rising { IsRisingPart part.members.now }
    requires inside { All (λ m. m < limits.now.members) part.members.now }
    requires numbers { IsNumbering part.members.now part.places.now part.part }
    ensures { IfOk result (λ own. own ≡ own_problem limits.now network.now part.entry.members.now) }
{
    let bounds = part_limits(alloc, part, limits.rows())?;
    let rows = part_rows(alloc, part, network.rows())?;
    Ok(Problem::new(
        limits_of(limits, part.members, bounds),
        network_of(network, part.members, rows),
    ))
}
