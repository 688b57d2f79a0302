//! Posted solutions, read with their rules: rows in rising order between different members, amounts within the most
//! gross, potentials within their range.
ghost use Rattle.std.specs.Prelude.{◌≡◌, ◌≤◌, ◌<◌, length, All, IfOk};
ghost use Rattle.network_laws.specs.Networks.{AreRows, place};
ghost use Rattle.network_laws.specs.Solutions.{IsPotential};
ghost use Rattle.record_codec.specs.Laws.{Gives, Reads};
ghost use Rattle.record_codec.specs.Reading.{row_of, is_row, row_at, rows_at, is_potential, potential_at, potentials_at, solution_at, solutions_at};
ghost use Rattle.units_core.specs.declared.limits.TheConstants.{MOST_GROSS, MOST_MEMBERS};

use crate::fault::ReadFault;
use crate::fields::Unread;
use network_laws::{Network, Row, Solution};
use std::alloc::Global;
use units_core::{MOST_GROSS, MOST_MEMBERS, MOST_POTENTIAL};

// The row that twelve bytes write.
fn row_in(text: &[u8; 12]) -> Row
    ensures { result ≡ row_of text.now }
{
    Row {
        seller: u16::from_le_bytes([text[0], text[1]]),
        buyer: u16::from_le_bytes([text[2], text[3]]),
        amount: u64::from_le_bytes([
            text[4], text[5], text[6], text[7], text[8], text[9], text[10], text[11],
        ]),
    }
}

// The solution of rows and potentials that were read.
fn solution_of(members: u16, rows: Vec<Row>, potentials: Vec<i32>) -> Solution
    requires few { members ≤ MOST_MEMBERS }
    requires rows { AreRows members rows.items }
    requires one_each { length potentials.items ≡ members }
    requires in_range { All IsPotential potentials.items }
    ensures { result ≡ record { network = record { members = members; rows = rows.items }; potentials = potentials.items } }
{
    let network = Network::from_rows(members, rows).unwrap();
    Solution::new(network, potentials)
}

// A row's place in the order by seller and buyer.
fn place_of(row: Row) -> u64
    ensures place { result ≡ place row }
    ensures small { result < 4294967296 }
{
    u64::from(row.seller) * 65536 + u64::from(row.buyer)
}

fn is_row(members: u16, next: u64, room: u64, row: Row) -> bool
    ensures { result ≡ is_row members next room row }
{
    row.seller < members
        && row.buyer < members
        && row.seller != row.buyer
        && row.amount >= 1
        && place_of(row) >= next
        && row.amount <= room
}

#[tactic(auto, unfolding(crate::specs::Reading::field))]
fn read_row(members: u16, next: u64, room: u64, unread: &mut Unread) -> Result<Row, ReadFault>
    ensures reads { Reads (λ row. (row, unread.new.rest.now)) result (row_at members next room unread.old.rest.now) }
    ensures within { IfOk result (λ row. row.amount ≤ room) }
{
    let Some((text, rest)) = unread.rest.split_first_chunk() else {
        return Err(unread.bad());
    };
    let row = row_in(text);
    let allowed = is_row(members, next, room, row);
    if !allowed {
        return Err(unread.bad());
    }
    unread.rest = rest;
    Ok(row)
}

fn read_rows(
    alloc: Global,
    count: u32,
    members: u16,
    unread: &mut Unread,
) -> Result<Vec<Row>, ReadFault>
    requires { members ≤ MOST_MEMBERS }
    ensures { Gives (λ rows. (rows.items, unread.new.rest.now)) result (rows_at count members 0 MOST_GROSS unread.old.rest.now) }
{
    let mut rows = Vec::new(alloc);
    let mut next = 0;
    let mut room = MOST_GROSS;
    for _ in 0..count {
        let row = read_row(members, next, room, unread)?;
        rows.push(row)?;
        next = place_of(row) + 1;
        room -= row.amount;
    }
    Ok(rows)
}

fn is_potential(p: i32) -> bool
    ensures { result ≡ is_potential p }
{
    -(MOST_POTENTIAL as i32) <= p && p <= MOST_POTENTIAL as i32
}

#[tactic(auto, unfolding(crate::specs::Reading::field))]
fn read_potential(unread: &mut Unread) -> Result<i32, ReadFault>
    ensures { Reads (λ p. (p, unread.new.rest.now)) result (potential_at unread.old.rest.now) }
{
    let Some((text, rest)) = unread.rest.split_first_chunk() else {
        return Err(unread.bad());
    };
    let potential = i32::from_le_bytes(*text);
    let allowed = is_potential(potential);
    if !allowed {
        return Err(unread.bad());
    }
    unread.rest = rest;
    Ok(potential)
}

fn read_potentials(alloc: Global, count: u16, unread: &mut Unread) -> Result<Vec<i32>, ReadFault>
    ensures { Gives (λ ps. (ps.items, unread.new.rest.now)) result (potentials_at count unread.old.rest.now) }
{
    let mut potentials = Vec::new(alloc);
    for _ in 0..count {
        let potential = read_potential(unread)?;
        potentials.push(potential)?;
    }
    Ok(potentials)
}

#[tactic(auto, unfolding(crate::specs::Reading::solution_at))]
fn read_solution(alloc: Global, unread: &mut Unread) -> Result<Solution, ReadFault>
    ensures { Gives (λ s. (s, unread.new.rest.now)) result (solution_at unread.old.rest.now) }
{
    let members = unread.count(MOST_MEMBERS)?;
    let count = unread.row_count()?;
    let rows = read_rows(alloc, count, members, unread)?;
    let potentials = read_potentials(alloc, members, unread)?;
    Ok(solution_of(members, rows, potentials))
}

pub(crate) fn read_solutions(
    alloc: Global,
    count: u16,
    unread: &mut Unread,
) -> Result<Vec<Solution>, ReadFault>
    ensures { Gives (λ s. (s.items, unread.new.rest.now)) result (solutions_at count unread.old.rest.now) }
{
    let mut solutions = Vec::new(alloc);
    for _ in 0..count {
        let solution = read_solution(alloc, unread)?;
        solutions.push(solution)?;
    }
    Ok(solutions)
}
