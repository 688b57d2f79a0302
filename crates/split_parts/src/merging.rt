//! The solutions of parts, put together.
//!
//! Rows go from the first part to the last: where no part stands between the members of another, they are in order.

ghost use Rattle.std.specs.Prelude.{◌≡◌, ◌<◌, ℕ, ◌++◌, length, map, slice_index_or, replicate, All, IfOk, IsPermutation, ℤ, pos};
ghost use Rattle.network_laws.specs.Limits.{potential};
ghost use Rattle.std.specs.List.Sorted.{IsNonDecreasingBy};
ghost use Rattle.network_laws.specs.Networks.{place};
ghost use Rattle.network_laws.specs.Solutions.{IsPotential};
ghost use Rattle.network_laws.specs.Solved.{AreSolved};
ghost use Rattle.split_parts.specs.Own.{number_in};
ghost use Rattle.split_parts.specs.Parts.{IsRisingPart};
ghost use Rattle.split_parts.specs.Merged.{named, rows_of, own_or, potential_in, IsMerged, AreParts, AreGoodParts, AreSolvedParts};

use crate::part::Part;
use crate::parts::Parts;
use network_laws::{Network, Row, Solution};
use std::alloc::{AllocError, Global};

// Where a row stands in the order by seller and buyer.
fn place_of(row: Row) -> u32
    ensures { result ≡ place row }
{
    row.seller as u32 * 65536 + row.buyer as u32
}

// Adds the rows of a part, in the members' numbers.
fn add_rows(part: &[u16], own: &[Row], rows: &mut Vec<Row>) -> Result<(), AllocError>
    requires { All (λ row. (row.seller < length part.now) × (row.buyer < length part.now)) own.now }
    ensures { IfOk result (λ _. rows.new.items ≡ rows.old.items ++ map (named part.now) own.now) }
{
    for row in own {
        rows.push(Row {
            seller: part[row.seller as usize],
            buyer: part[row.buyer as usize],
            amount: row.amount,
        })?;
    }
    Ok(())
}

// Gives each member of a part its potential there.
fn put_potentials(part: &[u16], own: &[i32], potentials: &mut [i32])
    requires rising { IsRisingPart part.now }
    requires within { All (λ m. m < length potentials.old) part.now }
    requires one_each { length own.now ≡ length part.now }
    requires own_range { All IsPotential own.now }
    requires in_range { All IsPotential potentials.old }
    ensures value { (m : ℕ) → m < length potentials.old → potential potentials.new m ≡ own_or (number_in part.now m) own.now (potential potentials.old m) }
    ensures in_range { All IsPotential potentials.new }
{
    for place in 0..part.len() {
        potentials[part[place] as usize] = own[place];
    }
}

// How many rows solutions have.
fn count_of(solutions: &[Solution]) -> usize {
    let mut count: usize = 0;
    for solution in solutions {
        count = count.saturating_add(solution.network().rows().len());
    }
    count
}

// The rows of all parts, in the order of members.
fn merged_rows(
    alloc: Global,
    parts: &[Part],
    solutions: &[Solution],
) -> Result<Vec<Row>, AllocError>
    requires good { (n : ℕ) × AreGoodParts n parts.now solutions.now }
    requires same { length parts.now ≡ length solutions.now }
    ensures rows { IfOk result (λ rows. IsPermutation (rows_of parts.now solutions.now) rows.items) }
    ensures order { IfOk result (λ rows. IsNonDecreasingBy place rows.items) }
{
    let mut rows = Vec::with_capacity(alloc, count_of(solutions))?;
    for at in 0..parts.len() {
        add_rows(
            parts[at].members(),
            solutions[at].network().rows(),
            &mut rows,
        )?;
    }
    rows.sort_unstable_by_key(|row| place_of(*row));
    Ok(rows)
}

// The potentials of all members.
fn merged_potentials(
    alloc: Global,
    parts: &[Part],
    members: u16,
    solutions: &[Solution],
) -> Result<Vec<i32>, AllocError>
    requires good { AreGoodParts members parts.now solutions.now }
    requires same { length parts.now ≡ length solutions.now }
    ensures size { IfOk result (λ potentials. length potentials.items ≡ members) }
    ensures value { IfOk result (λ potentials. (m : ℕ) → m < members → potential potentials.items m ≡ potential_in parts.now solutions.now m) }
    ensures in_range { IfOk result (λ potentials. All IsPotential potentials.items) }
{
    let mut potentials = vec![in alloc; 0i32; members as usize]?;
    let mut at = parts.len();
    while at > 0 {
        at -= 1;
        put_potentials(
            parts[at].members(),
            solutions[at].potentials(),
            &mut potentials,
        );
    }
    Ok(potentials)
}

/// The solution of a product, from those of its parts, whose members are these: their rows in the members' own numbers, each
/// member's potential from its part, and 0 for a member in none. The only error is want of memory.
pub fn merge_parts(
    alloc: Global,
    parts: &[Part],
    members: u16,
    solutions: &[Solution],
) -> Result<Solution, AllocError>
    requires { AreSolvedParts members parts.now solutions.now }
    ensures { IfOk result (IsMerged parts.now members solutions.now) }
{
    let rows = merged_rows(alloc, parts, solutions)?;
    let potentials = merged_potentials(alloc, parts, members, solutions)?;
    match Network::from_rows(members, rows) {
        Ok(network) => Ok(Solution::new(network, potentials)),
        Err(_) => unreachable!(),
    }
}

/// The solution of a product, from those of its parts: their rows in the members' own numbers, each member's potential
/// from its part, and 0 for a member in none. The only error is want of memory.
pub fn merge(
    alloc: Global,
    parts: &Parts,
    members: u16,
    solutions: &[Solution],
) -> Result<Solution, AllocError>
    requires parts { AreParts members parts.now }
    requires solved { AreSolved parts.now.problems solutions.now }
    ensures { IfOk result (IsMerged parts.now.members members solutions.now) }
{
    merge_parts(alloc, parts.members(), members, solutions)
}
