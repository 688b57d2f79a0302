//! The potentials that a member is told of a product: of itself, and of those to whom it may owe or who may owe to it.

ghost use Rattle.std.specs.Prelude.{◌≡◌, ◌<◌, ◌≤◌, ◌++◌, [], if◌then◌else◌, not, length, slice_set, OnOk};
ghost use Rattle.std.specs.Option.{option_to_list};
ghost use Rattle.network_laws.specs.Limits.{AreLimitRows};
ghost use Rattle.command_types.specs.Books.{listed_below};
ghost use Rattle.command_types.specs.MemberProofs.{is_near, potential_row};
ghost use Rattle.command_types.specs.Tolerances.{is_zero_bound};
ghost use Rattle.cycle_states.specs.MemberProofs.{part_in};
ghost use Rattle.cycle_states.specs.NearMembers.{AreMarks};
ghost use Rattle.units_core.specs.declared.limits.TheConstants.{MOST_MEMBERS};

use super::part::Part;
use command_types::ProofRow;
use network_laws::LimitRow;
use std::alloc::AllocError;

/// The most members of a product.
const PLACES: usize = 256;

/// With which members a member's pairs may come to more than 0, at their places.
#[derive(Clone, Copy)]
pub(super) struct Owing {
    /// To whom it may owe.
    pub sold: [bool; 256],
    /// Who may owe to it.
    pub bought: [bool; 256],
}

// Whether the pair of a row may come to more than 0.
fn may_owe(row: LimitRow) -> bool
    ensures { result ≡ not (is_zero_bound row.upper) }
{
    row.upper != Some(0)
}

// Sets the mark of the other member of a row where the row is one of the member's.
fn mark(marks: &mut [bool], is_own: bool, other: u16, row: LimitRow)
    requires { other < length marks.old }
    ensures { marks.new ≡ (if is_own then slice_set marks.old other (not (is_zero_bound row.upper)) else marks.old) }
{
    if is_own {
        marks[usize::from(other)] = may_owe(row);
    }
}

// Marks those with whom the member's pairs may come to more than 0. The first row of a pair counts, so the last one is gone to first.
fn mark_rows(sold: &mut [bool], bought: &mut [bool], rows: &[LimitRow], members: u16, member: u16)
    requires blank { AreMarks [] member sold.old bought.old }
    requires few { members ≤ MOST_MEMBERS }
    requires rows { AreLimitRows members rows.now }
    ensures { AreMarks rows.now member sold.new bought.new }
{
    let mut left = rows.len();
    while left > 0 {
        left -= 1;
        let row = rows[left];
        mark(sold, row.seller == member, row.buyer, row);
        mark(bought, row.buyer == member, row.seller, row);
    }
}

// With whom a member's pairs in a product may come to more than 0, in one pass over the limits.
fn owing_of(part: &Part, member: u16) -> Owing
    ensures { AreMarks part.now.problem.now.limits.rows member result.sold result.bought }
{
    let mut sold = [false; PLACES];
    let mut bought = [false; PLACES];
    let limits = part.problem.limits();
    mark_rows(
        &mut sold,
        &mut bought,
        limits.rows(),
        limits.members(),
        member,
    );
    Owing { sold, bought }
}

// Whether the other member is the member itself, or one of their two pairs may come to more than 0.
fn is_near(part: &Part, owing: &Owing, member: u16, other: u16) -> bool
    requires marks { AreMarks part.now.problem.now.limits.rows member owing.now.sold owing.now.bought }
    requires place { other < MOST_MEMBERS }
    ensures { result ≡ is_near part.now.problem.now member other }
{
    other == member || owing.sold[usize::from(other)] || owing.bought[usize::from(other)]
}

// The potential of a member that is near.
fn potential_row(part: &Part, owing: &Owing, member: u16, other: u16) -> Option<ProofRow>
    requires marks { AreMarks part.now.problem.now.limits.rows member owing.now.sold owing.now.bought }
    requires place { other < MOST_MEMBERS }
    ensures { option_to_list result ≡ potential_row (part_in part.now) member other }
{
    if !is_near(part, owing, member, other) {
        return None;
    }
    let value = match part.solution.potentials().get(usize::from(other)) {
        Some(value) => *value,
        None => 0,
    };
    Some(ProofRow::Potential {
        product: part.product.0,
        member: other,
        value,
    })
}

// Adds a row, if there is one.
fn add_row(rows: &mut Vec<ProofRow>, row: Option<ProofRow>) -> Result<(), AllocError>
    ensures { OnOk result (rows.new.items ≡ rows.old.items ++ option_to_list row) }
{
    match row {
        Some(row) => {
            rows.push(row)?;
            Ok(())
        }
        None => Ok(()),
    }
}

/// Adds the potentials of those that are near. The only error is want of memory.
pub(super) fn add_potentials(
    rows: &mut Vec<ProofRow>,
    part: &Part,
    member: u16,
) -> Result<(), AllocError>
    ensures { OnOk result (rows.new.items ≡ rows.old.items ++ listed_below part.now.problem.now.network.members (potential_row (part_in part.now) member)) }
{
    let owing = owing_of(part, member);
    for other in 0..part.problem.network().members() {
        add_row(rows, potential_row(part, &owing, member, other))?;
    }
    Ok(())
}
