//! The members of each part, by their labels.

ghost use Rattle.std.specs.Prelude.{◌≡◌, ℕ, ◌<◌, ◌≤◌, ◌^◌, length, slice_index, IfOk};
ghost use Rattle.split_parts.specs.Labels.{AreNext, AreClassesTo, IsClassTo};
ghost use Rattle.units_core.specs.declared.limits.TheConstants.{MOST_MEMBERS};

use crate::part::Part;
use std::alloc::{AllocError, Global};

// For each member the next one with its label, or the number of members where there is none.
fn next_of(alloc: Global, labels: &[u16]) -> Result<Vec<u16>, AllocError>
    requires few { length labels.now ≤ MOST_MEMBERS }
    requires low { (m : ℕ) → m < length labels.now → slice_index labels.now m ≤ m }
    ensures { IfOk result (λ next. AreNext labels.now next.items) }
{
    let none = labels.len() as u16;
    let mut nearest = vec![in alloc; none; labels.len()]?;
    let mut next = vec![in alloc; none; labels.len()]?;
    let mut member = labels.len();
    while member > 0 {
        member -= 1;
        let label = labels[member] as usize;
        next[member] = nearest[label];
        nearest[label] = member as u16;
    }
    Ok(next)
}

// The members that have a label, which is the first of them.
fn members_with(
    alloc: Global,
    labels: &[u16],
    next: &[u16],
    label: u16,
) -> Result<Vec<u16>, AllocError>
    requires next { AreNext labels.now next.now }
    requires here { label < length labels.now }
    requires own { slice_index labels.now label ≡ label }
    requires low { (m : ℕ) → m < length labels.now → slice_index labels.now m ≤ m }
    ensures { IfOk result (λ members. IsClassTo labels.now label (length labels.now) members.items) }
{
    let mut members = Vec::new(alloc);
    members.push(label)?;
    let mut member = next[label as usize];
    while (member as usize) < labels.len() {
        members.push(member)?;
        member = next[member as usize];
    }
    Ok(members)
}

/// The parts of two members and more, in order of the first.
pub fn parts_with(alloc: Global, labels: &[u16]) -> Result<Vec<Part>, AllocError>
    requires few { length labels.now ≤ MOST_MEMBERS }
    requires low { (m : ℕ) → m < length labels.now → slice_index labels.now m ≤ m }
    requires own { (m : ℕ) → m < length labels.now → slice_index labels.now (slice_index labels.now m) ≡ slice_index labels.now m }
    ensures { IfOk result (λ parts. AreClassesTo labels.now (length labels.now) parts.items) }
{
    let next = next_of(alloc, labels)?;
    let mut parts = Vec::new(alloc);
    for member in 0..labels.len() {
        if labels[member] as usize == member {
            let members = members_with(alloc, labels, &next, member as u16)?;
            if members.len() > 1 {
                parts.push(Part::from_members(members))?;
            }
        }
    }
    Ok(parts)
}
