//! A label for each member: joined members have the same, the smallest of them.
//!
//! Members stand in trees (disjoint sets, of Galler and Fischer): each has a parent that is no larger than itself, and the
//! label is where its parents lead. Each open pair hangs the larger of its two labels below the smaller one.

ghost use Rattle.std.specs.Prelude.{◌≡◌, ◌<◌, ◌≤◌, ℕ, List, length, slice_index, IsTrue, EachIndex, IfOk};
ghost use Rattle.network_laws.specs.Limits.{AreLimits};
ghost use Rattle.split_parts.specs.Labels.{AreLabels, LeadTo, LeadsTo, LeadsOn};

use network_laws::{LimitRow, Limits};
use std::alloc::{AllocError, Global};

// The parents of members that are joined with nobody: each is its own.
fn own_parents(alloc: Global, members: u16) -> Result<Vec<u16>, AllocError>
    ensures size { IfOk result (λ parents. length parents.items ≡ members) }
    ensures own { IfOk result (λ parents. EachIndex parents.items (λ m. slice_index parents.items m ≡ m)) }
{
    let mut parents = Vec::new(alloc);
    for member in 0..members {
        parents.push(member)?;
    }
    Ok(parents)
}

// The label of a member, which is its parent from now on.
fn label_of(parents: &mut [u16], member: u16) -> u16
    requires here { member < length parents.old }
    requires low { EachIndex parents.old (λ m. slice_index parents.old m ≤ m) }
    ensures low { EachIndex parents.new (λ m. slice_index parents.new m ≤ m) }
    ensures root { slice_index parents.new result ≡ result }
    ensures below { result ≤ member }
    ensures label { LeadsTo parents.old parents.new member result }
{
    let mut label = member;
    while parents[label as usize] != label {
        label = parents[label as usize];
    }
    parents[member as usize] = label;
    label
}

// Joins the members of a row, if their pair is open, and tells whether their labels were different.
fn join(parents: &mut [u16], row: LimitRow) -> bool
    requires seller { row.seller < length parents.old }
    requires buyer { row.buyer < length parents.old }
    requires low { EachIndex parents.old (λ m. slice_index parents.old m ≤ m) }
    ensures { LeadsOn row parents.old parents.new }
{
    if parents[row.seller as usize] == parents[row.buyer as usize] || row.upper == Some(0) {
        return false;
    }
    let seller = label_of(parents, row.seller);
    let buyer = label_of(parents, row.buyer);
    if seller == buyer {
        return false;
    }
    parents[seller.max(buyer) as usize] = seller.min(buyer);
    true
}

// Makes each member's label its parent.
fn flatten(parents: &mut [u16])
    requires low { EachIndex parents.old (λ m. slice_index parents.old m ≤ m) }
    ensures { (labels : List ℕ) → LeadTo parents.old labels → parents.new ≡ labels }
{
    for member in 0..parents.len() {
        parents[member] = parents[parents[member] as usize];
    }
}

// Whether all have the label 0.
fn is_one(labels: &[u16]) -> bool
    ensures { IsTrue result → EachIndex labels.now (λ m. slice_index labels.now m ≡ 0) }
{
    labels.iter().all(|label| *label == 0)
}

// Joins the members of each row whose pair is open. Where all are joined with the first, no row is left to read.
fn join_rows(parents: &mut [u16], limits: &Limits)
    requires size { length parents.old ≡ limits.now.members }
    requires own { EachIndex parents.old (λ m. slice_index parents.old m ≡ m) }
    ensures { AreLabels limits.now parents.new }
{
    let rows = limits.rows();
    let mut links = 0;
    for at in 0..rows.len() {
        if join(parents, rows[at]) {
            links += 1;
            if links + 1 == parents.len() {
                flatten(parents);
                if is_one(parents) {
                    return;
                }
            }
        }
    }
    flatten(parents);
}

/// The labels of the members.
pub fn labels_of(alloc: Global, limits: &Limits) -> Result<Vec<u16>, AllocError>
    ensures { IfOk result (λ labels. AreLabels limits.now labels.items) }
{
    let mut labels = own_parents(alloc, limits.members())?;
    join_rows(&mut labels, limits);
    Ok(labels)
}
