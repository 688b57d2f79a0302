//! What a session posts: a solution for each product, from its draft.

ghost use Rattle.std.specs.Prelude.{◌≡◌, IfOk};
ghost use Rattle.command_types.specs.Session.{draft_potential, potentials_for, draft_solution, draft_solutions};
ghost use Rattle.session.specs.Kept.{kept_potentials};
ghost use Rattle.session.specs.KeptDraft.{draft_of};

use crate::draft::Draft;
use crate::draft_potentials::{DraftPotentials, PlaceKey};
use crate::product_network::product_network;
use command_types::{Listed, MemberRow, Roster};
use network_laws::Solution;
use std::alloc::{AllocError, Global};
use units_core::Name;

// The potentials of a product, in the order of members. The only error is want of memory.
fn product_potentials(
    alloc: Global,
    draft: &DraftPotentials,
    members: &[MemberRow],
    product: Name,
) -> Result<Vec<i32>, AllocError>
    ensures { IfOk result (λ potentials. potentials.items ≡ potentials_for (λ member. draft_potential product member (kept_potentials draft.now)) members.now) }
{
    let mut potentials = Vec::new(alloc);
    for row in members {
        let member = row.name;
        potentials.push(draft.value(&PlaceKey { product, member }))?;
    }
    Ok(potentials)
}

// The solution of a product. The only error is want of memory.
fn product_solution(
    alloc: Global,
    roster: &Roster,
    draft: &Draft,
    product: Name,
) -> Result<Solution, AllocError>
    ensures { IfOk result (λ solution. solution ≡ draft_solution roster.now.members (draft_of draft.now) product) }
{
    let network = product_network(alloc, roster, draft.rows(), &product)?;
    let potentials = product_potentials(alloc, draft.potentials(), roster.members(), product)?;
    Ok(Solution::new(network, potentials))
}

/// What a draft posts: one solution for each product of the roster, in order, where what the draft has not is 0. The only
/// error is want of memory.
pub fn draft_solutions(
    alloc: Global,
    roster: &Roster,
    draft: &Draft,
) -> Result<Listed<Solution>, AllocError>
    ensures { IfOk result (λ solutions. solutions ≡ draft_solutions roster.now (draft_of draft.now)) }
{
    let mut solutions = Vec::new(alloc);
    for product in roster.products() {
        solutions.push(product_solution(alloc, roster, draft, product.name)?)?;
    }
    Ok(Listed::new(solutions))
}
