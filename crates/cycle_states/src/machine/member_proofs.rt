//! What a member is told of a proposal, so that it can test its own part.

ghost use Rattle.std.specs.Prelude.{◌≡◌, ◌++◌, IfOk, OnOk};
ghost use Rattle.command_types.specs.MemberProofs.{proof_rows};
ghost use Rattle.cycle_states.specs.Machine.{FrozenAreLive};
ghost use Rattle.cycle_states.specs.MemberProofs.{asked_rows, asked_state};

use super::cycle::Cycle;
use super::part::Part;
use super::proof_rows::add_part;
use command_types::{Mode, ProofRow, Roster};
use network_laws::Problem;
use product_book::Book;
use std::alloc::AllocError;
use tolerance_sets::Tolerances;
use units_core::{MemberNo, ProductNo};

/// A proposal, and the member that asks about it.
#[derive(Clone, Copy)]
pub(super) struct MemberProof<'a> {
    pub roster: &'a Roster,
    pub book: &'a Book,
    /// What was taken last is what its version began with.
    pub tolerances: &'a Tolerances,
    pub cycle: &'a Cycle,
    /// Its version's problems.
    pub problems: &'a [Problem],
    /// The mode in which the version began.
    pub mode: Mode,
    pub member: MemberNo,
}

// Adds what the member is told of a product; where it has no problem or no solution, nothing.
fn add_product(
    rows: &mut Vec<ProofRow>,
    proof: &MemberProof,
    product: ProductNo,
) -> Result<(), AllocError>
    requires live { FrozenAreLive proof.now.book.now.rows }
    requires problems { proof.now.problems.now ≡ proof.now.cycle.now.begun }
    requires taken { proof.now.tolerances.now.taken ≡ proof.now.cycle.now.settings }
    ensures { OnOk result (rows.new.items ≡ rows.old.items ++ asked_rows proof.now product) }
{
    let Some(problem) = proof.problems.get(product.index()) else {
        return Ok(());
    };
    let Some(solution) = proof.cycle.solutions().get(product.index()) else {
        return Ok(());
    };
    let part = Part {
        product,
        mode: proof.mode,
        members: proof.roster.members(),
        tolerances: proof.tolerances,
        book: proof.book,
        problem,
        solution,
    };
    add_part(rows, &part, proof.member.0)?;
    Ok(())
}

/// What the member is told of all products, in their order. The only error is want of memory.
pub(super) fn proof_rows(proof: &MemberProof) -> Result<Vec<ProofRow>, AllocError>
    requires live { FrozenAreLive proof.now.book.now.rows }
    requires problems { proof.now.problems.now ≡ proof.now.cycle.now.begun }
    requires taken { proof.now.tolerances.now.taken ≡ proof.now.cycle.now.settings }
    ensures { IfOk result (λ rows. rows.items ≡ proof_rows (asked_state proof.now) proof.now.mode proof.now.member) }
{
    let mut rows = Vec::new(proof.cycle.allocator());
    for product in 0..proof.roster.products().len() as u16 {
        add_product(&mut rows, proof, ProductNo(product))?;
    }
    Ok(rows)
}
