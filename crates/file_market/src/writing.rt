//! The text of a proposal, its products beside one another.
ghost use Rattle.std.specs.Prelude.{◌≡◌, ◌<◌, length, slice_get, IfOk};
ghost use Rattle.dual_certificate.specs.ProposalText.{part_of, proposal_text};
ghost use Rattle.dual_certificate.specs.Writing.{HaveMembers, SolveMembers};

use command_types::Roster;
use dual_certificate::{join_parts, write_part};
use network_laws::{Network, Solution, Solver};
use outside::Gate;
use parallel_solver::Workers;
use std::alloc::{AllocError, Global};
use std::thread::Threads;

// The lines of the product at a place.
fn part_at(
    alloc: Global,
    roster: &Roster,
    old: &[Network],
    solutions: &[Solution],
    product: usize,
) -> Result<Vec<u8>, AllocError>
    requires product { product < length roster.now.products }
    requires network { product < length old.now }
    requires solution { product < length solutions.now }
    requires solved { SolveMembers roster.now solutions.now }
    ensures { IfOk result (λ text. text.items ≡ part_of roster.now product (slice_get old.now product) (slice_get solutions.now product)) }
{
    let text = write_part(alloc, roster, product, &old[product], &solutions[product])?;
    Ok(text)
}

/// The text of a proposal: for each product of the roster its original network's figures, the rows of its solution, and
/// its potentials. The workers write the products' lines, which then are joined. The only error is want of memory.
pub(crate) fn written<R: Threads + Sync, V: Solver, G: Gate>(
    alloc: Global,
    roster: &Roster,
    old: &[Network],
    solutions: &[Solution],
    workers: &Workers<'_, R, V, G>,
) -> Result<Vec<u8>, AllocError>
    requires networks { length old.now ≡ length roster.now.products }
    requires solutions { length solutions.now ≡ length roster.now.products }
    requires solved { SolveMembers roster.now solutions.now }
    ensures { IfOk result (λ text. text.items ≡ proposal_text roster.now old.now solutions.now) }
{
    let parts = workers.make_all(
        alloc,
        roster.products().len(),
        &move |product: usize| -> Result<Vec<u8>, AllocError>
            requires { (product < length roster.now.products) × (product < length old.now) × (product < length solutions.now) × SolveMembers roster.now solutions.now }
            ensures { IfOk result (λ text. text.items ≡ part_of roster.entry.now product (slice_get old.entry.now product) (slice_get solutions.entry.now product)) }
        { part_at(alloc, roster, old, solutions, product) },
    )?;
    let text = join_parts(alloc, &parts)?;
    Ok(text)
}
