//! What a version begins with: for each product the network of its frozen trades, and the limits that its settings give.

ghost use Rattle.std.specs.Prelude.{◌≡◌, IfOk};
ghost use Rattle.command_types.specs.Cycles.{problem_of, problems_of};
ghost use Rattle.cycle_states.specs.Frozen.{frozen_product, AreFrozenOf};
ghost use Rattle.cycle_states.specs.Machine.{FrozenAreLive, IsBookOf};

use super::frozen::{Frozen, FrozenProduct, frozen_product};
use command_types::{Mode, Roster};
use network_laws::Problem;
use product_book::Book;
use std::alloc::{AllocError, Global};
use tolerance_sets::Tolerances;
use units_core::ProductNo;

/// All that a version's problems come from.
#[derive(Clone, Copy)]
pub(super) struct Version<'a> {
    pub roster: &'a Roster,
    pub book: &'a Book,
    /// Networks of the book's frozen trades, where they are kept.
    pub frozen: &'a Frozen,
    /// What was taken last is what the version began with.
    pub tolerances: &'a Tolerances,
    pub mode: Mode,
}

// The problem of a product that has these networks.
fn problem_with(
    version: &Version,
    product: ProductNo,
    frozen: &FrozenProduct,
) -> Result<Problem, AllocError>
    requires book { IsBookOf version.now.roster.now version.now.book.now.members version.now.book.now.products }
    requires frozen { frozen.now ≡ frozen_product version.now.book.now.members product version.now.book.now.rows }
    ensures { IfOk result (λ problem. problem ≡ problem_of version.now.roster.now version.now.book.now.rows version.now.tolerances.now.taken version.now.mode product) }
{
    let limits = version.tolerances.limits(
        version.mode,
        version.roster,
        product,
        &frozen.network,
        &frozen.held,
    )?;
    let copy = frozen.network.copy()?;
    Ok(Problem::new(limits, copy))
}

// The problem of a product, of networks that are kept, or made for once.
fn problem_now(version: &Version, product: ProductNo) -> Result<Problem, AllocError>
    requires book { IsBookOf version.now.roster.now version.now.book.now.members version.now.book.now.products }
    requires live { FrozenAreLive version.now.book.now.rows }
    requires kept { AreFrozenOf version.now.book.now.members version.now.book.now.rows version.now.frozen.now.networks }
    ensures { IfOk result (λ problem. problem ≡ problem_of version.now.roster.now version.now.book.now.rows version.now.tolerances.now.taken version.now.mode product) }
{
    match version.frozen.product(product) {
        Some(kept) => problem_with(version, product, kept),
        None => {
            let made = frozen_product(version.book, product)?;
            problem_with(version, product, &made)
        }
    }
}

/// The problems of all products, in their order. The only error is want of memory.
pub(super) fn problems_now(alloc: Global, version: &Version) -> Result<Vec<Problem>, AllocError>
    requires book { IsBookOf version.now.roster.now version.now.book.now.members version.now.book.now.products }
    requires live { FrozenAreLive version.now.book.now.rows }
    requires kept { AreFrozenOf version.now.book.now.members version.now.book.now.rows version.now.frozen.now.networks }
    ensures { IfOk result (λ problems. problems.items ≡ problems_of version.now.roster.now version.now.book.now.rows version.now.tolerances.now.taken version.now.mode) }
{
    let products = version.roster.products().len() as u16;
    let mut problems = Vec::new(alloc);
    for product in 0..products {
        let problem = problem_now(version, ProductNo(product))?;
        problems.push(problem)?;
    }
    Ok(problems)
}
