//! The check of a proposal: product by product, the certificate of its network first, and then the figures beside it.
ghost use Rattle.std.specs.Prelude.{◌≡◌, ℕ, ◌<◌, ◌^◌, Ok, length, vec_len, slice_index_or, IfOk};
ghost use Rattle.trade_file.specs.TradeFile.{AreFileTrades};
ghost use Rattle.dual_certificate.specs.Parts.{AreParts};
ghost use Rattle.dual_certificate.specs.Writing.{HaveMembers};
ghost use Rattle.file_market.specs.Check.{has_figures, part_failure, FailsSo, MayCheckAt, AreTold, first_failing, IsChecked};

use crate::failing::{Failing, Failure};
use crate::limits::limits_for;
use command_types::{Mode, Roster};
use dual_certificate::ProposalPart;
use net_positions::{bilateral_gross, floor_m, gross};
use network_laws::{Network, Solver};
use outside::Gate;
use parallel_solver::Workers;
use std::alloc::{AllocError, Global};
use std::thread::Threads;
use trade_file::{FileTrade, networks};
use units_core::ProductNo;

/// A market's roster, and the mode that its products are compressed in.
#[derive(Clone, Copy)]
pub struct Terms<'a> {
    pub roster: &'a Roster,
    pub mode: Mode,
}

// Whether the figures of a part are those of the product's network and of the part's own.
fn has_figures(network: &Network, part: &ProposalPart) -> bool
    ensures { result ≡ has_figures network.now part.now }
{
    part.gross == gross(network)
        && part.floor_m == floor_m(network)
        && part.bilateral == bilateral_gross(network)
        && part.least == gross(part.solution.network())
        && part.bound == part.least
}

// What is wrong with the part of a product.
fn part_failure(
    alloc: Global,
    terms: &Terms<'_>,
    product: ProductNo,
    network: &Network,
    part: &ProposalPart,
) -> Result<Option<Failure>, AllocError>
    requires members { network.now.members ≡ length terms.now.roster.now.members }
    requires posted { part.now.solution.network.members ≡ length terms.now.roster.now.members }
    ensures { IfOk result (λ failure. failure ≡ part_failure terms.now.roster.now terms.now.mode product network.now part.now) }
{
    let limits = limits_for(alloc, terms.roster, terms.mode, product, network)?;
    let posted = &part.solution;
    let clash = dual_certificate::check(&limits, network, posted.network(), posted.potentials());
    if let Some(clash) = clash {
        return Ok(Some(Failure::Clash(clash)));
    }
    if has_figures(network, part) {
        Ok(None)
    } else {
        Ok(Some(Failure::Figures))
    }
}

// What is wrong with the part of the product at a place.
fn failure_at(
    alloc: Global,
    terms: &Terms<'_>,
    networks: &[Network],
    parts: &[ProposalPart],
    product: usize,
) -> Result<Option<Failure>, AllocError>
    requires few { product < 2 ^ 16 }
    requires within { product < length networks.now }
    requires count { length networks.now ≡ length terms.now.roster.now.products }
    requires members { HaveMembers terms.now.roster.now networks.now }
    requires parts { AreParts terms.now.roster.now parts.now }
    ensures { IfOk result (FailsSo terms.now.roster.now terms.now.mode networks.now parts.now product) }
{
    let number = ProductNo(product as u16);
    let failure = part_failure(alloc, terms, number, &networks[product], &parts[product])?;
    Ok(failure)
}

// What is wrong with the part of each product, by the workers: each product's own, so that want of memory at one says
// nothing of those before it.
fn failures<R: Threads + Sync, V: Solver, G: Gate>(
    alloc: Global,
    terms: &Terms<'_>,
    networks: &[Network],
    parts: &[ProposalPart],
    workers: &Workers<'_, R, V, G>,
) -> Result<Vec<Result<Option<Failure>, AllocError>>, AllocError>
    requires count { length networks.now ≡ length terms.now.roster.now.products }
    requires members { HaveMembers terms.now.roster.now networks.now }
    requires parts { AreParts terms.now.roster.now parts.now }
    ensures count { IfOk result (λ found. vec_len found ≡ length networks.now) }
    ensures each { IfOk result (λ found. AreTold terms.now.roster.now terms.now.mode networks.now parts.now found.items) }
{
    let products = terms.roster.products().len();
    let found = workers.make_all(
        alloc,
        products,
        &move |product: usize| -> Result<Result<Option<Failure>, AllocError>, AllocError>
            requires { MayCheckAt terms.now.roster.now networks.now parts.now product }
            ensures { IfOk result (λ found. IfOk found (FailsSo terms.entry.now.roster.now terms.entry.now.mode networks.entry.now parts.entry.now product)) }
        { Ok(failure_at(alloc, terms, networks, parts, product)) },
    )?;
    Ok(found)
}

// What is told of the product at a place.
fn told(
    found: &[Result<Option<Failure>, AllocError>],
    product: usize,
) -> Result<Option<Failure>, AllocError>
    requires { product < length found.now }
    ensures { IfOk result (λ failure. (d : _) → slice_index_or found.now product d ≡ Ok failure) }
{
    found[product]
}

// The first product that fails. No product behind it tells that memory was wanted.
fn first_failing<R: Threads + Sync, V: Solver, G: Gate>(
    alloc: Global,
    terms: &Terms<'_>,
    networks: &[Network],
    parts: &[ProposalPart],
    workers: &Workers<'_, R, V, G>,
) -> Result<Option<Failing>, AllocError>
    requires count { length networks.now ≡ length terms.now.roster.now.products }
    requires members { HaveMembers terms.now.roster.now networks.now }
    requires parts { AreParts terms.now.roster.now parts.now }
    ensures { IfOk result (λ found. found ≡ first_failing terms.now.roster.now terms.now.mode networks.now parts.now) }
{
    let found = failures(alloc, terms, networks, parts, workers)?;
    for product in 0..terms.roster.products().len() {
        let failure = told(&found, product)?;
        if let Some(failure) = failure {
            return Ok(Some(Failing {
                product: ProductNo(product as u16),
                failure,
            }));
        }
    }
    Ok(None)
}

/// The first product of the roster whose part of a proposal fails against the trades' network of it, and why; none
/// where every part is certified and its figures are right. In a part the first clash of the certificate, within the
/// limits of the mode, comes before the figures. Amounts are in the contract's currency unit. However many workers check,
/// the only error is want of memory.
pub fn check<R: Threads + Sync, V: Solver, G: Gate>(
    alloc: Global,
    terms: &Terms<'_>,
    trades: &[FileTrade],
    parts: &[ProposalPart],
    workers: &Workers<'_, R, V, G>,
) -> Result<Option<Failing>, AllocError>
    requires trades { AreFileTrades terms.now.roster.now trades.now }
    requires parts { AreParts terms.now.roster.now parts.now }
    ensures { IfOk result (IsChecked terms.now.roster.now terms.now.mode trades.now parts.now) }
{
    let networks = networks(alloc, trades, terms.roster)?;
    first_failing(alloc, terms, &networks, parts, workers)
}
