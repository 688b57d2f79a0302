//! The solution of a market, its products beside one another.
ghost use Rattle.std.specs.Prelude.{◌≡◌, ◌<◌, ◌≤◌, ◌^◌, length, vec_len, IfOk};
ghost use Rattle.command_types.specs.declared.cycle.Mode.{Mode};
ghost use Rattle.trade_file.specs.TradeFile.{AreFileTrades};
ghost use Rattle.dual_certificate.specs.Writing.{HaveMembers};
ghost use Rattle.file_market.specs.Solve.{problem_for, IsProblemAt, MayHave, MayHaveEach, IsProblemIn, IsProblemInAt, AreProblemsIn, AreProblemsOf, AreSolutions, IsSolvedText};

use crate::limits::{is_free, limits_for};
use crate::writing::written;
use command_types::{Mode, Roster};
use network_laws::{Limits, Network, Problem, Solution, Solver};
use outside::Gate;
use parallel_solver::Workers;
use std::alloc::{AllocError, Global};
use std::thread::Threads;
use trade_file::{FileTrade, networks};
use units_core::ProductNo;

// A product's network, with limits of its own.
fn own_problem(
    alloc: Global,
    roster: &Roster,
    mode: Mode,
    product: usize,
    network: &Network,
) -> Result<Problem, AllocError>
    requires members { network.now.members ≡ length roster.now.members }
    requires few { product < 2 ^ 16 }
    ensures { IfOk result (λ problem. problem ≡ problem_for roster.now mode product network.now) }
{
    let limits = limits_for(alloc, roster, mode, ProductNo(product as u16), network)?;
    Ok(Problem::new(limits, network.copy()?))
}

// A network, with a copy of limits.
fn problem_in(limits: &Limits, network: &Network) -> Result<Problem, AllocError>
    requires { MayHave limits.now network.now }
    ensures { IfOk result (IsProblemIn limits.now network.now) }
{
    let _members = network.members();
    let limits = limits.copy()?;
    Ok(Problem::new(limits, network.copy()?))
}

// One for each product, with limits of its own.
fn own_problems<R: Threads + Sync, V: Solver, G: Gate>(
    alloc: Global,
    roster: &Roster,
    mode: Mode,
    networks: &[Network],
    workers: &Workers<'_, R, V, G>,
) -> Result<Vec<Problem>, AllocError>
    requires count { length networks.now ≡ length roster.now.products }
    requires members { HaveMembers roster.now networks.now }
    ensures { IfOk result (λ problems. AreProblemsOf roster.now mode networks.now problems.items) }
{
    let products = roster.products().len();
    let problems = workers.make_all(
        alloc,
        products,
        &move |product: usize| -> Result<Problem, AllocError>
            requires { (product < 2 ^ 16) × (product < length networks.now) × HaveMembers roster.now networks.now }
            ensures { IfOk result (IsProblemAt roster.entry.now mode networks.entry.now product) }
        { own_problem(alloc, roster, mode, product, &networks[product]) },
    )?;
    Ok(problems)
}

// One for each product, with a copy of these limits.
fn problems_in<R: Threads + Sync, V: Solver, G: Gate>(
    alloc: Global,
    limits: &Limits,
    networks: &[Network],
    workers: &Workers<'_, R, V, G>,
) -> Result<Vec<Problem>, AllocError>
    requires { MayHaveEach limits.now networks.now }
    ensures count { IfOk result (λ problems. vec_len problems ≡ length networks.now) }
    ensures each { IfOk result (λ problems. AreProblemsIn limits.now networks.now problems.items) }
{
    let problems = workers.make_all(
        alloc,
        networks.len(),
        &move |product: usize| -> Result<Problem, AllocError>
            requires { (product < length networks.now) × MayHaveEach limits.now networks.now }
            ensures { IfOk result (IsProblemInAt limits.entry.now networks.entry.now product) }
        { problem_in(limits, &networks[product]) },
    )?;
    Ok(problems)
}

// One for each product, in free mode: the limits of the first are those of all.
fn free_problems<R: Threads + Sync, V: Solver, G: Gate>(
    alloc: Global,
    roster: &Roster,
    networks: &[Network],
    workers: &Workers<'_, R, V, G>,
) -> Result<Vec<Problem>, AllocError>
    requires count { length networks.now ≡ length roster.now.products }
    requires members { HaveMembers roster.now networks.now }
    ensures { IfOk result (λ problems. AreProblemsOf roster.now Mode.Free networks.now problems.items) }
{
    if networks.is_empty() {
        return Ok(Vec::new(alloc));
    }
    let first = &networks[0];
    let _members = first.members();
    let limits = limits_for(alloc, roster, Mode::Free, ProductNo(0), first)?;
    let problems = problems_in(alloc, &limits, networks, workers)?;
    Ok(problems)
}

// One for each product.
fn problems_of<R: Threads + Sync, V: Solver, G: Gate>(
    alloc: Global,
    roster: &Roster,
    mode: Mode,
    networks: &[Network],
    workers: &Workers<'_, R, V, G>,
) -> Result<Vec<Problem>, AllocError>
    requires count { length networks.now ≡ length roster.now.products }
    requires members { HaveMembers roster.now networks.now }
    ensures { IfOk result (λ problems. AreProblemsOf roster.now mode networks.now problems.items) }
{
    if is_free(mode) {
        free_problems(alloc, roster, networks, workers)
    } else {
        own_problems(alloc, roster, mode, networks, workers)
    }
}

/// A solution for each product, by the workers.
pub(crate) fn solutions_of<R: Threads + Sync, V: Solver, G: Gate>(
    alloc: Global,
    roster: &Roster,
    mode: Mode,
    networks: &[Network],
    workers: &Workers<'_, R, V, G>,
) -> Result<Vec<Solution>, AllocError>
    requires count { length networks.now ≡ length roster.now.products }
    requires members { HaveMembers roster.now networks.now }
    ensures { IfOk result (λ solutions. AreSolutions roster.now mode networks.now solutions.items) }
{
    let problems = problems_of(alloc, roster, mode, networks, workers)?;
    let solutions = workers.solve_all(alloc, &problems)?;
    Ok(solutions)
}

/// The text of a proposal that has, for each product of the roster, a certified network for that of the trades, within
/// the limits of the mode: no network within them that keeps every net position has less gross. Where the gross cannot
/// fall, it is the trades' own network. However many workers solve, the only error is want of memory.
pub fn solve<R: Threads + Sync, V: Solver, G: Gate>(
    alloc: Global,
    roster: &Roster,
    mode: Mode,
    trades: &[FileTrade],
    workers: &Workers<'_, R, V, G>,
) -> Result<Vec<u8>, AllocError>
    requires { AreFileTrades roster.now trades.now }
    ensures { IfOk result (λ text. IsSolvedText roster.now mode trades.now text.items) }
{
    let networks = networks(alloc, trades, roster)?;
    let solutions = solutions_of(alloc, roster, mode, &networks, workers)?;
    written(alloc, roster, &networks, &solutions, workers)
}
