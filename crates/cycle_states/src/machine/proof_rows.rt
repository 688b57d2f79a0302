//! What a member is told of a product of a proposal, so that it can test its own part: potentials, and its own pairs.

ghost use Rattle.std.specs.Prelude.{◌≡◌, ◌≢◌, ◌+◌, [], ◌∷◌, ◌++◌, IfOk, OnOk};
ghost use Rattle.network_laws.specs.Networks.{IsCursor};
ghost use Rattle.command_types.specs.Books.{listed_below, listed_pairs};
ghost use Rattle.command_types.specs.MemberProofs.{is_told, pair_line, pair_row, part_rows};
ghost use Rattle.command_types.specs.declared.proof.ProofRow.TheVariants.{Pair};
ghost use Rattle.cycle_states.specs.Machine.{FrozenAreLive};
ghost use Rattle.cycle_states.specs.MemberProofs.{part_in, told_row};
ghost use Rattle.cycle_states.specs.PairPlaces.{ArePast, IsAtPair, pair_place};

use super::near_members::add_potentials;
use super::pair_places::PairPlaces;
use super::part::{Part, amount_next, amount_now, bounds_of, rows_now};
use super::row_search::row_from;
use super::whose::{lower_of, upper_of};
use command_types::{PairLine, ProofRow};
use std::alloc::AllocError;
use tolerance_sets::may_grow;

// A pair with its bounds, whose they are, what it is now and what the proposal makes of it.
fn pair_line(part: &Part, pair: PairPlaces) -> Result<PairLine, AllocError>
    requires live { FrozenAreLive part.now.book.now.rows }
    requires pair { IsAtPair part.now pair }
    ensures { IfOk result (λ line. line ≡ pair_line (part_in part.now) pair.seller pair.buyer) }
{
    let (seller, buyer) = (pair.seller, pair.buyer);
    let bounds = bounds_of(part, pair.limit, seller, buyer);
    let grows = may_grow(part.mode, part.members, seller, buyer);
    Ok(PairLine {
        product: part.product.0,
        seller,
        buyer,
        lower: bounds.lower,
        lower_of: lower_of(part, seller, buyer, bounds.lower)?,
        now: amount_now(part, pair.now, seller, buyer),
        next: amount_next(part, pair.next, seller, buyer),
        upper: bounds.upper,
        upper_of: upper_of(part, seller, buyer, grows),
    })
}

// Before a pair, at its frozen amount. Its bounds and what the proposal makes of it are looked for only where it is told.
fn to_amount(part: &Part, before: PairPlaces, seller: u16, buyer: u16) -> PairPlaces
    requires { ArePast part.now before (pair_place seller buyer) }
    ensures past { ArePast part.now result (pair_place seller buyer) }
    ensures now { IsCursor part.now.problem.now.network.rows result.now (pair_place seller buyer) }
{
    let wanted = seller as u32 * 65536 + buyer as u32;
    let now = row_from(rows_now(part), before.now, wanted);
    PairPlaces {
        seller,
        buyer,
        limit: before.limit,
        now,
        next: before.next,
    }
}

// Whether a pair has a frozen amount, or mode and roles let it grow.
fn is_told(part: &Part, now: usize, seller: u16, buyer: u16) -> bool
    requires { IsCursor part.now.problem.now.network.rows now (pair_place seller buyer) }
    ensures { result ≡ is_told (part_in part.now) seller buyer }
{
    amount_now(part, now, seller, buyer) > 0 || may_grow(part.mode, part.members, seller, buyer)
}

// Adds such a pair, and gives the place at which it was found. It is kept out of the walk over the pairs.
#[inline(never)]
fn add_told(
    rows: &mut Vec<ProofRow>,
    part: &Part,
    before: PairPlaces,
    seller: u16,
    buyer: u16,
) -> Result<PairPlaces, AllocError>
    requires live { FrozenAreLive part.now.book.now.rows }
    requires before { ArePast part.now before (pair_place seller buyer) }
    ensures rows { OnOk result (rows.new.items ≡ rows.old.items ++ Pair (pair_line (part_in part.now) seller buyer) ∷ []) }
    ensures after { IfOk result (λ after. ArePast part.now after (pair_place seller buyer)) }
{
    let pair = before.to(part, seller, buyer);
    let line = pair_line(part, pair)?;
    rows.push(ProofRow::Pair(line))?;
    Ok(pair)
}

// Adds a pair if it is told, and gives a place that is not past it.
#[inline(always)]
fn add_pair(
    rows: &mut Vec<ProofRow>,
    part: &Part,
    before: PairPlaces,
    seller: u16,
    buyer: u16,
) -> Result<PairPlaces, AllocError>
    requires live { FrozenAreLive part.now.book.now.rows }
    requires before { ArePast part.now before (pair_place seller buyer) }
    ensures rows { OnOk result (rows.new.items ≡ rows.old.items ++ told_row (part_in part.now) seller buyer) }
    ensures after { IfOk result (λ after. ArePast part.now after (pair_place seller buyer)) }
{
    let near = to_amount(part, before, seller, buyer);
    if !is_told(part, near.now, seller, buyer) {
        return Ok(near);
    }
    let after = add_told(rows, part, near, seller, buyer)?;
    Ok(after)
}

// Adds the pairs in which the member sells.
fn add_sold(rows: &mut Vec<ProofRow>, part: &Part, member: u16) -> Result<(), AllocError>
    requires live { FrozenAreLive part.now.book.now.rows }
    ensures { OnOk result (rows.new.items ≡ rows.old.items ++ listed_below part.now.problem.now.network.members (pair_row (part_in part.now) member member)) }
{
    let mut before = PairPlaces::of_seller(part, member);
    for buyer in 0..part.problem.network().members() {
        before = add_pair(rows, part, before, member, buyer)?;
    }
    Ok(())
}

// Adds the pair in which it buys of another seller: of that seller's pairs, there is none but this.
fn add_bought(
    rows: &mut Vec<ProofRow>,
    part: &Part,
    before: PairPlaces,
    member: u16,
    seller: u16,
) -> Result<PairPlaces, AllocError>
    requires live { FrozenAreLive part.now.book.now.rows }
    requires before { ArePast part.now before (pair_place seller member) }
    requires other { seller ≢ member }
    ensures rows { OnOk result (rows.new.items ≡ rows.old.items ++ listed_below part.now.problem.now.network.members (pair_row (part_in part.now) member seller)) }
    ensures after { IfOk result (λ after. ArePast part.now after (pair_place seller member)) }
{
    if member >= part.problem.network().members() {
        return Ok(before);
    }
    let after = add_pair(rows, part, before, seller, member)?;
    Ok(after)
}

// Adds its pairs with this seller, and gives a place before its pair with the next one.
fn add_pairs_of(
    rows: &mut Vec<ProofRow>,
    part: &Part,
    before: PairPlaces,
    member: u16,
    seller: u16,
) -> Result<PairPlaces, AllocError>
    requires live { FrozenAreLive part.now.book.now.rows }
    requires before { ArePast part.now before (pair_place seller member) }
    ensures rows { OnOk result (rows.new.items ≡ rows.old.items ++ listed_below part.now.problem.now.network.members (pair_row (part_in part.now) member seller)) }
    ensures before { IfOk result (λ after. ArePast part.now after (pair_place (seller + 1) member)) }
{
    if seller == member {
        add_sold(rows, part, member)?;
        return Ok(before);
    }
    let after = add_bought(rows, part, before, member, seller)?;
    Ok(after)
}

// Adds all its pairs.
fn add_pairs(rows: &mut Vec<ProofRow>, part: &Part, member: u16) -> Result<(), AllocError>
    requires { FrozenAreLive part.now.book.now.rows }
    ensures { OnOk result (rows.new.items ≡ rows.old.items ++ listed_pairs part.now.problem.now.network.members (pair_row (part_in part.now) member)) }
{
    let mut before = PairPlaces::first();
    for seller in 0..part.problem.network().members() {
        before = add_pairs_of(rows, part, before, member, seller)?;
    }
    Ok(())
}

/// Adds what the member is told of a product. The only error is want of memory.
pub(super) fn add_part(rows: &mut Vec<ProofRow>, part: &Part, member: u16) -> Result<(), AllocError>
    requires { FrozenAreLive part.now.book.now.rows }
    ensures { OnOk result (rows.new.items ≡ rows.old.items ++ part_rows (part_in part.now) member) }
{
    add_potentials(rows, part, member)?;
    add_pairs(rows, part, member)
}
