//! The limits of a product, pair by pair in their order. Only pairs that may have a row are gone to.

ghost use Rattle.std.specs.Prelude.{◌≡◌, ◌<◌, ◌≤◌, ◌++◌, length, min, max, slice_get, IfOk, OnOk};
ghost use Rattle.std.specs.Option.{option_to_list};
ghost use Rattle.network_laws.specs.Networks.{IsRising};
ghost use Rattle.command_types.specs.Books.{listed_below, listed_pairs};
ghost use Rattle.command_types.specs.Tolerances.{smaller_of, is_dealer_row, is_open, may_grow, pair_upper};
ghost use Rattle.tolerance_sets.specs.Market.{IsMarket, AreNoDealers, IsAtPair, HaveNone, market_limit, row_of_pair};
ghost use Rattle.units_core.specs.declared.limits.TheConstants.{MOST_MEMBERS};

use crate::open_pairs::{is_unbounded, open_limits};
use crate::pair_cursor::PairCursor;
use crate::product_settings::ProductSettings;
use command_types::{Level, MemberRow, Mode, Role, Side};
use network_laws::{LimitRow, Row, amount_at};
use std::alloc::{AllocError, Global};
use units_core::{MOST_MEMBERS, MemberNo, ProductNo};

/// What the limits of a product follow from.
#[derive(Clone, Copy)]
pub(super) struct Market<'a> {
    pub mode: Mode,
    pub members: &'a [MemberRow],
    /// The place behind the last dealer's, or one behind that.
    pub dealers_end: u16,
    pub settings: &'a ProductSettings<'a>,
    pub product: ProductNo,
    /// What members owe one another.
    pub network: &'a [Row],
    /// What of it is held.
    pub held: &'a [Row],
}

/// Whether a place is a dealer's.
pub(super) fn is_dealer(members: &[MemberRow], place: u16) -> bool
    ensures { result ≡ is_dealer_row (slice_get members.now place) }
{
    match members.get(place as usize) {
        None => false,
        Some(row) => row.role == Role::Dealer,
    }
}

/// The place behind the last dealer's.
pub(super) fn dealers_end(members: &[MemberRow]) -> u16
    requires { length members.now ≤ MOST_MEMBERS }
    ensures { AreNoDealers members.now result }
{
    let mut end = 0;
    for place in 0..members.len() as u16 {
        if is_dealer(members, place) {
            end = place + 1;
        }
    }
    end
}

// Whether a mode opens the pair of two members.
fn is_open(mode: Mode, members: &[MemberRow], seller: u16, buyer: u16) -> bool
    ensures { result ≡ is_open mode (slice_get members.now seller) (slice_get members.now buyer) }
{
    match mode {
        Mode::Conservative => false,
        Mode::Hybrid => is_dealer(members, seller) && is_dealer(members, buyer),
        Mode::Free => true,
    }
}

/// Whether a pair may come to more than its amount.
pub fn may_grow(mode: Mode, members: &[MemberRow], seller: u16, buyer: u16) -> bool
    ensures { result ≡ may_grow mode members.now seller buyer }
{
    seller != buyer && is_open(mode, members, seller, buyer)
}

fn smaller_of(first: Option<Level>, second: Option<Level>) -> Option<Level>
    ensures { result ≡ smaller_of first second }
{
    let Some(a) = first else {
        return second;
    };
    let Some(b) = second else {
        return first;
    };
    if a.get() < b.get() { Some(a) } else { Some(b) }
}

fn upper_of(grows: bool, amount: u64, ceiling: Option<Level>) -> Option<u64>
    ensures { result ≡ pair_upper grows amount ceiling }
{
    if !grows {
        return Some(amount);
    }
    match ceiling {
        None => None,
        Some(most) => Some(amount.max(most.get())),
    }
}

// The row of a pair with this amount, so much of it held; none where it may come to nothing but 0.
#[inline(always)]
fn pair_limit(
    settings: &ProductSettings,
    product: ProductNo,
    seller: u16,
    buyer: u16,
    amount: u64,
    held: u64,
    grows: bool,
) -> Option<LimitRow>
    ensures { option_to_list result ≡ row_of_pair settings.now.settings product seller buyer amount held grows }
{
    if amount == 0 && !grows {
        return None;
    }
    let owed = settings.levels_of(MemberNo(seller), product, MemberNo(buyer), Side::Out);
    let due = settings.levels_of(MemberNo(buyer), product, MemberNo(seller), Side::In);
    let upper = upper_of(grows, amount, smaller_of(owed.ceiling, due.ceiling));
    if upper == Some(0) {
        return None;
    }
    let floor = owed.floor.max(due.floor);
    Some(LimitRow {
        seller,
        buyer,
        lower: amount.min(floor.max(held)),
        upper,
    })
}

/// Adds the row of a pair, which may grow or not, if it has one.
#[inline(always)]
pub(super) fn add_pair(
    rows: &mut Vec<LimitRow>,
    market: &Market,
    pair: PairCursor,
    grows: bool,
) -> Result<(), AllocError>
    requires market { IsMarket market.now }
    requires pair { IsAtPair market.now pair }
    requires grows { grows ≡ may_grow market.now.mode market.now.members.now pair.seller pair.buyer }
    ensures { OnOk result (rows.new.items ≡ rows.old.items ++ market_limit market.now pair.seller pair.buyer) }
{
    let seller = pair.seller;
    let buyer = pair.buyer;
    let limit = pair_limit(
        market.settings,
        market.product,
        seller,
        buyer,
        amount_at(market.network, pair.row_at, seller, buyer),
        amount_at(market.held, pair.held_at, seller, buyer),
        grows,
    );
    if let Some(limit) = limit {
        rows.push(limit)?;
    }
    Ok(())
}

// Adds the rows of what a seller may sell.
fn add_seller(
    rows: &mut Vec<LimitRow>,
    market: &Market,
    seller: u16,
    members: u16,
) -> Result<(), AllocError>
    requires market { IsMarket market.now }
    requires few { length market.now.members.now ≤ MOST_MEMBERS }
    requires members { members ≡ length market.now.members.now }
    ensures { OnOk result (rows.new.items ≡ rows.old.items ++ listed_below members (market_limit market.now seller)) }
{
    let mut pair = PairCursor::first(market, seller);
    while pair.buyer < members {
        add_pair(rows, market, pair, pair.buyer == pair.growing)?;
        pair = pair.next(market);
    }
    Ok(())
}

// How many rows to make room for at first: in free mode nearly every pair has one.
fn room_for(market: &Market) -> usize {
    let members = market.members.len().min(MOST_MEMBERS as usize);
    match market.mode {
        Mode::Conservative | Mode::Hybrid => market.network.len(),
        Mode::Free => members * members,
    }
}

/// The rows of all pairs, in their order.
pub(super) fn all_limits(alloc: Global, market: &Market) -> Result<Vec<LimitRow>, AllocError>
    requires market { IsMarket market.now }
    requires few { length market.now.members.now ≤ MOST_MEMBERS }
    ensures { IfOk result (λ rows. rows.items ≡ listed_pairs (length market.now.members.now) (market_limit market.now)) }
{
    if is_unbounded(market) {
        return open_limits(alloc, market);
    }
    let members = market.members.len() as u16;
    let mut rows = Vec::with_capacity(alloc, room_for(market))?;
    for seller in 0..members {
        add_seller(&mut rows, market, seller, members)?;
    }
    Ok(rows)
}
