//! The pairs that may have limits, one after another. A pair without a row in the network that may not grow may come
//! to nothing but 0, so it has none: a cursor goes over a seller's rows and over the members that it may sell more to.

ghost use Rattle.std.specs.Prelude.{◌≡◌, ℕ, ◌+◌, ◌*◌, ◌<◌, ◌≤◌, [], true, false, length, slice_index_or};
ghost use Rattle.network_laws.specs.declared.rows.Row.{Row};
ghost use Rattle.network_laws.specs.Networks.{IsRising, IsCursor, place};
ghost use Rattle.command_types.specs.Tolerances.{may_grow};
ghost use Rattle.tolerance_sets.specs.Market.{IsMarket, IsAtPair, KnowsGrowing, HaveNone, market_limit};
ghost use Rattle.units_core.specs.declared.limits.TheConstants.{MOST_MEMBERS};

use crate::limits::{Market, is_dealer, may_grow};
use command_types::Mode;
use network_laws::{Row, first_row, next_row};

/// A pair that may have limits, with the cursors of its rows.
#[derive(Clone, Copy)]
pub(super) struct PairCursor {
    pub seller: u16,
    /// The number of members, where no pair of the seller is left.
    pub buyer: u16,
    /// In what members owe one another.
    pub row_at: usize,
    /// In what of it is held.
    pub held_at: usize,
    /// The next buyer, from this one on, with whom the pair may grow; any that is passed, where it has to be found.
    pub growing: u16,
}

impl PairCursor {
    /// At the first pair of a seller that may have limits.
    pub(super) fn first(market: &Market, seller: u16) -> PairCursor
        requires market { IsMarket market.now }
        requires few { length market.now.members.now ≤ MOST_MEMBERS }
        ensures pair { IsAtPair market.now result }
        ensures growing { KnowsGrowing market.now result }
        ensures ahead { result.buyer ≤ result.growing }
        ensures seller { result.seller ≡ seller }
        ensures passed { HaveNone market.now seller 0 result.buyer }
    {
        let start = PairCursor {
            seller,
            buyer: 0,
            row_at: first_row(market.network, seller, 0),
            held_at: first_row(market.held, seller, 0),
            growing: growing_from(market, seller, 0),
        };
        start.found(market)
    }

    /// At the seller's next pair that may have limits.
    pub(super) fn next(self, market: &Market) -> PairCursor
        requires market { IsMarket market.now }
        requires few { length market.now.members.now ≤ MOST_MEMBERS }
        requires pair { IsAtPair market.now self }
        requires growing { KnowsGrowing market.now self }
        requires within { self.buyer < length market.now.members.now }
        ensures pair { IsAtPair market.now result }
        ensures growing { KnowsGrowing market.now result }
        ensures ahead { result.buyer ≤ result.growing }
        ensures seller { result.seller ≡ self.seller }
        ensures behind { self.buyer < result.buyer }
        ensures passed { HaveNone market.now self.seller (self.buyer + 1) result.buyer }
    {
        let after = PairCursor {
            buyer: self.buyer + 1,
            row_at: next_row(market.network, self.row_at, self.seller, self.buyer),
            held_at: next_row(market.held, self.held_at, self.seller, self.buyer),
            ..self
        };
        after.found(market)
    }

    // At the first pair from this one on that may have limits.
    #[inline(always)]
    fn found(self, market: &Market) -> PairCursor
        requires market { IsMarket market.now }
        requires few { length market.now.members.now ≤ MOST_MEMBERS }
        requires pair { IsAtPair market.now self }
        requires growing { KnowsGrowing market.now self }
        ensures pair { IsAtPair market.now result }
        ensures growing { KnowsGrowing market.now result }
        ensures ahead { result.buyer ≤ result.growing }
        ensures seller { result.seller ≡ self.seller }
        ensures behind { self.buyer ≤ result.buyer }
        ensures passed { HaveNone market.now self.seller self.buyer result.buyer }
    {
        let growing = if self.growing < self.buyer {
            growing_from(market, self.seller, self.buyer)
        } else {
            self.growing
        };
        let members = market.members.len() as u16;
        let buyer = buyer_at(market.network, self.row_at, self.seller, members).min(growing);
        let held_at = cursor_from(market.held, self.held_at, self.seller, buyer);
        PairCursor {
            buyer,
            held_at,
            growing,
            ..self
        }
    }
}

// The place of a buyer from which on no pair of a seller may grow.
fn growing_end(market: &Market, seller: u16) -> u16
    requires market { IsMarket market.now }
    requires few { length market.now.members.now ≤ MOST_MEMBERS }
    ensures { (buyer : ℕ) → result ≤ buyer → buyer < length market.now.members.now → may_grow market.now.mode market.now.members.now seller buyer ≡ false }
{
    match market.mode {
        Mode::Hybrid if is_dealer(market.members, seller) => market.dealers_end,
        Mode::Conservative | Mode::Hybrid => 0,
        Mode::Free => market.members.len() as u16,
    }
}

// The first buyer from one on with whom a seller's pair may grow, or the number of members.
fn growing_from(market: &Market, seller: u16, from: u16) -> u16
    requires market { IsMarket market.now }
    requires few { length market.now.members.now ≤ MOST_MEMBERS }
    requires from { from ≤ length market.now.members.now }
    ensures from { from ≤ result }
    ensures grows { result < length market.now.members.now → may_grow market.now.mode market.now.members.now seller result ≡ true }
    ensures passed { (buyer : ℕ) → from ≤ buyer → buyer < result → may_grow market.now.mode market.now.members.now seller buyer ≡ false }
{
    for buyer in from..growing_end(market, seller) {
        if may_grow(market.mode, market.members, seller, buyer) {
            return buyer;
        }
    }
    market.members.len() as u16
}

fn place_of(row: Row) -> u32
    ensures { result ≡ place row }
{
    row.seller as u32 * 65536 + row.buyer as u32
}

/// The buyer of a seller's row at a cursor, or the number of members where the cursor is past the seller's rows.
pub(super) fn buyer_at(rows: &[Row], at: usize, seller: u16, members: u16) -> u16
    requires rising { IsRising rows.now }
    ensures end { result ≤ members }
    ensures from { (buyer : ℕ) → buyer ≤ members → IsCursor rows.now at (seller * 65536 + buyer) → buyer ≤ result }
    ensures cursor { (buyer : ℕ) → buyer ≤ members → IsCursor rows.now at (seller * 65536 + buyer) → IsCursor rows.now at (seller * 65536 + result) }
{
    if at >= rows.len() {
        return members;
    }
    let ahead = place_of(rows[at]).saturating_sub(seller as u32 * 65536);
    ahead.min(members as u32) as u16
}

// The cursor of a pair, from that of an earlier pair on.
fn cursor_from(rows: &[Row], from: usize, seller: u16, buyer: u16) -> usize
    requires rising { IsRising rows.now }
    requires within { from ≤ length rows.now }
    requires before { (k : ℕ) (d : Row) → k < from → place (slice_index_or rows.now k d) < seller * 65536 + buyer }
    ensures end { result ≤ length rows.now }
    ensures cursor { IsCursor rows.now result (seller * 65536 + buyer) }
{
    let wanted = seller as u32 * 65536 + buyer as u32;
    let mut at = from;
    while at < rows.len() {
        if place_of(rows[at]) >= wanted {
            break;
        }
        at += 1;
    }
    at
}
