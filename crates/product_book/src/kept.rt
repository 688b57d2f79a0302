//! The sums that a book keeps beside its trades, so that a sum is read and not added up.
//!
//! ```text
//!     products   alleged and live amounts      a place for each product
//!     sold       live amounts of a seller      a place for each member, product by product
//!     bought     live amounts of a buyer       the same
//!     pairs      live amounts of both          a place for each ordered pair, product by product
//! ```

ghost use Rattle.std.specs.Prelude.{ℕ, ◌≡◌, ◌+◌, ◌-◌, ◌*◌, ◌<◌, ◌≤◌, ◌^◌, length, slice_index, [], IfOk};
ghost use Rattle.product_book.specs.Kept.{member_place, counted_part, live_part, raised, moved, CanMove, CanEnter, IsEntered, CanSettle, IsSettled, AreKept};
ghost use Rattle.units_core.specs.declared.limits.TheConstants.{MOST_MEMBERS, MOST_PRODUCTS};

use crate::places::{member_place, pair_place};
use command_types::{TradeRow, TradeState};
use std::alloc::{AllocError, Global};

/// The sums of products, of members and of pairs.
#[derive(Drop)]
pub(super) struct KeptSums {
    pub members: u16,
    pub products: Vec<u64>,
    pub sold: Vec<u64>,
    pub bought: Vec<u64>,
    pub pairs: Vec<u64>,
}

// What a trade adds to its product's sum.
fn counted(row: &TradeRow) -> u64
    ensures { result ≡ counted_part row.now }
{
    if row.state != TradeState::Ended {
        row.amount.get()
    } else {
        0
    }
}

// What a trade adds to the sums of its two members and of its pair.
fn live(row: &TradeRow) -> u64
    ensures { result ≡ live_part row.now }
{
    if row.state == TradeState::Live {
        row.amount.get()
    } else {
        0
    }
}

// Raises a sum.
fn raise(sums: &mut Vec<u64>, at: usize, more: u64)
    requires at { at < length sums.old.items }
    requires fits { slice_index sums.old.items at + more < 2 ^ 64 }
    ensures { sums.new.items ≡ raised sums.old.items at more }
{
    sums[at] += more;
}

// Takes from a sum what a trade added, and adds what it adds now.
fn move_sum(sums: &mut Vec<u64>, at: usize, less: u64, more: u64)
    requires at { at < length sums.old.items }
    requires moves { CanMove (slice_index sums.old.items at) less more }
    ensures { sums.new.items ≡ moved sums.old.items at less more }
{
    sums[at] = sums[at] - less + more;
}

// The sum at a place; 0 where there is none.
fn sum_at(sums: &[u64], at: usize) -> u64
    ensures { result ≡ slice_index sums.now at }
{
    match sums.get(at) {
        Some(sum) => *sum,
        None => 0,
    }
}

impl KeptSums {
    /// The sums of no trades. The only error is want of memory.
    pub(super) fn new(alloc: Global, members: u16, products: u16) -> Result<KeptSums, AllocError>
        requires members { members ≤ MOST_MEMBERS }
        requires products { products ≤ MOST_PRODUCTS }
        ensures members { IfOk result (λ sums. sums.members ≡ members) }
        ensures kept { IfOk result (λ sums. AreKept members products sums []) }
    {
        let count = members as usize * products as usize;
        Ok(KeptSums {
            members,
            products: vec![in alloc; 0u64; products as usize]?,
            sold: vec![in alloc; 0u64; count]?,
            bought: vec![in alloc; 0u64; count]?,
            pairs: vec![in alloc; 0u64; members as usize * count]?,
        })
    }

    /// Adds what a new trade adds. It takes no memory.
    pub(super) fn enter(&mut self, row: &TradeRow)
        requires { CanEnter self.old.members self.old row.now }
        ensures { IsEntered self.old.members self.old self.new row.now }
    {
        let product = row.product.index();
        let (seller, buyer) = (row.seller.index(), row.buyer.index());
        let sold = member_place(self.members, product, seller);
        let bought = member_place(self.members, product, buyer);
        let pair = pair_place(self.members, product, seller, buyer) as usize;
        raise(&mut self.products, product, counted(row));
        raise(&mut self.sold, sold, live(row));
        raise(&mut self.bought, bought, live(row));
        raise(&mut self.pairs, pair, live(row));
    }

    /// Changes what a trade adds, which keeps its product and its parties. It takes no memory.
    pub(super) fn settle(&mut self, old: &TradeRow, new: &TradeRow)
        requires { CanSettle self.old.members self.old old.now new.now }
        ensures { IsSettled self.old.members self.old self.new old.now new.now }
    {
        let product = old.product.index();
        let (seller, buyer) = (old.seller.index(), old.buyer.index());
        let sold = member_place(self.members, product, seller);
        let bought = member_place(self.members, product, buyer);
        let pair = pair_place(self.members, product, seller, buyer) as usize;
        move_sum(&mut self.products, product, counted(old), counted(new));
        move_sum(&mut self.sold, sold, live(old), live(new));
        move_sum(&mut self.bought, bought, live(old), live(new));
        move_sum(&mut self.pairs, pair, live(old), live(new));
    }

    /// The sum of a product; 0 where there is none.
    pub(super) fn of_product(&self, product: usize) -> u64
        ensures { result ≡ slice_index self.now.products.items product }
    {
        sum_at(&self.products, product)
    }

    /// What a member sold in a product, and what it bought.
    pub(super) fn of_member(&self, product: usize, member: usize) -> (u64, u64)
        requires members { self.now.members ≤ MOST_MEMBERS }
        requires product { product < MOST_PRODUCTS }
        requires member { member < self.now.members }
        ensures sold { result.0 ≡ slice_index self.now.sold.items (member_place self.now.members product member) }
        ensures bought { result.1 ≡ slice_index self.now.bought.items (member_place self.now.members product member) }
    {
        let at = member_place(self.members, product, member);
        (sum_at(&self.sold, at), sum_at(&self.bought, at))
    }

    /// The sum of the pair at this place; 0 where there is none.
    pub(super) fn of_pair(&self, place: u32) -> u64
        ensures { result ≡ slice_index self.now.pairs.items place }
    {
        sum_at(&self.pairs, place as usize)
    }
}
