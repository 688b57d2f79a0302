//! The lists of a book: of each product, and of each ordered pair of members in it, its alleged and live trades. Who asks
//! for a product or for a pair goes to its open trades alone.

ghost use Rattle.std.specs.Prelude.{ℕ, ◌≡◌, ◌-◌, ◌*◌, ◌<◌, ◌≤◌, [], length, max, replicate, OnOk, OnErr, IfOk};
ghost use Rattle.product_book.specs.Kept.{trade_place};
ghost use Rattle.product_book.specs.Links.{IsPushed, IsTakenOut, IsForgotten};
ghost use Rattle.units_core.specs.declared.limits.TheConstants.{MOST_MEMBERS, MOST_PRODUCTS};

use crate::open_lists::OpenLists;
use crate::places::pair_place;
use command_types::TradeRow;
use std::alloc::{AllocError, Global};

/// The lists of products and of pairs.
#[derive(Drop)]
pub(super) struct Links {
    pub by_product: OpenLists,
    pub by_pair: OpenLists,
    pub spare: u64,
}

impl Links {
    /// The lists of no trades. The only error is want of memory.
    pub(super) fn new(alloc: Global, members: u16, products: u16) -> Result<Links, AllocError>
        requires few { members ≤ MOST_MEMBERS }
        requires few_products { products ≤ MOST_PRODUCTS }
        ensures products { IfOk result (λ made. made.by_product.lists ≡ replicate products []) }
        ensures pairs { IfOk result (λ made. made.by_pair.lists ≡ replicate (members * (members * products)) []) }
        ensures product_numbers { IfOk result (λ made. made.by_product.count ≡ 0) }
        ensures pair_numbers { IfOk result (λ made. made.by_pair.count ≡ 0) }
        ensures spare { IfOk result (λ made. made.spare ≡ 0) }
    {
        let pairs = members as u32 * (members as u32 * products as u32);
        Ok(Links {
            by_product: OpenLists::new(alloc, products as u32)?,
            by_pair: OpenLists::new(alloc, pairs)?,
            spare: 0,
        })
    }

    /// Makes room for so many more trades. The only error is want of memory, and it leaves the room that there was.
    pub(super) fn reserve(&mut self, trades: u32) -> Result<(), AllocError>
        requires product_room { self.old.spare ≤ self.old.by_product.spare }
        requires pair_room { self.old.spare ≤ self.old.by_pair.spare }
        ensures products { self.new.by_product.lists ≡ self.old.by_product.lists }
        ensures product_numbers { self.new.by_product.count ≡ self.old.by_product.count }
        ensures pairs { self.new.by_pair.lists ≡ self.old.by_pair.lists }
        ensures pair_numbers { self.new.by_pair.count ≡ self.old.by_pair.count }
        ensures product_room { self.new.spare ≤ self.new.by_product.spare }
        ensures pair_room { self.new.spare ≤ self.new.by_pair.spare }
        ensures room { OnOk result (self.new.spare ≡ max self.old.spare trades) }
        ensures err { OnErr result (self.new.spare ≡ self.old.spare) }
    {
        self.by_product.reserve(trades)?;
        self.by_pair.reserve(trades)?;
        self.spare = self.spare.max(trades as u64);
        Ok(())
    }

    /// Puts a trade last into its lists. It takes no memory.
    pub(super) fn enter(&mut self, members: u16, row: &TradeRow)
        requires members { members ≤ MOST_MEMBERS }
        requires few { row.now.product < MOST_PRODUCTS }
        requires seller { row.now.seller < members }
        requires buyer { row.now.buyer < members }
        requires product { row.now.product < length self.old.by_product.lists }
        requires place { trade_place members row.now < length self.old.by_pair.lists }
        requires room { 1 ≤ self.old.spare }
        requires product_room { self.old.spare ≤ self.old.by_product.spare }
        requires pair_room { self.old.spare ≤ self.old.by_pair.spare }
        ensures products { IsPushed self.old.by_product self.new.by_product row.now.product }
        ensures pairs { IsPushed self.old.by_pair self.new.by_pair (trade_place members row.now) }
        ensures spare { self.new.spare ≡ self.old.spare - 1 }
    {
        let place = pair_place(
            members,
            row.product.index(),
            row.seller.index(),
            row.buyer.index(),
        );
        self.by_product.push(row.product.index() as u32);
        self.by_pair.push(place);
        self.spare -= 1;
    }

    /// Takes a trade out of its lists. It takes no memory.
    pub(super) fn leave(&mut self, number: u64)
        requires some { 1 ≤ number }
        requires product { number ≤ self.old.by_product.count }
        requires pair { number ≤ self.old.by_pair.count }
        ensures products { IsTakenOut self.old.by_product self.new.by_product number }
        ensures pairs { IsTakenOut self.old.by_pair self.new.by_pair number }
        ensures spare { self.new.spare ≡ self.old.spare }
    {
        self.by_product.take_out(number);
        self.by_pair.take_out(number);
    }

    /// Takes the last trade out of its lists, and out of their count. It takes no memory.
    pub(super) fn forget_last(&mut self)
        requires product { 1 ≤ self.old.by_product.count }
        requires pair { 1 ≤ self.old.by_pair.count }
        ensures products { IsForgotten self.old.by_product self.new.by_product }
        ensures pairs { IsForgotten self.old.by_pair self.new.by_pair }
        ensures spare { self.new.spare ≡ self.old.spare }
    {
        self.by_product.forget_last();
        self.by_pair.forget_last();
    }
}
