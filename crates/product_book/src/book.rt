//! The book of trades, in the order of their numbers.

ghost use Rattle.std.specs.Prelude.{ℕ, ◌≡◌, ◌≢◌, ◌+◌, ◌-◌, ◌≤◌, ◌<◌, ◌^◌, [], ◌∷◌, ◌++◌, length, IsTrue, OnOk, OnErr, IfOk, IsOk, IfSome, vec_len, vec_capacity, option_copied};
ghost use Rattle.command_types.specs.CycleSteps.{rows_of_member};
ghost use Rattle.command_types.specs.Plans.{executed, count_of, is_new, thawed};
ghost use Rattle.command_types.specs.Trades.{gross_of, sold_by, bought_by, pair_sum_of, submitted_count, trade_numbered, with_alleged, affirmed, ended_by, held_by, freed_by, row_ended_by};
ghost use Rattle.product_book.specs.Book.{gross_limit, AreTrades, IsTrade, live_between, may_affirm, may_end, may_hold, may_free};
ghost use Rattle.command_types.specs.Execution.{IsExecutable};
ghost use Rattle.product_book.specs.Freezes.{rows_by_choice, frozen_among, FrozenCount};
ghost use Rattle.product_book.specs.Networks.{network_of, AllCount};
ghost use Rattle.units_core.specs.declared.limits.TheConstants.{MOST_MEMBERS, MOST_PRODUCTS};

use crate::kept::KeptSums;
use crate::links::Links;
use crate::networks::{self, Which};
use crate::places::place_of;
use crate::row::{append, ended_by, has_ended, live, put_row, row_at, with_hold};
use crate::{execution, freezes, loading, picks};
use command_types::{PlanRow, Side, TradeRow, TradeState};
use network_laws::Network;
use std::alloc::{AllocError, Global};
use std::marker::Model;
use units_core::{Amount, Day, MemberNo, ProductNo};

mod taking_back;

// Makes room for so many more rows.
fn make_room(rows: &mut Vec<TradeRow>, count: usize) -> Result<(), AllocError>
    ensures items { rows.new.items ≡ rows.old.items }
    ensures len { vec_len rows.new ≡ vec_len rows.old }
    ensures keeps { vec_capacity rows.old ≤ vec_capacity rows.new }
    ensures room { OnOk result (vec_len rows.new + count ≤ vec_capacity rows.new) }
    ensures err { OnErr result (vec_capacity rows.new ≡ vec_capacity rows.old) }
{
    rows.reserve(count)
}

/// What a member owes in a product and what it is owed, in units of the contract's currency.
#[derive(Clone, Copy, Debug, PartialEq, Eq)]
pub struct Position {
    pub sold: u64,
    pub bought: u64,
}

/// All trades of a market. Trades are numbered from 1 in the order in which they came. The alleged and live amounts
/// of a product come to at most 10^18.
///
/// Only [`Book::new`], [`Book::of_rows`], [`Book::of_own_rows`], [`Book::reserve`], [`Book::network`], [`Book::rows_of`] and
/// [`Book::pair_rows`] take memory.
#[derive(Drop)]
pub struct Book {
    rows: Vec<TradeRow>,
    sums: KeptSums,
    links: Links,
    products: u16,
    submitted: u64,
}

impl Model for Book {
    ghost use Rattle.std.specs.Prelude.{◌-◌, vec_len, vec_capacity};
    ghost use Rattle.product_book.specs.Book.{BookView};
    ghost use Rattle.product_book.specs.Links.{IsLinkedBook};

    ghost Value = { BookView };

    ghost view = { λ b. record { rows = b.rows.items; spare = b.links.spare; members = b.sums.members; products = b.products } };

    ghost invariant = { λ b. IsLinkedBook b.sums.members b.products b.submitted b.sums b.rows.items b.links.by_product b.links.by_pair b.links.spare (vec_capacity b.rows - vec_len b.rows) };
}

impl Book {
    /// A book without trades, of so many members and products: at most 256 and 64. The only error is want of memory.
    pub fn new(alloc: Global, members: u16, products: u16) -> Result<Book, AllocError>
        requires few_members { members ≤ MOST_MEMBERS }
        requires few_products { products ≤ MOST_PRODUCTS }
        ensures rows { IfOk result (λ book. book.rows ≡ []) }
        ensures members { IfOk result (λ book. book.members ≡ members) }
        ensures products { IfOk result (λ book. book.products ≡ products) }
    {
        Ok(Book {
            rows: Vec::new(alloc),
            sums: KeptSums::new(alloc, members, products)?,
            links: Links::new(alloc, members, products)?,
            products,
            submitted: 0,
        })
    }

    /// The book that has exactly these trades, alleged, live and ended ones, as they stand. They are numbered from 1, their
    /// parties and products are places in range, and no product's alleged and live amounts come to more than 10^18. The only
    /// error is want of memory.
    pub fn of_rows(
        alloc: Global,
        members: u16,
        products: u16,
        rows: &[TradeRow],
    ) -> Result<Book, AllocError>
        requires few_members { members ≤ MOST_MEMBERS }
        requires few_products { products ≤ MOST_PRODUCTS }
        requires few { length rows.now < 2 ^ 32 }
        requires trades { AreTrades members products 1 rows.now }
        requires bounded { (product : ℕ) → gross_of product rows.now ≤ gross_limit }
        ensures rows { IfOk result (λ book. book.rows ≡ rows.now) }
        ensures members { IfOk result (λ book. book.members ≡ members) }
        ensures products { IfOk result (λ book. book.products ≡ products) }
    {
        let copied = rows.to_vec(alloc)?;
        Book::of_own_rows(alloc, members, products, copied)
    }

    /// The same, of trades that it need not copy: their list becomes the book's own.
    pub fn of_own_rows(
        alloc: Global,
        members: u16,
        products: u16,
        rows: Vec<TradeRow>,
    ) -> Result<Book, AllocError>
        requires few_members { members ≤ MOST_MEMBERS }
        requires few_products { products ≤ MOST_PRODUCTS }
        requires few { length rows.items < 2 ^ 32 }
        requires trades { AreTrades members products 1 rows.items }
        requires bounded { (product : ℕ) → gross_of product rows.items ≤ gross_limit }
        ensures rows { IfOk result (λ book. book.rows ≡ rows.items) }
        ensures members { IfOk result (λ book. book.members ≡ members) }
        ensures products { IfOk result (λ book. book.products ≡ products) }
    {
        let mut sums = KeptSums::new(alloc, members, products)?;
        let mut links = Links::new(alloc, members, products)?;
        links.reserve(rows.len() as u32)?;
        loading::load(&mut sums, &mut links, &rows);
        let submitted = loading::submitted_among(&rows);
        Ok(Book {
            rows,
            sums,
            links,
            products,
            submitted,
        })
    }

    /// Makes room for so many more trades. The only error is want of memory, which changes nothing, and which never comes where
    /// there is room for them already.
    pub fn reserve(&mut self, trades: u32) -> Result<(), AllocError>
        ensures same { self.new ≡ record self.old { spare = self.new.spare } }
        ensures keeps { self.old.spare ≤ self.new.spare }
        ensures room { OnOk result (trades ≤ self.new.spare) }
        ensures enough { trades ≤ self.old.spare → IsOk result }
        ensures err { OnErr result (self.new ≡ self.old) }
    {
        if trades as u64 <= self.links.spare {
            return Ok(());
        }
        make_room(&mut self.rows, trades as usize)?;
        self.links.reserve(trades)
    }

    /// How many trades there are. It takes no memory.
    pub fn count(&self) -> u64
        ensures count { result ≡ length self.now.rows }
        ensures few { result < 2 ^ 63 }
    {
        self.rows.len() as u64
    }

    /// All trades, in the order of their numbers: their parties and products are places in range, and no product's
    /// amounts are over the limit. It takes no memory.
    pub fn rows(&self) -> &[TradeRow]
        ensures rows { result.now ≡ self.now.rows }
        ensures trades { AreTrades self.now.members self.now.products 1 self.now.rows }
        ensures bounded { (product : ℕ) → gross_of product self.now.rows ≤ gross_limit }
    {
        &self.rows
    }

    /// The trade with this number; none exactly where no trade has it. It takes no memory.
    pub fn get(&self, trade: u64) -> Option<&TradeRow>
        ensures found { option_copied result ≡ trade_numbered self.now.rows trade }
        ensures sound { IfSome result (λ row. IsTrade self.now.members self.now.products trade row.now) }
    {
        if trade == 0 {
            return None;
        }
        self.rows.get((trade - 1) as usize)
    }

    /// The alleged and live amounts of the product. It takes no memory.
    pub fn product_sum(&self, product: ProductNo) -> u64
        ensures sum { result ≡ gross_of product self.now.rows }
        ensures most { result ≤ gross_limit }
    {
        self.sums.of_product(product.index())
    }

    /// What the seller owes the buyer in the product, over their live trades. It takes no memory.
    pub fn pair_sum(&self, product: ProductNo, seller: MemberNo, buyer: MemberNo) -> u64
        ensures sum { result ≡ pair_sum_of product seller buyer self.now.rows }
        ensures most { result ≤ gross_limit }
    {
        let pair = (product.index(), seller.index(), buyer.index());
        match place_of(self.sums.members, self.products, pair) {
            Some(place) => self.sums.of_pair(place),
            None => 0,
        }
    }

    /// The member's position in the product, over its live trades. It takes no memory.
    pub fn position(&self, product: ProductNo, member: MemberNo) -> Position
        ensures sold { result.sold ≡ sold_by product member self.now.rows }
        ensures bought { result.bought ≡ bought_by product member self.now.rows }
        ensures most_sold { result.sold ≤ gross_limit }
        ensures most_bought { result.bought ≤ gross_limit }
    {
        let (product, member) = (product.index(), member.index());
        if product >= self.products as usize {
            return Position { sold: 0, bought: 0 };
        }
        if member >= self.sums.members as usize {
            return Position { sold: 0, bought: 0 };
        }
        let (sold, bought) = self.sums.of_member(product, member);
        Position { sold, bought }
    }

    /// All trades of the member, whatever their state, in the order of their numbers. The only error is want of
    /// memory.
    pub fn rows_of(&self, member: MemberNo) -> Result<Vec<TradeRow>, AllocError>
        ensures { IfOk result (λ rows. rows.items ≡ rows_of_member member self.now.rows) }
    {
        picks::of_member(*self.rows.allocator(), &self.rows, member)
    }

    /// The live trades of the seller and the buyer in the product, in the order of their numbers. The only error is
    /// want of memory.
    pub fn pair_rows(
        &self,
        product: ProductNo,
        seller: MemberNo,
        buyer: MemberNo,
    ) -> Result<Vec<TradeRow>, AllocError>
        ensures { IfOk result (λ rows. rows.items ≡ live_between product seller buyer self.now.rows) }
    {
        let alloc = *self.rows.allocator();
        let pair = (product.index(), seller.index(), buyer.index());
        match place_of(self.sums.members, self.products, pair) {
            Some(place) => picks::live_in(alloc, &self.rows, &self.links.by_pair, place),
            None => Ok(Vec::new(alloc)),
        }
    }

    /// The network of the product's trades of this kind: each pair of members has the sum of its trades. A frozen
    /// trade that ends stays frozen, and no longer counts for the product's amounts, so the frozen kinds are asked for
    /// while no frozen trade has ended. The only error is want of memory.
    pub fn network(&self, product: ProductNo, which: Which) -> Result<Network, AllocError>
        requires { AllCount which self.now.rows }
        ensures { IfOk result (λ network. network ≡ network_of which self.now.members product self.now.rows) }
    {
        let alloc = *self.rows.allocator();
        networks::network_of(
            alloc,
            &self.rows,
            &self.links.by_product,
            self.sums.members,
            product,
            which,
        )
    }

    /// How many of the trades a party submitted. It takes no memory.
    pub fn submitted_count(&self) -> u64
        ensures { result ≡ submitted_count self.now.rows }
    {
        self.submitted
    }

    /// Puts a new alleged trade last, and gives its number. It takes no memory, by the room of [`Book::reserve`].
    pub fn allege(
        &mut self,
        seller: MemberNo,
        buyer: MemberNo,
        product: ProductNo,
        amount: Amount,
        day: Day,
        submitter: Side,
    ) -> u64
        requires room { 1 ≤ self.old.spare }
        requires seller { seller < self.old.members }
        requires buyer { buyer < self.old.members }
        requires product { product < self.old.products }
        requires different { seller ≢ buyer }
        requires bound { gross_of product self.old.rows + amount ≤ gross_limit }
        ensures number { result ≡ length self.old.rows + 1 }
        ensures state { self.new ≡ record self.old { rows = with_alleged self.old.rows seller buyer product amount day submitter; spare = self.old.spare - 1 } }
    {
        let number = self.rows.len() as u64 + 1;
        let row = TradeRow {
            number,
            seller,
            buyer,
            product,
            amount,
            day,
            state: TradeState::Alleged,
            submitter: Some(submitter),
            mark: None,
            hold_out: false,
            hold_in: false,
            frozen: false,
        };
        self.submitted += 1;
        self.sums.enter(&row);
        self.links.enter(self.sums.members, &row);
        append(&mut self.rows, row);
        number
    }

    /// Makes an alleged trade live. It takes no memory.
    pub fn affirm(&mut self, trade: u64)
        requires { IsTrue (may_affirm (trade_numbered self.old.rows trade)) }
        ensures { self.new ≡ record self.old { rows = affirmed self.old.rows trade } }
    {
        let row = row_at(&self.rows, trade);
        let agreed = live(row);
        self.sums.settle(&row, &agreed);
        put_row(&mut self.rows, trade, agreed);
    }

    /// A party of this side asks to end a trade: an alleged trade ends, and so does a live one that the other party
    /// has marked; else the trade is marked. It gives the trade's state afterwards, and takes no memory.
    pub fn end_by(&mut self, trade: u64, side: Side) -> TradeState
        requires { IsTrue (may_end side (trade_numbered self.old.rows trade)) }
        ensures state { self.new ≡ record self.old { rows = ended_by side self.old.rows trade } }
        ensures afterwards { IfSome (trade_numbered self.old.rows trade) (λ row. result ≡ (row_ended_by side row).state) }
    {
        let row = row_at(&self.rows, trade);
        let asked = ended_by(row, side);
        self.sums.settle(&row, &asked);
        put_row(&mut self.rows, trade, asked);
        if has_ended(&asked) {
            self.links.leave(trade);
        }
        asked.state
    }

    /// Sets the hold of this side's party on a live trade. It takes no memory.
    pub fn hold(&mut self, trade: u64, side: Side)
        requires { IsTrue (may_hold side (trade_numbered self.old.rows trade)) }
        ensures { self.new ≡ record self.old { rows = held_by side self.old.rows trade } }
    {
        let row = row_at(&self.rows, trade);
        put_row(&mut self.rows, trade, with_hold(row, true, side));
    }

    /// Takes the hold of this side's party on a live trade away. It takes no memory.
    pub fn free(&mut self, trade: u64, side: Side)
        requires { IsTrue (may_free side (trade_numbered self.old.rows trade)) }
        ensures { self.new ≡ record self.old { rows = freed_by side self.old.rows trade } }
    {
        let row = row_at(&self.rows, trade);
        put_row(&mut self.rows, trade, with_hold(row, false, side));
    }

    /// Freezes the live trades of the products that have their flag set, and no others; gives their number. There is
    /// one flag for each product. It takes no memory.
    pub fn freeze(&mut self, products: &[bool]) -> u64
        requires { length products.now ≡ self.old.products }
        ensures state { self.new ≡ record self.old { rows = rows_by_choice products.now self.old.rows } }
        ensures number { result ≡ length (frozen_among self.new.rows) }
        ensures none_ended { FrozenCount self.new.rows }
    {
        freezes::freeze(&mut self.rows, products)
    }

    /// Freezes no trade any more. It takes no memory.
    pub fn thaw(&mut self)
        ensures { self.new ≡ record self.old { rows = thawed self.old.rows } }
    {
        freezes::thaw(&mut self.rows);
    }

    /// Executes a plan: it ends trades, cuts them, and puts new live ones last, in the plan's order. Each trade that
    /// ends or is cut is live and stands in one step, a cut goes from its amount to a smaller one, and no product's
    /// amounts come to more than 10^18 afterwards. It can't fail and takes no memory, by the room of
    /// [`Book::reserve`].
    pub fn execute(&mut self, plan: &[PlanRow])
        requires room { count_of is_new plan.now ≤ self.old.spare }
        requires plan { IsExecutable self.old.members self.old.products self.old.rows plan.now }
        ensures { self.new ≡ record self.old { rows = executed plan.now self.old.rows; spare = self.old.spare - count_of is_new plan.now } }
    {
        execution::execute(&mut self.rows, &mut self.sums, &mut self.links, plan);
    }
}
