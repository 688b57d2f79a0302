//! The frozen trades that nobody holds, sorted by product, seller and buyer: those of a pair stand side by side. A product's
//! are found by search, those of its sellers and pairs by going past the ones in front of them.

ghost use Rattle.std.specs.Prelude.{◌≡◌, ℕ, ◌≤◌, ◌<◌, length, IfOk};
ghost use Rattle.std.specs.List.{AllWithin};
ghost use Rattle.std.specs.List.Sorted.{IsNonDecreasingBy};
ghost use Rattle.command_types.specs.Books.{is_between};
ghost use Rattle.command_types.specs.Plans.{free_rows};
ghost use Rattle.acceptance.specs.Planning.{is_free, is_free_between, trade_place, pair_place, HasPlansOf};

use command_types::TradeRow;
use std::alloc::{AllocError, Global};
use std::marker::Model;
use units_core::ProductNo;

/// A product, and a pair of members that trade in it.
#[derive(Clone, Copy)]
pub(super) struct Pair {
    pub product: ProductNo,
    pub seller: u16,
    pub buyer: u16,
}

fn is_free(row: &TradeRow) -> bool
    ensures { result ≡ is_free row.now }
{
    row.frozen && !(row.hold_out || row.hold_in)
}

fn is_between(row: &TradeRow, pair: &Pair) -> bool
    ensures { result ≡ is_between pair.now.product pair.now.seller pair.now.buyer row.now }
{
    row.product == pair.product && row.seller.0 == pair.seller && row.buyer.0 == pair.buyer
}

/// Whether a trade is one of the pair's that is free.
pub(super) fn is_free_between(row: &TradeRow, pair: &Pair) -> bool
    ensures { result ≡ is_free_between pair.now.product pair.now.seller pair.now.buyer row.now }
{
    is_between(row, pair) && is_free(row)
}

// Where the trades of a pair stand in the order by product, seller and buyer.
fn pair_place(product: u16, seller: u16, buyer: u16) -> u64
    ensures { result ≡ pair_place product seller buyer }
{
    (product as u64 * 65536 + seller as u64) * 65536 + buyer as u64
}

// Where a trade stands in that order.
fn trade_place(row: TradeRow) -> u64
    ensures { result ≡ trade_place row }
{
    pair_place(row.product.0, row.seller.0, row.buyer.0)
}

// How many sorted trades stand before a place, by going past them one by one.
fn passed(rows: &[TradeRow], place: u64) -> usize
    requires { IsNonDecreasingBy trade_place rows.now }
    ensures end { result ≤ length rows.now }
    ensures before { AllWithin (λ row. trade_place row < place) rows.now 0 result }
    ensures behind { AllWithin (λ row. place ≤ trade_place row) rows.now result (length rows.now) }
{
    let mut count = 0;
    while count < rows.len() && trade_place(rows[count]) < place {
        count += 1;
    }
    count
}

// Sorted trades without those that stand before a place.
fn from_place(rows: &[TradeRow], place: u64) -> &[TradeRow]
    requires { IsNonDecreasingBy trade_place rows.now }
    ensures sorted { IsNonDecreasingBy trade_place result.now }
    ensures free { (product seller buyer : ℕ) → place ≤ pair_place product seller buyer → free_rows result.now product seller buyer ≡ free_rows rows.now product seller buyer }
{
    &rows[passed(rows, place)..]
}

// The same, by binary search.
fn search_place(rows: &[TradeRow], place: u64) -> &[TradeRow]
    requires { IsNonDecreasingBy trade_place rows.now }
    ensures sorted { IsNonDecreasingBy trade_place result.now }
    ensures free { (product seller buyer : ℕ) → place ≤ pair_place product seller buyer → free_rows result.now product seller buyer ≡ free_rows rows.now product seller buyer }
{
    let first = rows.partition_point(|row| trade_place(*row) < place);
    &rows[first..]
}

/// Sorted trades without those in front of a seller's in a product, which are gone past one by one.
pub(super) fn from_seller(rows: &[TradeRow], product: ProductNo, seller: u16) -> &[TradeRow]
    requires { IsNonDecreasingBy trade_place rows.now }
    ensures sorted { IsNonDecreasingBy trade_place result.now }
    ensures free { (later buyer : ℕ) → seller ≤ later → free_rows result.now product later buyer ≡ free_rows rows.now product later buyer }
{
    from_place(rows, pair_place(product.0, seller, 0))
}

/// Sorted trades without those in front of a pair's, which are gone past one by one.
pub(super) fn from_pair<'a>(rows: &'a [TradeRow], pair: &Pair) -> &'a [TradeRow]
    requires { IsNonDecreasingBy trade_place rows.now }
    ensures sorted { IsNonDecreasingBy trade_place result.now }
    ensures free { (later : ℕ) → pair.now.buyer ≤ later → free_rows result.now pair.now.product pair.now.seller later ≡ free_rows rows.now pair.now.product pair.now.seller later }
{
    from_place(rows, pair_place(pair.product.0, pair.seller, pair.buyer))
}

/// The part of sorted trades up to a pair's last.
pub(super) fn up_to_pair<'a>(rows: &'a [TradeRow], pair: &Pair) -> &'a [TradeRow]
    requires { IsNonDecreasingBy trade_place rows.now }
    ensures { free_rows result.now pair.now.product pair.now.seller pair.now.buyer ≡ free_rows rows.now pair.now.product pair.now.seller pair.now.buyer }
{
    let place = pair_place(pair.product.0, pair.seller, pair.buyer);
    &rows[..passed(rows, place + 1)]
}

/// The frozen trades that nobody holds, in the order by product, seller and buyer, and then that of their numbers.
#[derive(Drop)]
pub struct FreeTrades {
    rows: Vec<TradeRow>,
}

impl Model for FreeTrades {
    ghost use Rattle.std.specs.Prelude.{List};
    ghost use Rattle.std.specs.List.Sorted.{IsNonDecreasingBy};
    ghost use Rattle.command_types.specs.declared.trade.TradeRow.{TradeRow};
    ghost use Rattle.acceptance.specs.Planning.{trade_place};

    ghost Value = { List TradeRow };

    ghost view = { λ free. free.rows.items };

    ghost invariant = { λ free. IsNonDecreasingBy trade_place free.rows.items };
}

impl FreeTrades {
    /// Those of all trades, whose plans are the plans of these. The only error is want of memory.
    pub fn of(alloc: Global, trades: &[TradeRow]) -> Result<FreeTrades, AllocError>
        ensures { IfOk result (HasPlansOf trades.now) }
    {
        let mut rows = Vec::new(alloc);
        for row in trades {
            if is_free(row) {
                rows.push(*row)?;
            }
        }
        rows.sort_by_cached_key(|row| trade_place(*row))?;
        Ok(FreeTrades { rows })
    }

    /// How many they are.
    pub fn count(&self) -> usize
        ensures { result ≡ length self.now }
    {
        self.rows.len()
    }

    /// The part from a product's first on.
    pub(super) fn from_product(&self, product: ProductNo) -> &[TradeRow]
        ensures sorted { IsNonDecreasingBy trade_place result.now }
        ensures free { (seller buyer : ℕ) → free_rows result.now product seller buyer ≡ free_rows self.now product seller buyer }
    {
        search_place(&self.rows, pair_place(product.0, 0, 0))
    }
}
