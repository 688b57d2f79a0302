//! The rows of a product's limits where no member set a floor or a ceiling, nothing is held, and not every pair is open: the
//! rows of a seller's trades, and between them those of the dealers to whom he may sell more.

ghost use Rattle.std.specs.Prelude.{◌≡◌, ◌≢◌, ◌-◌, ◌≤◌, ◌++◌, [], length, None, IfSome, IfOk, OnOk};
ghost use Rattle.network_laws.specs.Networks.{AreRows, IsGoodRow};
ghost use Rattle.command_types.specs.Books.{listed_below, listed_pairs};
ghost use Rattle.command_types.specs.declared.cycle.Mode.{Mode};
ghost use Rattle.command_types.specs.Tolerances.{pair_upper};
ghost use Rattle.tolerance_sets.specs.OpenPairs.{listed_from};
ghost use Rattle.file_market.specs.Untouched.{IsNext, HasNoNext, grows_with, row_with, seller_row, market_row};
ghost use Rattle.units_core.specs.declared.limits.TheConstants.{MOST_MEMBERS};

use crate::buyers::{buyers_of, is_dealer, with_dealers};
use command_types::{MemberRow, Mode};
use network_laws::{LimitRow, Row, first_row};
use std::alloc::{AllocError, Global};
use units_core::MOST_DEALERS;

/// A pair, with the cursor of its row in what members owe one another.
#[derive(Clone, Copy)]
pub(super) struct SellerPlace {
    pub seller: u16,
    pub buyer: u16,
    pub row_at: usize,
}

// Adds the row of a pair without trades, if it has one. Of these buyers the seller may sell more to dealers.
fn add_unsold(
    rows: &mut Vec<LimitRow>,
    buyers: &[MemberRow],
    seller: u16,
    buyer: u16,
) -> Result<(), AllocError>
    ensures { OnOk result (rows.new.items ≡ rows.old.items ++ row_with buyers.now seller buyer 0) }
{
    if !is_dealer(buyers, buyer) {
        return Ok(());
    }
    if seller == buyer {
        return Ok(());
    }
    rows.push(LimitRow {
        seller,
        buyer,
        lower: 0,
        upper: None,
    })?;
    Ok(())
}

// Adds the rows of a seller's pairs without trades, from one on and below another.
fn add_all_unsold(
    rows: &mut Vec<LimitRow>,
    buyers: &[MemberRow],
    from: SellerPlace,
    to: u16,
) -> Result<(), AllocError>
    requires to { from.buyer ≤ to }
    requires few { length buyers.now ≤ MOST_MEMBERS }
    ensures { OnOk result (rows.new.items ≡ rows.old.items ++ listed_from from.buyer (to - from.buyer) (seller_row buyers.now [] from.seller)) }
{
    for buyer in from.buyer..to.min(buyers.len() as u16) {
        add_unsold(rows, buyers, from.seller, buyer)?;
    }
    Ok(())
}

// The most of a pair with trades.
fn upper_of(buyers: &[MemberRow], row: Row) -> Option<u64>
    requires { row.seller ≢ row.buyer }
    ensures { result ≡ pair_upper (grows_with buyers.now row.seller row.buyer) row.amount None }
{
    if is_dealer(buyers, row.buyer) {
        None
    } else {
        Some(row.amount)
    }
}

// Adds the row of a pair with trades.
fn add_sold(rows: &mut Vec<LimitRow>, buyers: &[MemberRow], row: Row) -> Result<(), AllocError>
    requires { IsGoodRow MOST_MEMBERS row }
    ensures { OnOk result (rows.new.items ≡ rows.old.items ++ row_with buyers.now row.seller row.buyer row.amount) }
{
    rows.push(LimitRow {
        seller: row.seller,
        buyer: row.buyer,
        lower: 0,
        upper: upper_of(buyers, row),
    })?;
    Ok(())
}

// The row at the cursor, if it is the seller's.
fn next_sold(network: &[Row], at: SellerPlace) -> Option<Row>
    ensures next { IfSome result (IsNext network.now at) }
    ensures none { result ≡ None → HasNoNext network.now at }
{
    if at.row_at >= network.len() {
        return None;
    }
    let row = network[at.row_at];
    if row.seller == at.seller {
        Some(row)
    } else {
        None
    }
}

// Adds the rows of a seller's pairs with so many members, of whom he may sell more to the dealers among these buyers.
fn add_seller(
    rows: &mut Vec<LimitRow>,
    network: &[Row],
    buyers: &[MemberRow],
    seller: u16,
    members: u16,
) -> Result<(), AllocError>
    requires sales { AreRows members network.now }
    requires few { members ≤ MOST_MEMBERS }
    requires few_buyers { length buyers.now ≤ MOST_MEMBERS }
    ensures { OnOk result (rows.new.items ≡ rows.old.items ++ listed_below members (seller_row buyers.now network.now seller)) }
{
    let mut at = SellerPlace {
        seller,
        buyer: 0,
        row_at: first_row(network, seller, 0),
    };
    while let Some(row) = next_sold(network, at) {
        add_all_unsold(rows, buyers, at, row.buyer)?;
        add_sold(rows, buyers, row)?;
        at.buyer = row.buyer + 1;
        at.row_at += 1;
    }
    add_all_unsold(rows, buyers, at, members)?;
    Ok(())
}

// How many rows to make room for: those of trades, and one for each two dealers.
fn room_for(mode: Mode, members: &[MemberRow], network: &[Row]) -> usize {
    let dealers = match mode {
        Mode::Hybrid => members.len().min(MOST_DEALERS),
        Mode::Conservative | Mode::Free => 0,
    };
    network.len() + dealers * dealers
}

/// The rows of all pairs, in their order, in a mode that does not open every pair.
pub(super) fn untouched_rows(
    alloc: Global,
    mode: Mode,
    members: &[MemberRow],
    network: &[Row],
) -> Result<Vec<LimitRow>, AllocError>
    requires mode { mode ≢ Mode.Free }
    requires few { length members.now ≤ MOST_MEMBERS }
    requires sales { AreRows (length members.now) network.now }
    ensures { IfOk result (λ rows. rows.items ≡ listed_pairs (length members.now) (market_row mode members.now network.now)) }
{
    let mut rows = Vec::with_capacity(alloc, room_for(mode, members, network))?;
    let all = with_dealers(members);
    for seller in 0..members.len() as u16 {
        let buyers = buyers_of(mode, members, all, seller);
        add_seller(&mut rows, network, buyers, seller, members.len() as u16)?;
    }
    Ok(rows)
}
