//! Bases in short, and how they are made.

use command_types::{Base, Level, Listed, Roster, Side, ToleranceRow, TradeRow, TradeState};
use std::alloc::{AllocError, Global};
use units_core::{Amount, Day, MemberNo, Name, ProductNo};

/// A year, a month and a day.
pub type Date = (u16, u8, u8);

/// A setting: the places of its member, of the product and of the other member, its side, the floor and the ceiling.
pub type Limit = (u16, u16, u16, Side, u64, u64);

/// A trade.
#[derive(Clone, Copy)]
pub struct Deal {
    pub seller: u16,
    pub buyer: u16,
    pub product: u16,
    pub amount: u64,
    pub day: Date,
    pub state: TradeState,
    pub submitter: Option<Side>,
    pub mark: Option<Side>,
    pub hold_out: bool,
    pub hold_in: bool,
}

/// What is written of a base beside its names.
#[derive(Clone, Copy)]
pub struct Sheet<'a> {
    pub position: u64,
    pub settings: &'a [Limit],
    pub deals: &'a [Deal],
}

/// The first member owes the second 10 in the first product, and it has affirmed.
pub const LIVE: Deal = Deal {
    seller: 0,
    buyer: 1,
    product: 0,
    amount: 10,
    day: (2026, 3, 2),
    state: TradeState::Live,
    submitter: Some(Side::Out),
    mark: None,
    hold_out: false,
    hold_in: false,
};

fn trade(number: u64, deal: &Deal) -> Option<TradeRow> {
    Some(TradeRow {
        number,
        seller: MemberNo(deal.seller),
        buyer: MemberNo(deal.buyer),
        product: ProductNo(deal.product),
        amount: Amount::new(deal.amount)?,
        day: Day::new(deal.day.0, deal.day.1, deal.day.2)?,
        state: deal.state,
        submitter: deal.submitter,
        mark: deal.mark,
        hold_out: deal.hold_out,
        hold_in: deal.hold_in,
        frozen: false,
    })
}

fn trades(alloc: Global, deals: &[Deal]) -> Result<Listed<TradeRow>, AllocError> {
    let mut rows = Vec::new(alloc);
    let mut number = 1u64;
    for deal in deals {
        rows.push(trade(number, deal).ok_or(AllocError)?)?;
        number = number.saturating_add(1);
    }
    Ok(Listed::new(rows))
}

fn settings(alloc: Global, limits: &[Limit]) -> Result<Listed<ToleranceRow>, AllocError> {
    let mut rows = Vec::new(alloc);
    for limit in limits {
        rows.push(ToleranceRow {
            member: MemberNo(limit.0),
            product: ProductNo(limit.1),
            other: MemberNo(limit.2),
            side: limit.3,
            floor: Level::new(limit.4).ok_or(AllocError)?,
            ceiling: Some(Level::new(limit.5).ok_or(AllocError)?),
        })?;
    }
    Ok(Listed::new(rows))
}

fn members(alloc: Global, roster: &Roster) -> Result<Listed<Name>, AllocError> {
    let mut names = Vec::new(alloc);
    for row in roster.members() {
        names.push(row.name)?;
    }
    Ok(Listed::new(names))
}

fn products(alloc: Global, roster: &Roster) -> Result<Listed<Name>, AllocError> {
    let mut names = Vec::new(alloc);
    for row in roster.products() {
        names.push(row.name)?;
    }
    Ok(Listed::new(names))
}

/// The base that is written so, with the roster's names, after the third version of the second cycle.
pub fn base_of(alloc: Global, roster: &Roster, sheet: &Sheet) -> Result<Base, AllocError> {
    Ok(Base {
        position: sheet.position,
        cycle: 2,
        version: 3,
        members: members(alloc, roster)?,
        products: products(alloc, roster)?,
        tolerances: settings(alloc, sheet.settings)?,
        trades: trades(alloc, sheet.deals)?,
    })
}
