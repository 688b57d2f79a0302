//! Bases in short, and how they are made.

use super::words::Word;
use super::words::Word::{A, B, C, P};
use command_types::{Base, Level, Listed, Side, ToleranceRow, TradeRow, TradeState};
use std::alloc::{AllocError, Global};
use units_core::{Amount, Day, MemberNo, Name, ProductNo};

/// A year, a month and a day.
pub type Date = (u16, u8, u8);

/// A setting: the places of its member, of the product and of the other member, its side, the floor and the ceiling.
pub type Limit = (u16, u16, u16, Side, u64, Option<u64>);

/// A trade.
#[derive(Clone, Copy)]
pub struct Deal {
    pub seller: u16,
    pub buyer: u16,
    pub product: u16,
    pub amount: u64,
    pub day: Date,
    pub state: TradeState,
    pub submitter: Option<Side>,
    pub mark: Option<Side>,
    pub hold_out: bool,
    pub hold_in: bool,
}

/// What is written of a base.
#[derive(Clone, Copy)]
pub struct Sheet<'a> {
    pub position: u64,
    pub cycle: u64,
    pub version: u64,
    pub members: &'a [Word],
    pub products: &'a [Word],
    pub settings: &'a [Limit],
    pub deals: &'a [Deal],
}

/// A owes B 10, and B has affirmed.
pub const LIVE: Deal = Deal {
    seller: 0,
    buyer: 1,
    product: 0,
    amount: 10,
    day: (2026, 3, 2),
    state: TradeState::Live,
    submitter: Some(Side::Out),
    mark: None,
    hold_out: false,
    hold_in: false,
};

/// B has not affirmed yet.
pub const ALLEGED: Deal = Deal {
    state: TradeState::Alleged,
    ..LIVE
};

/// Nothing was done yet.
pub const EMPTY: Sheet = Sheet {
    position: 0,
    cycle: 0,
    version: 0,
    members: &[A, B, C],
    products: &[P],
    settings: &[],
    deals: &[],
};

fn put_names(names: &mut Vec<Name>, words: &[Word]) -> Result<(), AllocError> {
    for word in words {
        names.push(word.name())?;
    }
    Ok(())
}

fn names(alloc: Global, words: &[Word]) -> Result<Listed<Name>, AllocError> {
    let mut names = Vec::new(alloc);
    put_names(&mut names, words)?;
    Ok(Listed::new(names))
}

fn ceiling(most: Option<u64>) -> Result<Option<Level>, AllocError> {
    match most {
        None => Ok(None),
        Some(most) => Ok(Some(Level::new(most).ok_or(AllocError)?)),
    }
}

fn put_settings(rows: &mut Vec<ToleranceRow>, limits: &[Limit]) -> Result<(), AllocError> {
    for limit in limits {
        rows.push(ToleranceRow {
            member: MemberNo(limit.0),
            product: ProductNo(limit.1),
            other: MemberNo(limit.2),
            side: limit.3,
            floor: Level::new(limit.4).ok_or(AllocError)?,
            ceiling: ceiling(limit.5)?,
        })?;
    }
    Ok(())
}

fn settings(alloc: Global, limits: &[Limit]) -> Result<Listed<ToleranceRow>, AllocError> {
    let mut rows = Vec::new(alloc);
    put_settings(&mut rows, limits)?;
    Ok(Listed::new(rows))
}

fn trade(number: u64, deal: &Deal) -> Option<TradeRow> {
    Some(TradeRow {
        number,
        seller: MemberNo(deal.seller),
        buyer: MemberNo(deal.buyer),
        product: ProductNo(deal.product),
        amount: Amount::new(deal.amount)?,
        day: Day::new(deal.day.0, deal.day.1, deal.day.2)?,
        state: deal.state,
        submitter: deal.submitter,
        mark: deal.mark,
        hold_out: deal.hold_out,
        hold_in: deal.hold_in,
        frozen: false,
    })
}

fn put_trades(rows: &mut Vec<TradeRow>, deals: &[Deal]) -> Result<(), AllocError> {
    for deal in deals {
        let number = (rows.len() as u64).saturating_add(1);
        rows.push(trade(number, deal).ok_or(AllocError)?)?;
    }
    Ok(())
}

fn trades(alloc: Global, deals: &[Deal]) -> Result<Listed<TradeRow>, AllocError> {
    let mut rows = Vec::new(alloc);
    put_trades(&mut rows, deals)?;
    Ok(Listed::new(rows))
}

/// The base that is written so.
pub fn base_of(alloc: Global, sheet: &Sheet) -> Result<Base, AllocError> {
    Ok(Base {
        position: sheet.position,
        cycle: sheet.cycle,
        version: sheet.version,
        members: names(alloc, sheet.members)?,
        products: names(alloc, sheet.products)?,
        tolerances: settings(alloc, sheet.settings)?,
        trades: trades(alloc, sheet.deals)?,
    })
}
