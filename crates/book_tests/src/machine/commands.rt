//! Commands, in short.

use super::words::Word;
use crate::market::{Posted, solutions_of};
use command_types::{Level, Listed, Mode, Side, What};
use std::alloc::{AllocError, Global};
use std::test::Fail;
use units_core::{Amount, Day};

/// A command.
#[derive(Clone, Copy)]
pub enum Said {
    /// The seller, the buyer and the amount, in the product P on 2026-03-02.
    Trade(Word, Word, u64),
    Affirm(u64),
    End(u64),
    Hold(u64),
    Free(u64),
    /// The other member and the floor of what the asker owes it in the product P.
    Tol(Word, u64),
    Nets(Word),
    Statement,
    /// On 2026-03-31.
    Freeze,
    /// The cycle and the mode.
    Begin(u64, Mode),
    /// The product, the seller and the buyer of an amount of 1, the draft's size and its sum.
    Row(Word, Word, Word, u32, u64),
    /// The product, the member, its value and the draft's size.
    Pot(Word, Word, i32, u32),
    /// The version of cycle 1, and its one solution.
    Post(u64, Posted),
    /// The same with two solutions.
    PostTwo(u64, Posted, Posted),
    /// The same with none.
    PostNone(u64),
    /// The cycle and the version.
    Fetch(u64, u64),
    /// The cycle and the version.
    Accept(u64, u64),
    /// The cycle and the version.
    Decline(u64, u64),
    Cancel(u64),
}

fn trade(seller: Word, buyer: Word, size: u64) -> Option<What> {
    Some(What::Trade {
        seller: seller.name(),
        buyer: buyer.name(),
        product: Word::P.name(),
        amount: Amount::new(size)?,
        day: Day::new(2026, 3, 2)?,
    })
}

fn tol(other: Word, floor: u64) -> Option<What> {
    Some(What::Tol {
        other: other.name(),
        product: Word::P.name(),
        side: Side::Out,
        floor: Level::new(floor)?,
        ceiling: None,
    })
}

fn row(product: Word, seller: Word, buyer: Word, size: u32, sum: u64) -> Option<What> {
    Some(What::Row {
        product: product.name(),
        seller: seller.name(),
        buyer: buyer.name(),
        amount: Amount::new(1)?,
        size,
        sum,
    })
}

fn freeze() -> Option<What> {
    let day = Day::new(2026, 3, 31)?;
    Some(What::Freeze { day })
}

// The commands of trades.
fn plain(said: Said) -> Option<What> {
    match said {
        Said::Trade(seller, buyer, size) => trade(seller, buyer, size),
        Said::Affirm(trade) => Some(What::Affirm { trade }),
        Said::End(trade) => Some(What::End { trade }),
        Said::Hold(trade) => Some(What::Hold { trade }),
        Said::Free(trade) => Some(What::Free { trade }),
        Said::Tol(other, floor) => tol(other, floor),
        Said::Nets(product) => Some(What::Nets {
            product: product.name(),
        }),
        Said::Statement => Some(What::Statement),
        _ => None,
    }
}

// The commands of a cycle that post nothing.
fn cyclic(said: Said) -> Option<What> {
    match said {
        Said::Freeze => freeze(),
        Said::Begin(cycle, mode) => Some(What::Begin { cycle, mode }),
        Said::Row(product, seller, buyer, size, sum) => row(product, seller, buyer, size, sum),
        Said::Pot(product, member, value, size) => Some(What::Pot {
            product: product.name(),
            member: member.name(),
            value,
            size,
        }),
        Said::Fetch(cycle, version) => Some(What::Fetch { cycle, version }),
        Said::Accept(cycle, version) => Some(What::Accept { cycle, version }),
        Said::Decline(cycle, version) => Some(What::Decline { cycle, version }),
        Said::Cancel(cycle) => Some(What::Cancel { cycle }),
        _ => plain(said),
    }
}

fn post(alloc: Global, version: u64, posted: &[Posted]) -> Result<What, Fail> {
    let solutions = Listed::new(solutions_of(alloc, posted)?);
    Ok(What::Post {
        cycle: 1,
        version,
        solutions,
    })
}

/// The command. Its amounts are such.
pub fn command_of(alloc: Global, said: Said) -> Result<What, Fail> {
    match said {
        Said::Post(version, posted) => post(alloc, version, &[posted]),
        Said::PostTwo(version, first, second) => post(alloc, version, &[first, second]),
        Said::PostNone(version) => post(alloc, version, &[]),
        _ => Ok(cyclic(said).ok_or(AllocError)?),
    }
}
