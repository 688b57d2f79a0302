//! The fields of each change, read behind its tag.
ghost use Rattle.std.specs.Prelude.{◌≡◌};
ghost use Rattle.record_codec.specs.Laws.{Gives, Reads};
ghost use Rattle.record_codec.specs.Reading.{trade_fields, tolerance_fields, freeze_fields, begin_fields, post_fields, fields_at, change_at};

use crate::fault::ReadFault;
use crate::fields::Unread;
use crate::solution::read_solutions;
use command_types::{Listed, What};
use std::alloc::Global;
use units_core::MOST_PRODUCTS;

#[tactic(auto, unfolding(crate::specs::Reading::trade_fields))]
fn read_trade(unread: &mut Unread) -> Result<What, ReadFault>
    ensures { Reads (λ what. (what, unread.new.rest.now)) result (trade_fields unread.old.rest.now) }
{
    let seller = unread.name()?;
    let buyer = unread.name()?;
    let product = unread.name()?;
    let amount = unread.amount()?;
    let day = unread.day()?;
    Ok(What::Trade {
        seller,
        buyer,
        product,
        amount,
        day,
    })
}

#[tactic(auto, unfolding(crate::specs::Reading::tolerance_fields))]
fn read_tolerance(unread: &mut Unread) -> Result<What, ReadFault>
    ensures { Reads (λ what. (what, unread.new.rest.now)) result (tolerance_fields unread.old.rest.now) }
{
    let other = unread.name()?;
    let product = unread.name()?;
    let side = unread.side()?;
    let floor = unread.level()?;
    let ceiling = unread.ceiling()?;
    Ok(What::Tol {
        other,
        product,
        side,
        floor,
        ceiling,
    })
}

#[tactic(auto, unfolding(crate::specs::Reading::freeze_fields))]
fn read_freeze(unread: &mut Unread) -> Result<What, ReadFault>
    ensures { Reads (λ what. (what, unread.new.rest.now)) result (freeze_fields unread.old.rest.now) }
{
    let day = unread.day()?;
    Ok(What::Freeze { day })
}

#[tactic(auto, unfolding(crate::specs::Reading::begin_fields))]
fn read_begin(unread: &mut Unread) -> Result<What, ReadFault>
    ensures { Reads (λ what. (what, unread.new.rest.now)) result (begin_fields unread.old.rest.now) }
{
    let cycle = unread.number()?;
    let mode = unread.mode()?;
    Ok(What::Begin { cycle, mode })
}

#[tactic(auto, unfolding(crate::specs::Reading::post_fields))]
fn read_post(alloc: Global, unread: &mut Unread) -> Result<What, ReadFault>
    ensures { Gives (λ what. (what, unread.new.rest.now)) result (post_fields unread.old.rest.now) }
{
    let cycle = unread.number()?;
    let version = unread.number()?;
    let count = unread.count(MOST_PRODUCTS as u16)?;
    let solutions = read_solutions(alloc, count, unread)?;
    Ok(What::Post {
        cycle,
        version,
        solutions: Listed::new(solutions),
    })
}

// The fields that belong to a tag.
#[tactic(auto, unfolding(crate::specs::Reading::numbered_fields, crate::specs::Reading::versioned_fields))]
fn read_fields(alloc: Global, tag: u8, unread: &mut Unread) -> Result<What, ReadFault>
    ensures { Gives (λ what. (what, unread.new.rest.now)) result (fields_at tag unread.old.rest.now) }
{
    match tag {
        1 => read_trade(unread),
        2 => {
            let trade = unread.number()?;
            Ok(What::Affirm { trade })
        }
        3 => {
            let trade = unread.number()?;
            Ok(What::End { trade })
        }
        4 => {
            let trade = unread.number()?;
            Ok(What::Hold { trade })
        }
        5 => {
            let trade = unread.number()?;
            Ok(What::Free { trade })
        }
        6 => read_tolerance(unread),
        7 => read_freeze(unread),
        8 => read_begin(unread),
        9 => read_post(alloc, unread),
        10 => {
            let cycle = unread.number()?;
            let version = unread.number()?;
            Ok(What::Accept { cycle, version })
        }
        11 => {
            let cycle = unread.number()?;
            let version = unread.number()?;
            Ok(What::Decline { cycle, version })
        }
        12 => {
            let cycle = unread.number()?;
            Ok(What::Cancel { cycle })
        }
        _ => Err(ReadFault::Bad {
            left: 1 + unread.rest.len(),
        }),
    }
}

#[tactic(auto, unfolding(crate::specs::Reading::change_at))]
pub(crate) fn read_change(alloc: Global, unread: &mut Unread) -> Result<What, ReadFault>
    ensures { Gives (λ what. (what, unread.new.rest.now)) result (change_at unread.old.rest.now) }
{
    let [tag, rest @ ..] = unread.rest else {
        return Err(unread.bad());
    };
    unread.rest = rest;
    read_fields(alloc, *tag, unread)
}
