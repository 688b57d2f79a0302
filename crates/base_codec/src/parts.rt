//! The lists of a base, read one item after another.
ghost use Rattle.std.specs.Prelude.{◌≡◌, ◌<◌, ◌+◌, ◌*◌, IfOk};
ghost use Rattle.command_types.specs.Tolerances.{side_place, setting_place};
ghost use Rattle.record_codec.specs.Laws.{Gives, Reads};
ghost use Rattle.base_codec.specs.Reading.{names_each, names_at, setting_at, settings_each, settings_at, trade_at, trades_each, trades_at};

use crate::fields::{read_holds, read_party, read_short, read_state};
use command_types::{Level, Side, ToleranceRow, TradeRow};
use record_codec::ReadFault;
use record_codec::fields::Unread;
use std::alloc::Global;
use units_core::{MemberNo, Name, ProductNo};

fn read_each_name(alloc: Global, count: u16, unread: &mut Unread) -> Result<Vec<Name>, ReadFault>
    ensures { Gives (λ names. (names.items, unread.new.rest.now)) result (names_each count unread.old.rest.now) }
{
    let mut names = Vec::new(alloc);
    for _ in 0..count {
        let name = unread.name()?;
        names.push(name)?;
    }
    Ok(names)
}

#[tactic(auto, unfolding(crate::specs::Reading::names_at))]
pub(crate) fn read_names(alloc: Global, unread: &mut Unread) -> Result<Vec<Name>, ReadFault>
    ensures { Gives (λ names. (names.items, unread.new.rest.now)) result (names_at unread.old.rest.now) }
{
    let count = read_short(unread)?;
    read_each_name(alloc, count, unread)
}

// Where a setting stands in the order of settings.
fn place(member: u16, product: u16, other: u16, side: Side) -> u64
    ensures place { result ≡ ((member * 65536 + product) * 65536 + other) * 2 + side_place side }
    ensures small { result < 562949953421312 }
{
    let side = match side {
        Side::Out => 0,
        Side::In => 1,
    };
    let pair = (u64::from(member) * 65536 + u64::from(product)) * 65536 + u64::from(other);
    pair * 2 + side
}

// A setting, whose place is not before the next one, and its place.
#[tactic(auto, unfolding(crate::specs::Reading::setting_at))]
fn read_setting(next: u64, unread: &mut Unread) -> Result<(ToleranceRow, u64), ReadFault>
    ensures reads { Reads (λ p. (p.0, unread.new.rest.now)) result (setting_at next unread.old.rest.now) }
    ensures place { IfOk result (λ p. p.1 ≡ setting_place p.0) }
    ensures small { IfOk result (λ p. p.1 < 562949953421312) }
{
    let left = unread.rest.len();
    let member = read_short(unread)?;
    let product = read_short(unread)?;
    let other = read_short(unread)?;
    let side = unread.side()?;
    let floor = unread.level()?;
    let ceiling = unread.ceiling()?;
    let place = place(member, product, other, side);
    if next > place {
        return Err(ReadFault::Bad { left });
    }
    let row = ToleranceRow {
        member: MemberNo(member),
        product: ProductNo(product),
        other: MemberNo(other),
        side,
        floor,
        ceiling,
    };
    Ok((row, place))
}

fn read_each_setting(
    alloc: Global,
    count: u64,
    unread: &mut Unread,
) -> Result<Vec<ToleranceRow>, ReadFault>
    ensures { Gives (λ rows. (rows.items, unread.new.rest.now)) result (settings_each count 0 unread.old.rest.now) }
{
    let mut rows = Vec::new(alloc);
    let mut next = 0;
    for _ in 0..count {
        let (row, place) = read_setting(next, unread)?;
        // The check of a loop that keeps such rows has to see the type of their ceiling in it.
        let ceiling: Option<Level> = row.ceiling;
        let _ = ceiling;
        rows.push(row)?;
        next = place + 1;
    }
    Ok(rows)
}

#[tactic(auto, unfolding(crate::specs::Reading::settings_at))]
pub(crate) fn read_settings(
    alloc: Global,
    unread: &mut Unread,
) -> Result<Vec<ToleranceRow>, ReadFault>
    ensures { Gives (λ rows. (rows.items, unread.new.rest.now)) result (settings_at unread.old.rest.now) }
{
    let count = unread.number()?;
    read_each_setting(alloc, count, unread)
}

// The trade with this number.
#[tactic(auto, unfolding(crate::specs::Reading::trade_at))]
fn read_trade(number: u64, unread: &mut Unread) -> Result<TradeRow, ReadFault>
    ensures { Reads (λ row. (row, unread.new.rest.now)) result (trade_at number unread.old.rest.now) }
{
    let seller = read_short(unread)?;
    let buyer = read_short(unread)?;
    let product = read_short(unread)?;
    let amount = unread.amount()?;
    let day = unread.day()?;
    let state = read_state(unread)?;
    let submitter = read_party(unread)?;
    let mark = read_party(unread)?;
    let (hold_out, hold_in) = read_holds(unread)?;
    Ok(TradeRow {
        number,
        seller: MemberNo(seller),
        buyer: MemberNo(buyer),
        product: ProductNo(product),
        amount,
        day,
        state,
        submitter,
        mark,
        hold_out,
        hold_in,
        frozen: false,
    })
}

fn read_each_trade(
    alloc: Global,
    count: u64,
    unread: &mut Unread,
) -> Result<Vec<TradeRow>, ReadFault>
    ensures { Gives (λ rows. (rows.items, unread.new.rest.now)) result (trades_each count 1 unread.old.rest.now) }
{
    let mut rows = Vec::new(alloc);
    for index in 0..count {
        let row = read_trade(index + 1, unread)?;
        rows.push(row)?;
    }
    Ok(rows)
}

#[tactic(auto, unfolding(crate::specs::Reading::trades_at))]
pub(crate) fn read_trades(alloc: Global, unread: &mut Unread) -> Result<Vec<TradeRow>, ReadFault>
    ensures { Gives (λ rows. (rows.items, unread.new.rest.now)) result (trades_at unread.old.rest.now) }
{
    let count = unread.number()?;
    read_each_trade(alloc, count, unread)
}
