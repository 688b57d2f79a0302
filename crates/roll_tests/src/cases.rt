//! A roll of what is written over one roster, and what it comes to.

use crate::sameness::is_same;
use crate::sheets::{Date, Sheet, base_of};
use base_fitting::fits;
use command_types::{Base, FileFault, Roster};
use period_roll::{Cause, RollFault, roll};
use std::alloc::{AllocError, Global};
use std::test::Fail;
use trade_file::read_roster;
use units_core::Day;

/// The dealers A and B, the customer C, and the products P and Q.
pub const OLD: &str =
    "name,role,key\nA,dealer,KA\nB,dealer,KB\nC,customer,KC\nOPS,operator,KO\nP,product,2027-03-01\nQ,product,2026-06-01\n";

/// A roll: the new roster, and the day by which products are left out, if there is one.
pub type Period<'a> = (&'a str, Option<Date>);

fn roster(alloc: Global, text: &str) -> Result<Roster, FileFault> {
    read_roster(alloc, text.as_bytes())
}

fn day(date: Option<Date>) -> Result<Option<Day>, AllocError> {
    match date {
        None => Ok(None),
        Some((year, month, day)) => Ok(Some(Day::new(year, month, day).ok_or(AllocError)?)),
    }
}

/// What a roll of this sheet from the old roster gives; nothing where the sheet is not of that roster.
pub fn rolled(
    alloc: Global,
    old: &str,
    period: Period,
    sheet: &Sheet,
) -> Result<Option<Result<Base, RollFault>>, Fail> {
    let old = roster(alloc, old)?;
    let new = roster(alloc, period.0)?;
    let matured = day(period.1)?;
    let base = base_of(alloc, &old, sheet)?;
    if !fits(&base, &old) {
        return Ok(None);
    }
    let made = roll(alloc, &old, &new, matured, Some(base));
    Ok(Some(made))
}

/// Whether a roll gives this sheet over the new roster.
pub fn is_rolled(
    alloc: Global,
    period: Period,
    before: &Sheet,
    after: &Sheet,
) -> Result<bool, Fail> {
    let wanted = base_of(alloc, &roster(alloc, period.0)?, after)?;
    match rolled(alloc, OLD, period, before)? {
        Some(Ok(made)) => Ok(is_same(&made, &wanted)),
        _ => Ok(false),
    }
}

/// Whether a roll is refused for this cause.
pub fn is_refused(
    alloc: Global,
    period: Period,
    sheet: &Sheet,
    cause: Cause,
) -> Result<bool, Fail> {
    match rolled(alloc, OLD, period, sheet)? {
        Some(Err(fault)) => Ok(fault == RollFault::Refused(cause)),
        _ => Ok(false),
    }
}

/// What a roll gives where a cycle is open.
pub fn rolled_in_cycle(alloc: Global, new: &str) -> Result<Result<Base, RollFault>, Fail> {
    let old = roster(alloc, OLD)?;
    let new = roster(alloc, new)?;
    Ok(roll(alloc, &old, &new, None, None))
}
