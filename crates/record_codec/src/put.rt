//! Fields, written behind what stands. Where memory runs out, nothing is said of the bytes that stand then.
ghost use Rattle.std.specs.Prelude.{◌≡◌, ◌∷◌, ◌++◌, ◌≤◌, IsTrue, OnOk, IfSome};
ghost use Rattle.std.specs.Int.{w16, to_le_bytes};
ghost use Rattle.units_core.specs.Name.{is_name};
ghost use Rattle.command_types.specs.Spelling.{name_spelling, day_spelling, ceiling_spelling, number_spelling, fields_spelling, AreFields, IsDay, IsLevel, posted, most_solutions, side_byte, mode_byte};
ghost use Rattle.command_types.specs.declared.ask.What.TheVariants.{Trade, Tol};
ghost use Rattle.command_types.specs.Machine.{changes};

use crate::put_solution::put_solutions;
use command_types::{Level, Mode, Side, What};
use std::alloc::AllocError;
use units_core::{Amount, Day, Name};

/// A name, behind a byte with its length.
pub fn put_name(out: &mut Vec<u8>, name: &Name) -> Result<(), AllocError>
    ensures appends { OnOk result (out.new.items ≡ out.old.items ++ name_spelling name.now) }
    ensures form { OnOk result (IsTrue (is_name name.now)) }
{
    let text = name.text();
    out.push(text.len() as u8)?;
    out.extend_from_slice(text)?;
    Ok(())
}

/// A number, in eight bytes.
pub fn put_number(out: &mut Vec<u8>, number: u64) -> Result<(), AllocError>
    ensures { OnOk result (out.new.items ≡ out.old.items ++ number_spelling number) }
{
    out.extend_from_slice(&number.to_le_bytes())?;
    Ok(())
}

/// A number, in two bytes.
pub fn put_short(out: &mut Vec<u8>, number: u16) -> Result<(), AllocError>
    ensures { OnOk result (out.new.items ≡ out.old.items ++ to_le_bytes w16 number) }
{
    out.extend_from_slice(&number.to_le_bytes())?;
    Ok(())
}

/// A year in two bytes, the month and the day.
pub fn put_day(out: &mut Vec<u8>, day: Day) -> Result<(), AllocError>
    ensures appends { OnOk result (out.new.items ≡ out.old.items ++ day_spelling day) }
    ensures form { OnOk result (IsDay day) }
{
    out.extend_from_slice(&day.year().to_le_bytes())?;
    out.push(day.month())?;
    out.push(day.day())?;
    Ok(())
}

/// A floor or a ceiling that is given.
pub fn put_level(out: &mut Vec<u8>, level: Level) -> Result<(), AllocError>
    ensures appends { OnOk result (out.new.items ≡ out.old.items ++ number_spelling level) }
    ensures form { OnOk result (IsLevel level) }
{
    put_number(out, level.get())
}

/// A ceiling, behind a byte that says whether one is given.
pub fn put_ceiling(out: &mut Vec<u8>, ceiling: Option<Level>) -> Result<(), AllocError>
    ensures appends { OnOk result (out.new.items ≡ out.old.items ++ ceiling_spelling ceiling) }
    ensures form { OnOk result (IfSome ceiling IsLevel) }
{
    match ceiling {
        None => out.push(0)?,
        Some(level) => {
            out.push(1)?;
            put_level(out, level)?;
        }
    }
    Ok(())
}

/// The byte that stands for a side.
pub fn byte_of_side(side: Side) -> u8
    ensures { result ≡ side_byte side }
{
    match side {
        Side::Out => 0,
        Side::In => 1,
    }
}

fn byte_of_mode(mode: Mode) -> u8
    ensures { result ≡ mode_byte mode }
{
    match mode {
        Mode::Conservative => 0,
        Mode::Hybrid => 1,
        Mode::Free => 2,
    }
}

fn put_trade(
    out: &mut Vec<u8>,
    seller: &Name,
    buyer: &Name,
    product: &Name,
    amount: Amount,
    day: Day,
) -> Result<(), AllocError>
    ensures appends { OnOk result (out.new.items ≡ out.old.items ++ fields_spelling (Trade seller.now buyer.now product.now amount day)) }
    ensures form { OnOk result (AreFields (Trade seller.now buyer.now product.now amount day)) }
{
    out.push(1)?;
    put_name(out, seller)?;
    put_name(out, buyer)?;
    put_name(out, product)?;
    put_number(out, amount.get())?;
    put_day(out, day)?;
    Ok(())
}

fn put_tolerance(
    out: &mut Vec<u8>,
    other: &Name,
    product: &Name,
    side: Side,
    floor: Level,
    ceiling: Option<Level>,
) -> Result<(), AllocError>
    ensures appends { OnOk result (out.new.items ≡ out.old.items ++ fields_spelling (Tol other.now product.now side floor ceiling)) }
    ensures form { OnOk result (AreFields (Tol other.now product.now side floor ceiling)) }
{
    out.push(6)?;
    put_name(out, other)?;
    put_name(out, product)?;
    out.push(byte_of_side(side))?;
    put_level(out, floor)?;
    put_ceiling(out, ceiling)?;
    Ok(())
}

// A tag and one number.
fn put_numbered(out: &mut Vec<u8>, tag: u8, number: u64) -> Result<(), AllocError>
    ensures { OnOk result (out.new.items ≡ out.old.items ++ tag ∷ number_spelling number) }
{
    out.push(tag)?;
    put_number(out, number)?;
    Ok(())
}

// A tag, a cycle and a version.
fn put_versioned(out: &mut Vec<u8>, tag: u8, cycle: u64, version: u64) -> Result<(), AllocError>
    ensures { OnOk result (out.new.items ≡ out.old.items ++ (tag ∷ number_spelling cycle ++ number_spelling version)) }
{
    out.push(tag)?;
    put_number(out, cycle)?;
    put_number(out, version)?;
    Ok(())
}

// A change's tag and its fields.
pub(crate) fn put_change(out: &mut Vec<u8>, what: &What) -> Result<(), AllocError>
    requires change { IsTrue (changes what.now) }
    requires few { posted what.now ≤ most_solutions }
    ensures appends { OnOk result (out.new.items ≡ out.old.items ++ fields_spelling what.now) }
    ensures form { OnOk result (AreFields what.now) }
{
    match what {
        What::Trade {
            seller,
            buyer,
            product,
            amount,
            day,
        } => put_trade(out, seller, buyer, product, *amount, *day),
        What::Affirm { trade } => put_numbered(out, 2, *trade),
        What::End { trade } => put_numbered(out, 3, *trade),
        What::Hold { trade } => put_numbered(out, 4, *trade),
        What::Free { trade } => put_numbered(out, 5, *trade),
        What::Tol {
            other,
            product,
            side,
            floor,
            ceiling,
        } => put_tolerance(out, other, product, *side, *floor, *ceiling),
        What::Freeze { day } => {
            out.push(7)?;
            put_day(out, *day)
        }
        What::Begin { cycle, mode } => {
            put_numbered(out, 8, *cycle)?;
            out.push(byte_of_mode(*mode))?;
            Ok(())
        }
        What::Post {
            cycle,
            version,
            solutions,
        } => {
            put_versioned(out, 9, *cycle, *version)?;
            put_solutions(out, solutions.rows())
        }
        What::Accept { cycle, version } => put_versioned(out, 10, *cycle, *version),
        What::Decline { cycle, version } => put_versioned(out, 11, *cycle, *version),
        What::Cancel { cycle } => put_numbered(out, 12, *cycle),
        // What changes nothing has no record.
        _ => unreachable!(),
    }
}
