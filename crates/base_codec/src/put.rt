//! The lists of a base, written behind what stands.
ghost use Rattle.std.specs.Prelude.{◌≡◌, ◌<◌, ◌++◌, length, All, OnOk, IsTrue};
ghost use Rattle.std.specs.List.{flat_map};
ghost use Rattle.units_core.specs.Name.{is_name};
ghost use Rattle.command_types.specs.Spelling.{name_spelling, number_spelling, IsNumber};
ghost use Rattle.command_types.specs.Bases.{names_spelling, setting_spelling, trade_spelling, state_byte, party_byte, hold_byte, IsSettingRow};
ghost use Rattle.base_codec.specs.Writing.{IsTradeForm, terms_spelling, marks_spelling};

use command_types::{Side, ToleranceRow, TradeRow, TradeState};
use record_codec::put::{
    byte_of_side, put_ceiling, put_day, put_level, put_name, put_number, put_short,
};
use std::alloc::AllocError;
use units_core::Name;

fn put_each_name(out: &mut Vec<u8>, names: &[Name]) -> Result<(), AllocError>
    ensures appends { OnOk result (out.new.items ≡ out.old.items ++ flat_map name_spelling names.now) }
    ensures form { OnOk result (All (λ name. IsTrue (is_name name)) names.now) }
{
    for name in names {
        put_name(out, name)?;
    }
    Ok(())
}

pub(crate) fn put_names(out: &mut Vec<u8>, names: &[Name]) -> Result<(), AllocError>
    requires { length names.now < 65536 }
    ensures appends { OnOk result (out.new.items ≡ out.old.items ++ names_spelling names.now) }
    ensures form { OnOk result (All (λ name. IsTrue (is_name name)) names.now) }
{
    put_short(out, names.len() as u16)?;
    put_each_name(out, names)
}

fn put_setting(out: &mut Vec<u8>, row: &ToleranceRow) -> Result<(), AllocError>
    ensures appends { OnOk result (out.new.items ≡ out.old.items ++ setting_spelling row.now) }
    ensures form { OnOk result (IsSettingRow row.now) }
{
    put_short(out, row.member.0)?;
    put_short(out, row.product.0)?;
    put_short(out, row.other.0)?;
    out.push(byte_of_side(row.side))?;
    put_level(out, row.floor)?;
    put_ceiling(out, row.ceiling)?;
    Ok(())
}

fn put_each_setting(out: &mut Vec<u8>, rows: &[ToleranceRow]) -> Result<(), AllocError>
    ensures appends { OnOk result (out.new.items ≡ out.old.items ++ flat_map setting_spelling rows.now) }
    ensures form { OnOk result (All IsSettingRow rows.now) }
{
    for row in rows {
        put_setting(out, row)?;
    }
    Ok(())
}

pub(crate) fn put_settings(out: &mut Vec<u8>, rows: &[ToleranceRow]) -> Result<(), AllocError>
    ensures appends { OnOk result (out.new.items ≡ out.old.items ++ (number_spelling (length rows.now) ++ flat_map setting_spelling rows.now)) }
    ensures form { OnOk result (All IsSettingRow rows.now) }
{
    put_number(out, rows.len() as u64)?;
    put_each_setting(out, rows)
}

fn byte_of_state(state: TradeState) -> u8
    ensures { result ≡ state_byte state }
{
    match state {
        TradeState::Alleged => 0,
        TradeState::Live => 1,
        TradeState::Ended => 2,
    }
}

// A submitter or a mark.
fn byte_of_party(party: Option<Side>) -> u8
    ensures { result ≡ party_byte party }
{
    match party {
        None => 0,
        Some(Side::Out) => 1,
        Some(Side::In) => 2,
    }
}

fn byte_of_holds(row: &TradeRow) -> u8
    ensures { result ≡ hold_byte row.now }
{
    match (row.hold_out, row.hold_in) {
        (false, false) => 0,
        (true, false) => 1,
        (false, true) => 2,
        (true, true) => 3,
    }
}

// The parties, the product, the amount and the day.
fn put_terms(out: &mut Vec<u8>, row: &TradeRow) -> Result<(), AllocError>
    ensures appends { OnOk result (out.new.items ≡ out.old.items ++ terms_spelling row.now) }
    ensures form { OnOk result (IsTradeForm row.now) }
{
    put_short(out, row.seller.0)?;
    put_short(out, row.buyer.0)?;
    put_short(out, row.product.0)?;
    put_number(out, row.amount.get())?;
    put_day(out, row.day)?;
    Ok(())
}

// The state, the submitter, the mark and the holds.
fn put_marks(out: &mut Vec<u8>, row: &TradeRow) -> Result<(), AllocError>
    ensures { OnOk result (out.new.items ≡ out.old.items ++ marks_spelling row.now) }
{
    out.push(byte_of_state(row.state))?;
    out.push(byte_of_party(row.submitter))?;
    out.push(byte_of_party(row.mark))?;
    out.push(byte_of_holds(row))?;
    Ok(())
}

fn put_trade(out: &mut Vec<u8>, row: &TradeRow) -> Result<(), AllocError>
    ensures appends { OnOk result (out.new.items ≡ out.old.items ++ trade_spelling row.now) }
    ensures form { OnOk result (IsTradeForm row.now) }
{
    put_terms(out, row)?;
    put_marks(out, row)?;
    Ok(())
}

fn put_each_trade(out: &mut Vec<u8>, rows: &[TradeRow]) -> Result<(), AllocError>
    ensures appends { OnOk result (out.new.items ≡ out.old.items ++ flat_map trade_spelling rows.now) }
    ensures form { OnOk result (All IsTradeForm rows.now) }
{
    for row in rows {
        put_trade(out, row)?;
    }
    Ok(())
}

pub(crate) fn put_trades(out: &mut Vec<u8>, rows: &[TradeRow]) -> Result<(), AllocError>
    ensures appends { OnOk result (out.new.items ≡ out.old.items ++ (number_spelling (length rows.now) ++ flat_map trade_spelling rows.now)) }
    ensures form { OnOk result (All IsTradeForm rows.now) }
    ensures few { OnOk result (IsNumber (length rows.now)) }
{
    put_number(out, rows.len() as u64)?;
    put_each_trade(out, rows)
}
