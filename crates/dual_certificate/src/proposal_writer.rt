//! Writing a proposal's text.
ghost use Rattle.std.specs.Prelude.{◌≡◌, ◌<◌, ◌++◌, OnOk, IfOk, length, codes, decimal};
ghost use Rattle.std.specs.Fmt.{signed_decimal};
ghost use Rattle.command_types.specs.Text.{member_name, product_name};
ghost use Rattle.dual_certificate.specs.ProposalText.{product_text, row_text, rows_text, pot_text, pots_text, part_text, proposal_text};
ghost use Rattle.dual_certificate.specs.Joining.{AreLinesOf, IsProposalOf};
ghost use Rattle.dual_certificate.specs.Writing.{HasMembers};

use command_types::Roster;
use net_positions::{bilateral_gross, floor_m, gross};
use network_laws::{Network, Row, Solution};
use std::alloc::{AllocError, Global};
use units_core::{print_i128, print_u128};

/// Puts bytes and a number behind them.
pub(crate) fn put_number(out: &mut Vec<u8>, bytes: &[u8], number: u64) -> Result<(), AllocError>
    ensures { OnOk result (out.new.items ≡ out.old.items ++ bytes.now ++ decimal number) }
{
    out.extend_from_slice(bytes)?;
    print_u128(u128::from(number), out)
}

// Puts bytes and the name of a member behind them.
fn put_member(
    out: &mut Vec<u8>,
    bytes: &[u8],
    roster: &Roster,
    member: usize,
) -> Result<(), AllocError>
    requires { member < length roster.now.members }
    ensures { OnOk result (out.new.items ≡ out.old.items ++ bytes.now ++ member_name roster.now member) }
{
    let members = roster.members();
    let name = members[member].name;
    out.extend_from_slice(bytes)?;
    out.extend_from_slice(name.text())
}

// Puts bytes and the name of a product behind them.
fn put_product(
    out: &mut Vec<u8>,
    bytes: &[u8],
    roster: &Roster,
    product: usize,
) -> Result<(), AllocError>
    requires { product < length roster.now.products }
    ensures { OnOk result (out.new.items ≡ out.old.items ++ bytes.now ++ product_name roster.now product) }
{
    let products = roster.products();
    let name = products[product].name;
    out.extend_from_slice(bytes)?;
    out.extend_from_slice(name.text())
}

/// Puts the line of a product with its figures: those of its original network, and the gross of its new one.
pub(crate) fn put_head(
    out: &mut Vec<u8>,
    roster: &Roster,
    product: usize,
    old: &Network,
    new: &Network,
) -> Result<(), AllocError>
    requires { product < length roster.now.products }
    ensures { OnOk result (out.new.items ≡ out.old.items ++ product_text roster.now product old.now new.now) }
{
    put_product(out, b"product ", roster, product)?;
    put_number(out, b" ", gross(old))?;
    put_number(out, b" ", gross(new))?;
    put_number(out, b" ", floor_m(old))?;
    put_number(out, b" ", bilateral_gross(old))?;
    out.extend_from_slice(b"\n")
}

fn put_row(out: &mut Vec<u8>, roster: &Roster, row: Row) -> Result<(), AllocError>
    requires seller { row.seller < length roster.now.members }
    requires buyer { row.buyer < length roster.now.members }
    ensures { OnOk result (out.new.items ≡ out.old.items ++ row_text roster.now row) }
{
    put_member(out, b"row ", roster, usize::from(row.seller))?;
    put_member(out, b" ", roster, usize::from(row.buyer))?;
    put_number(out, b" ", row.amount)?;
    out.extend_from_slice(b"\n")
}

fn put_rows(out: &mut Vec<u8>, roster: &Roster, network: &Network) -> Result<(), AllocError>
    requires { HasMembers roster.now network.now }
    ensures { OnOk result (out.new.items ≡ out.old.items ++ rows_text roster.now network.now.rows) }
{
    let rows = network.rows();
    for row in rows {
        put_row(out, roster, *row)?;
    }
    Ok(())
}

fn put_pot(out: &mut Vec<u8>, roster: &Roster, member: usize, value: i32) -> Result<(), AllocError>
    requires { member < length roster.now.members }
    ensures { OnOk result (out.new.items ≡ out.old.items ++ pot_text roster.now member value) }
{
    put_member(out, b"pot ", roster, member)?;
    out.extend_from_slice(b" ")?;
    print_i128(i128::from(value), out)?;
    out.extend_from_slice(b"\n")
}

fn put_pots(out: &mut Vec<u8>, roster: &Roster, values: &[i32]) -> Result<(), AllocError>
    requires { length values.now ≡ length roster.now.members }
    ensures { OnOk result (out.new.items ≡ out.old.items ++ pots_text roster.now 0 values.now) }
{
    for (member, value) in values.iter().enumerate() {
        put_pot(out, roster, member, *value)?;
    }
    Ok(())
}

fn put_part(
    out: &mut Vec<u8>,
    roster: &Roster,
    product: usize,
    old: &Network,
    new: &Solution,
) -> Result<(), AllocError>
    requires product { product < length roster.now.products }
    requires members { HasMembers roster.now new.now.network }
    ensures { OnOk result (out.new.items ≡ out.old.items ++ part_text roster.now product old.now new.now) }
{
    let network = new.network();
    put_head(out, roster, product, old, network)?;
    put_rows(out, roster, network)?;
    put_pots(out, roster, new.potentials())?;
    put_number(out, b"bound ", gross(network))?;
    out.extend_from_slice(b"\n")?;
    Ok(())
}

/// The lines of a product in a proposal: its original network's figures, the rows of its solution, and its potentials. The
/// only error is want of memory.
pub fn write_part(
    alloc: Global,
    roster: &Roster,
    product: usize,
    old: &Network,
    new: &Solution,
) -> Result<Vec<u8>, AllocError>
    requires product { product < length roster.now.products }
    requires members { HasMembers roster.now new.now.network }
    ensures { IfOk result (λ text. text.items ≡ part_text roster.now product old.now new.now) }
{
    let mut out = Vec::new(alloc);
    put_part(&mut out, roster, product, old, new)?;
    Ok(out)
}

// How many bytes to make room for: those of the parts and of the last line.
fn room_for(parts: &[Vec<u8>]) -> usize {
    let mut room = 32_usize;
    for part in parts {
        room = room.saturating_add(part.len());
    }
    room
}

// The lines of all products behind one another.
fn joined(alloc: Global, parts: &[Vec<u8>]) -> Result<Vec<u8>, AllocError>
    ensures { IfOk result (λ text. AreLinesOf parts.now text.items) }
{
    let mut out = Vec::with_capacity(alloc, room_for(parts))?;
    for product in 0..parts.len() {
        out.extend_from_slice(&parts[product])?;
    }
    Ok(out)
}

/// The text of a proposal, from the lines of its products in their order, whatever networks and solutions they tell of. The
/// only error is want of memory.
pub fn join_parts(alloc: Global, parts: &[Vec<u8>]) -> Result<Vec<u8>, AllocError>
    ensures { IfOk result (λ text. IsProposalOf parts.now text.items) }
{
    let mut out = joined(alloc, parts)?;
    put_number(&mut out, b"end ", parts.len() as u64)?;
    out.extend_from_slice(b"\n")?;
    Ok(out)
}
