//! The lines that tell on the errors a file's fault, a journal's damage, and how a standby ended.

ghost use Rattle.std.specs.Prelude.{◌≡◌, ◌++◌, IfOk, codes};
ghost use Rattle.compress_server.specs.Faults.{role_name, row_line, fault_line, number_line, damage_line, refused_line, broken_line, full_line};

use crate::load::FileRole;
use command_types::FileFault;
use std::alloc::{AllocError, Global};
use units_core::print_u128;

fn role_name(role: FileRole) -> &'static [u8]
    ensures { result.now ≡ role_name role }
{
    match role {
        FileRole::Roster => b"roster",
        FileRole::Trades => b"trades",
        FileRole::Proposal => b"proposal",
        FileRole::NewRoster => b"new-roster",
    }
}

// The line of a fault at a row.
fn row_line(alloc: Global, role: FileRole, row: u64, fault: &[u8]) -> Result<Vec<u8>, AllocError>
    ensures { IfOk result (λ line. line.items ≡ row_line role row fault.now) }
{
    let mut line = role_name(role).to_vec(alloc)?;
    line.extend_from_slice(b" row ")?;
    print_u128(u128::from(row), &mut line)?;
    end_line(line, fault)
}

// The line with a fault behind its row.
fn end_line(mut line: Vec<u8>, fault: &[u8]) -> Result<Vec<u8>, AllocError>
    ensures { IfOk result (λ whole. whole.items ≡ line.items ++ codes ": " ++ fault.now ++ codes "\n") }
{
    line.extend_from_slice(b": ")?;
    line.extend_from_slice(fault)?;
    line.push(b'\n')?;
    Ok(line)
}

/// The line of a fault of the file in this role. The only error is want of memory.
pub fn fault_line(alloc: Global, role: FileRole, fault: FileFault) -> Result<Vec<u8>, AllocError>
    ensures { IfOk result (λ line. line.items ≡ fault_line role fault) }
{
    match fault {
        FileFault::TooLong => too_long_line(alloc, role),
        FileFault::Columns { row } => row_line(alloc, role, row, b"columns"),
        FileFault::BadName { row } => row_line(alloc, role, row, b"bad-name"),
        FileFault::BadRole { row } => row_line(alloc, role, row, b"bad-role"),
        FileFault::BadAmount { row } => row_line(alloc, role, row, b"bad-amount"),
        FileFault::BadDay { row } => row_line(alloc, role, row, b"bad-day"),
        FileFault::Twice { row } => row_line(alloc, role, row, b"twice"),
        FileFault::UnknownName { row } => row_line(alloc, role, row, b"unknown-name"),
        FileFault::SameParty { row } => row_line(alloc, role, row, b"same-party"),
        FileFault::GrossLimit { row } => row_line(alloc, role, row, b"gross-limit"),
        FileFault::RowLimit { row } => row_line(alloc, role, row, b"row-limit"),
        FileFault::BadLine { row } => row_line(alloc, role, row, b"bad-line"),
        FileFault::Memory => b"memory\n".to_vec(alloc),
    }
}

// The line of a file that is too long.
fn too_long_line(alloc: Global, role: FileRole) -> Result<Vec<u8>, AllocError>
    ensures { IfOk result (λ line. line.items ≡ role_name role ++ codes ": too-long\n") }
{
    let mut line = role_name(role).to_vec(alloc)?;
    line.extend_from_slice(b": too-long\n")?;
    Ok(line)
}

/// The line that is this text with a number behind it. The only error is want of memory.
pub fn number_line(alloc: Global, text: &[u8], number: u64) -> Result<Vec<u8>, AllocError>
    ensures { IfOk result (λ line. line.items ≡ number_line text.now number) }
{
    let mut line = text.to_vec(alloc)?;
    print_u128(u128::from(number), &mut line)?;
    line.push(b'\n')?;
    Ok(line)
}

/// The line of a journal that is damaged at this place. The only error is want of memory.
pub fn damage_line(alloc: Global, place: u64) -> Result<Vec<u8>, AllocError>
    ensures { IfOk result (λ line. line.items ≡ damage_line place) }
{
    number_line(alloc, b"damaged at ", place)
}

/// The line of a primary that refused, with this number. The only error is want of memory, as below.
pub fn refused_line(alloc: Global, number: u8) -> Result<Vec<u8>, AllocError>
    ensures { IfOk result (λ line. line.items ≡ refused_line number) }
{
    number_line(alloc, b"peer refused ", u64::from(number))
}

/// The line of a primary that said what may not stand at this offset.
pub fn broken_line(alloc: Global, at: u64) -> Result<Vec<u8>, AllocError>
    ensures { IfOk result (λ line. line.items ≡ broken_line at) }
{
    number_line(alloc, b"peer broken at ", at)
}

/// The line of a standby's journal that has no room at this size.
pub fn full_line(alloc: Global, size: u64) -> Result<Vec<u8>, AllocError>
    ensures { IfOk result (λ line. line.items ≡ full_line size) }
{
    number_line(alloc, b"journal full at ", size)
}
