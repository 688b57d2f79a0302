//! The names of a roster's rows, in their order.

ghost use Rattle.std.specs.Prelude.{◌≡◌, map, IfOk};
ghost use Rattle.command_types.specs.declared.roster.MemberRow.{MemberRow};
ghost use Rattle.command_types.specs.declared.roster.ProductRow.{ProductRow};

use command_types::{MemberRow, ProductRow};
use std::alloc::{AllocError, Global};
use units_core::Name;

/// The members' names.
pub(crate) fn member_names(alloc: Global, rows: &[MemberRow]) -> Result<Vec<Name>, AllocError>
    ensures { IfOk result (λ names. names.items ≡ map (λ (row : MemberRow). row.name) rows.now) }
{
    let mut names = Vec::new(alloc);
    for row in rows {
        names.push(row.name)?;
    }
    Ok(names)
}

/// The products' names.
pub(crate) fn product_names(alloc: Global, rows: &[ProductRow]) -> Result<Vec<Name>, AllocError>
    ensures { IfOk result (λ names. names.items ≡ map (λ (row : ProductRow). row.name) rows.now) }
{
    let mut names = Vec::new(alloc);
    for row in rows {
        names.push(row.name)?;
    }
    Ok(names)
}
