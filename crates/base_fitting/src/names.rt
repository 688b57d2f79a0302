//! Whether names are those of a roster, in its order.

ghost use Rattle.std.specs.Prelude.{◌≡◌, ◌↔◌, map, IsTrue};
ghost use Rattle.command_types.specs.declared.roster.MemberRow.{MemberRow};
ghost use Rattle.command_types.specs.declared.roster.ProductRow.{ProductRow};

use command_types::{MemberRow, ProductRow};
use units_core::Name;

/// Whether these are the members' names.
pub(crate) fn are_members(names: &[Name], rows: &[MemberRow]) -> bool
    ensures { IsTrue result ↔ (names.now ≡ map (λ (row : MemberRow). row.name) rows.now) }
{
    if names.len() != rows.len() {
        return false;
    }
    for i in 0..rows.len() {
        if !names[i].is(&rows[i].name) {
            return false;
        }
    }
    true
}

/// Whether these are the products' names.
pub(crate) fn are_products(names: &[Name], rows: &[ProductRow]) -> bool
    ensures { IsTrue result ↔ (names.now ≡ map (λ (row : ProductRow). row.name) rows.now) }
{
    if names.len() != rows.len() {
        return false;
    }
    for i in 0..rows.len() {
        if !names[i].is(&rows[i].name) {
            return false;
        }
    }
    true
}
