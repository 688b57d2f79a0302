//! Parties and products of the roster, as the machine looks them up.

ghost use Rattle.std.specs.Prelude.{◌≡◌, ◌≤◌, length, unwrap_or};
ghost use Rattle.command_types.specs.Roster.{member_place, product_place};
ghost use Rattle.units_core.specs.declared.limits.TheConstants.{MOST_MEMBERS};

use command_types::Roster;
use units_core::{MemberNo, Name, ProductNo};

/// How many members there are.
pub(super) fn member_count(roster: &Roster) -> u16
    ensures count { result ≡ length roster.now.members }
    ensures few { result ≤ MOST_MEMBERS }
{
    roster.members().len() as u16
}

/// The place of the member with this name; 0 where there is none.
pub(super) fn place_of_member(roster: &Roster, name: &Name) -> MemberNo
    ensures { result ≡ unwrap_or (member_place roster.now name.now) 0 }
{
    match roster.member_named(name) {
        None => MemberNo(0),
        Some(place) => place,
    }
}

/// The place of the product with this name; 0 where there is none.
pub(super) fn place_of_product(roster: &Roster, name: &Name) -> ProductNo
    ensures { result ≡ unwrap_or (product_place roster.now name.now) 0 }
{
    match roster.product_named(name) {
        None => ProductNo(0),
        Some(place) => place,
    }
}
