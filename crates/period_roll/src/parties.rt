//! Where the members and the product of a trade or a setting stand in a new roster.

ghost use Rattle.std.specs.Prelude.{◌≡◌, slice_get};
ghost use Rattle.period_roll.specs.Places.{have_same_role, moved_party, moved_product, new_member, new_product};

use crate::cause::Cause;
use command_types::Roster;
use units_core::{MemberNo, ProductNo};

/// The place of the member by its name, if it is there.
pub(crate) fn new_member(old: &Roster, new: &Roster, place: MemberNo) -> Option<MemberNo>
    ensures { result ≡ new_member old.now new.now place }
{
    match old.members().get(place.index()) {
        None => None,
        Some(row) => new.member_named(&row.name),
    }
}

/// The place of the product by its name, if it is there.
pub(crate) fn new_product(old: &Roster, new: &Roster, place: ProductNo) -> Option<ProductNo>
    ensures { result ≡ new_product old.now new.now place }
{
    match old.products().get(place.index()) {
        None => None,
        Some(row) => new.product_named(&row.name),
    }
}

// Whether both are members of the same role.
fn have_same_role(old: &Roster, new: &Roster, before: MemberNo, now: MemberNo) -> bool
    ensures { result ≡ have_same_role (slice_get old.now.members before) (slice_get new.now.members now) }
{
    match old.members().get(before.index()) {
        None => false,
        Some(first) => match new.members().get(now.index()) {
            None => false,
            Some(second) => first.role == second.role,
        },
    }
}

/// Where a member of a trade stands: it is there, with its role.
pub(crate) fn moved_party(
    old: &Roster,
    new: &Roster,
    trade: u64,
    place: MemberNo,
) -> Result<MemberNo, Cause>
    ensures { result ≡ moved_party old.now new.now trade place }
{
    let Some(found) = new_member(old, new, place) else {
        return Err(Cause::MemberGone { trade });
    };
    if have_same_role(old, new, place, found) {
        Ok(found)
    } else {
        Err(Cause::RoleChanged { trade })
    }
}

/// Where the product of a trade stands: it is there.
pub(crate) fn moved_product(
    old: &Roster,
    new: &Roster,
    trade: u64,
    place: ProductNo,
) -> Result<ProductNo, Cause>
    ensures { result ≡ moved_product old.now new.now trade place }
{
    match new_product(old, new, place) {
        None => Err(Cause::ProductGone { trade }),
        Some(found) => Ok(found),
    }
}
