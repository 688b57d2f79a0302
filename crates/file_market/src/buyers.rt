//! Who may buy more where no member set a ceiling: dealers, in hybrid mode, of dealers.

ghost use Rattle.std.specs.Prelude.{◌≡◌, ◌≢◌, ℕ, ◌≤◌, length, slice_get};
ghost use Rattle.command_types.specs.declared.cycle.Mode.{Mode};
ghost use Rattle.command_types.specs.Tolerances.{is_dealer_row, may_grow};
ghost use Rattle.file_market.specs.Untouched.{grows_with};
ghost use Rattle.units_core.specs.declared.limits.TheConstants.{MOST_MEMBERS};

use command_types::{MemberRow, Mode, Role};

/// Whether a place is a dealer's.
pub(crate) fn is_dealer(members: &[MemberRow], place: u16) -> bool
    ensures { result ≡ is_dealer_row (slice_get members.now place) }
{
    match members.get(place as usize) {
        None => false,
        Some(row) => row.role == Role::Dealer,
    }
}

/// The members up to the last dealer.
pub(crate) fn with_dealers(members: &[MemberRow]) -> &[MemberRow]
    requires { length members.now ≤ MOST_MEMBERS }
    ensures dealers { (place : ℕ) → is_dealer_row (slice_get result.now place) ≡ is_dealer_row (slice_get members.now place) }
    ensures few { length result.now ≤ MOST_MEMBERS }
{
    let mut end = 0;
    for place in 0..members.len() as u16 {
        if is_dealer(members, place) {
            end = place as usize + 1;
        }
    }
    &members[..end]
}

/// Of these buyers, who have all dealers among them, those to whose dealers a seller may sell more, where a mode does not
/// open every pair: all or none.
pub(crate) fn buyers_of<'a>(
    mode: Mode,
    members: &[MemberRow],
    all: &'a [MemberRow],
    seller: u16,
) -> &'a [MemberRow]
    requires mode { mode ≢ Mode.Free }
    requires dealers { (place : ℕ) → is_dealer_row (slice_get all.now place) ≡ is_dealer_row (slice_get members.now place) }
    ensures grows { (buyer : ℕ) → grows_with result.now seller buyer ≡ may_grow mode members.now seller buyer }
    ensures few { length result.now ≤ length all.now }
{
    if mode == Mode::Hybrid && is_dealer(members, seller) {
        all
    } else {
        &all[..0]
    }
}
