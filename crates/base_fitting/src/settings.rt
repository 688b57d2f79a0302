//! Whether settings are of a roster's places.

ghost use Rattle.std.specs.Prelude.{◌≡◌, ◌↔◌, ◌≢◌, All, IsTrue};
ghost use Rattle.command_types.specs.Bases.{IsSettingIn};
ghost use Rattle.command_types.specs.CycleRefusals.{is_crossed};

use command_types::{Level, ToleranceRow};

fn is_crossed(floor: Level, ceiling: Option<Level>) -> bool
    ensures { result ≡ is_crossed floor ceiling }
{
    match ceiling {
        None => false,
        Some(most) => most.get() < floor.get(),
    }
}

fn is_setting_in(row: &ToleranceRow, members: usize, products: usize) -> bool
    ensures { IsTrue result ↔ IsSettingIn members products row.now }
{
    row.member.index() < members
        && row.product.index() < products
        && row.other.index() < members
        && row.member != row.other
        && !is_crossed(row.floor, row.ceiling)
}

/// Whether each is of two different members and of a product, and has no ceiling below its floor.
pub(crate) fn are_settings_in(rows: &[ToleranceRow], members: usize, products: usize) -> bool
    ensures { IsTrue result ↔ All (IsSettingIn members products) rows.now }
{
    rows.iter().all(|row| is_setting_in(row, members, products))
}
