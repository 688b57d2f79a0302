//! The settings that are still there, over a new roster.

ghost use Rattle.std.specs.Prelude.{◌≡◌, false, [], All, IfOk};
ghost use Rattle.command_types.specs.CycleRefusals.{is_crossed};
ghost use Rattle.period_roll.specs.Settings.{moved_beside, moved_setting};

use crate::parties::{new_member, new_product};
use command_types::{Roster, ToleranceRow};
use std::alloc::{AllocError, Global};
use tolerance_sets::Tolerances;

// The setting at its new places, if there are all three.
fn moved_setting(old: &Roster, new: &Roster, row: &ToleranceRow) -> Option<ToleranceRow>
    ensures { result ≡ moved_setting old.now new.now row.now }
{
    let member = new_member(old, new, row.member)?;
    let product = new_product(old, new, row.product)?;
    let other = new_member(old, new, row.other)?;
    Some(ToleranceRow {
        member,
        product,
        other,
        ..*row
    })
}

/// The settings whose members and product are there, in the order of their new places. The only error is want of memory.
pub(crate) fn moved_settings(
    alloc: Global,
    old: &Roster,
    new: &Roster,
    rows: &[ToleranceRow],
) -> Result<Vec<ToleranceRow>, AllocError>
    requires { All (λ row. is_crossed row.floor row.ceiling ≡ false) rows.now }
    ensures { IfOk result (λ made. made.items ≡ moved_beside old.now new.now [] rows.now) }
{
    let mut made = Tolerances::new(alloc);
    for row in rows {
        if let Some(row) = moved_setting(old, new, row) {
            made.reserve()?;
            let put = made.set(
                row.member,
                row.product,
                row.other,
                row.side,
                row.floor,
                row.ceiling,
            );
            if put.is_err() {
                unreachable!()
            }
        }
    }
    made.rows()
}
