//! Whether a base can be written: what a machine of it asks for.

ghost use Rattle.std.specs.Prelude.{◌≡◌, ◌+◌, ◌*◌, ◌<◌, ◌≤◌, ◌^◌, IsTrue};
ghost use Rattle.command_types.specs.Bases.{AreNumbered, AreRising, CanBeWritten};
ghost use Rattle.command_types.specs.Tolerances.{setting_place, side_place};

use command_types::{Base, Side, ToleranceRow, TradeRow};
use units_core::{MemberNo, ProductNo};

fn number_of(side: Side) -> u64
    ensures side { result ≡ side_place side }
    ensures few { result ≤ 1 }
{
    match side {
        Side::Out => 0,
        Side::In => 1,
    }
}

fn place_of(member: MemberNo, product: ProductNo, other: MemberNo, side: Side) -> u64
    ensures place { result ≡ ((member * 65536 + product) * 65536 + other) * 2 + side_place side }
    ensures few { result < 2 ^ 50 }
{
    let pair = (u64::from(member.0) * 65536 + u64::from(product.0)) * 65536 + u64::from(other.0);
    pair * 2 + number_of(side)
}

fn place(row: &ToleranceRow) -> u64
    ensures place { result ≡ setting_place row.now }
    ensures few { result < 2 ^ 50 }
{
    place_of(row.member, row.product, row.other, row.side)
}

fn are_rising(rows: &[ToleranceRow]) -> bool
    ensures { IsTrue result → AreRising 0 rows.now }
{
    let mut next = 0u64;
    for row in rows {
        let place = place(row);
        if place < next {
            return false;
        }
        next = place + 1;
    }
    true
}

fn are_numbered(rows: &[TradeRow]) -> bool
    ensures { IsTrue result → AreNumbered 1 rows.now }
{
    for i in 0..rows.len() {
        if rows[i].number != i as u64 + 1 || rows[i].frozen {
            return false;
        }
    }
    true
}

/// Whether the base can be written.
pub fn can_be_written(base: &Base) -> bool
    ensures { IsTrue result → CanBeWritten base.now }
{
    base.members.rows().len() < 65536
        && base.products.rows().len() < 65536
        && are_rising(base.tolerances.rows())
        && are_numbered(base.trades.rows())
}
