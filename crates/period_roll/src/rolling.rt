//! A market's base over the roster of a new period.

ghost use Rattle.std.specs.Prelude.{◌≡◌, IfOk, IfSome, Ok, Err};
ghost use Rattle.command_types.specs.Bases.{Fits};
ghost use Rattle.period_roll.specs.declared.cause.Cause.{Cause};
ghost use Rattle.period_roll.specs.declared.cause.RollFault.TheVariants.{Refused};
ghost use Rattle.period_roll.specs.Rolls.{base_with, rolled, rolled_base};

use crate::cause::{Cause, RollFault};
use crate::keeping::first_late;
use crate::names::{member_names, product_names};
use crate::settings::moved_settings;
use crate::trades::{moved_trades, number};
use command_types::{Base, Listed, Roster};
use std::alloc::Global;
use units_core::{Day, MOST_NUMBER};

// What is written of a market over the new roster, where no cycle is open.
fn roll_base(
    alloc: Global,
    old: &Roster,
    new: &Roster,
    matured: &Option<Day>,
    base: &Base,
) -> Result<Base, RollFault>
    requires { Fits old.now base.now }
    ensures made { IfOk result (λ made. rolled_base old.now new.now matured.now base.now ≡ Ok made) }
    ensures refused { (cause : Cause) → result ≡ Err (Refused cause) → rolled_base old.now new.now matured.now base.now ≡ Err cause }
{
    let mut trades = moved_trades(alloc, old, new, matured, base.trades.rows())?;
    if let Some(trade) = first_late(new.products(), &trades) {
        return Err(RollFault::Refused(Cause::MaturesEarly { trade }));
    }
    if base.position >= MOST_NUMBER {
        return Err(RollFault::Refused(Cause::PositionsFull));
    }
    number(&mut trades);
    let members = member_names(alloc, new.members())?;
    let products = product_names(alloc, new.products())?;
    let tolerances = moved_settings(alloc, old, new, base.tolerances.rows())?;
    Ok(Base {
        position: base.position + 1,
        cycle: base.cycle,
        version: base.version,
        members: Listed::new(members),
        products: Listed::new(products),
        tolerances: Listed::new(tolerances),
        trades: Listed::new(trades),
    })
}

/// What is written of a market that goes on over a new roster: one position further, with its open trades, numbered from 1,
/// and the settings of members and products that are there. With a day, the trades of products that mature by it are left
/// out. Where a cycle is open, which writes no base, and where an open trade can't go along, it is refused, with the first
/// cause. The only other error is want of memory.
pub fn roll(
    alloc: Global,
    old: &Roster,
    new: &Roster,
    matured: Option<Day>,
    base: Option<Base>,
) -> Result<Base, RollFault>
    requires { IfSome base (Fits old.now) }
    ensures made { IfOk result (λ made. rolled old.now new.now matured base ≡ Ok made) }
    ensures refused { (cause : Cause) → result ≡ Err (Refused cause) → rolled old.now new.now matured base ≡ Err cause }
{
    match base {
        None => Err(RollFault::Refused(Cause::CycleOpen)),
        Some(base) => roll_base(alloc, old, new, &matured, &base),
    }
}
