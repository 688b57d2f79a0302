//! Machines that stand as a sheet says, and whether one does.

ghost use Rattle.std.specs.Prelude.{IfOk};
ghost use Rattle.cycle_states.specs.Replayed.{base_at, IsSmall};

use super::matching::is_same;
use super::sheets::{Sheet, base_of};
use super::writable::can_be_written;
use command_types::{Base, Roster};
use cycle_states::Machine;
use std::alloc::{AllocError, Global};
use std::test::Fail;

fn machine_in(alloc: Global, roster: Roster, base: Base) -> Result<Machine, Fail>
    ensures { IfOk result (λ machine. IsSmall (base_at 0 machine.state)) }
{
    if !can_be_written(&base) {
        return Err(Fail::new("what can't be written"));
    }
    let machine = Machine::of_base(alloc, roster, base)?;
    Ok(machine)
}

/// The machine over this roster that stands so. Its numbers leave room for more changes.
pub fn machine_of(alloc: Global, roster: Roster, sheet: &Sheet) -> Result<Machine, Fail>
    ensures { IfOk result (λ machine. IsSmall (base_at 0 machine.state)) }
{
    let base = base_of(alloc, sheet)?;
    machine_in(alloc, roster, base)
}

fn tells(alloc: Global, machine: &Machine, want: &Base) -> Result<bool, AllocError> {
    let told = machine.base(alloc, want.position)?;
    Ok(match &told {
        Some(base) => is_same(base, want),
        None => false,
    })
}

/// Whether the machine tells this base at its position, row by row.
pub fn stands_so(alloc: Global, machine: &Machine, sheet: &Sheet) -> Result<bool, AllocError> {
    let base = base_of(alloc, sheet)?;
    tells(alloc, machine, &base)
}
