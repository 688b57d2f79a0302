//! A lock for sessions of the tests.

ghost use Rattle.std.specs.Prelude.{◌≡◌, ◌+◌, ◌^◌, ◌≤◌, IfOk};
ghost use Rattle.cycle_lock.specs.Passes.{IsPassOf, seen, may_split};

use command_types::Roster;
use cycle_lock::{Pass, Turns};
use cycle_states::{Machine, PlainDesk};
use std::alloc::{AllocError, Global};

/// A lock round a new desk over this roster, with its first pass.
pub fn opened(alloc: Global, roster: &Roster) -> Result<(Turns<PlainDesk>, Pass), AllocError>
    ensures own { IfOk result (λ r. IsPassOf r.0 r.1) }
    ensures roster { IfOk result (λ r. roster.now ≡ (seen r.1).base.state.roster) }
    ensures left { IfOk result (λ r. 1 ≤ may_split r.1) }
    ensures first { IfOk result (λ r. may_split r.1 + 1 ≡ 2 ^ 32) }
{
    let machine = Machine::new(alloc, roster.copy()?)?;
    match Turns::new(alloc, PlainDesk::new(alloc, machine)) {
        Ok(opened) => Ok(opened),
        Err(_) => Err(AllocError),
    }
}
