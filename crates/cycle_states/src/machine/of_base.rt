//! A machine that stands as a base says.

ghost use Rattle.std.specs.Prelude.{◌≡◌, ◌↔◌, ◌+◌, ◌<◌, Err, IfOk, OnOk};
ghost use Rattle.command_types.specs.Bases.{base_in, CanBeWritten, Fits};
ghost use Rattle.cycle_states.specs.declared.base_fault.BaseFault.TheVariants.{Misfit};

use super::Machine;
use super::cycle::LastCycle;
use crate::base_fault::BaseFault;
use base_fitting::fits;
use command_types::{Base, Roster};
use std::alloc::Global;

// A book numbers its trades in so many bits.
const MOST_TRADES: usize = u32::MAX as usize;

impl Machine {
    /// The machine in the state of a base, over this roster. It is a misfit exactly where the base does not fit the roster; the
    /// only other fault is want of memory, of which a base of 2^32 trades or more is a case.
    pub fn of_base(alloc: Global, roster: Roster, base: Base) -> Result<Machine, BaseFault>
        requires { CanBeWritten base }
        ensures made { IfOk result (λ machine. machine.state ≡ (base_in roster base).state) }
        ensures fits { OnOk result (Fits roster base) }
        ensures misfit { (result ≡ Err Misfit) ↔ ¬ (Fits roster base) }
    {
        if !fits(&base, &roster) {
            return Err(BaseFault::Misfit);
        }
        let Base {
            cycle,
            version,
            tolerances,
            trades,
            ..
        } = base;
        let trades = trades.into_rows();
        if trades.len() > MOST_TRADES {
            return Err(BaseFault::Memory);
        }
        let last = LastCycle {
            number: cycle,
            version,
        };
        let machine = Machine::at_rest(alloc, roster, last, tolerances.rows(), trades)?;
        Ok(machine)
    }
}
