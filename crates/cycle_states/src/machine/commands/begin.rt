//! BEGIN: the operator begins the cycle's next version, with all that members have set.

ghost use Rattle.std.specs.Prelude.{◌≡◌};
ghost use Rattle.std.specs.Result.{result_err};
ghost use Rattle.command_types.specs.CycleRefusals.{begin_refusals};
ghost use Rattle.command_types.specs.Machine.{first_of};
ghost use Rattle.cycle_states.specs.Party.{IsCaller};

use crate::machine::Machine;
use crate::machine::cycle::may_begin;
use crate::machine::party::Caller;
use command_types::Refusal;

impl Machine {
    /// BEGIN: 14, 16, 21, 17.
    pub(super) fn check_begin(&self, caller: &Caller, cycle: u64) -> Result<(), Refusal>
        requires { IsCaller self.now.state.roster caller.now }
        ensures { result_err result ≡ first_of (begin_refusals self.now.state caller.now.name cycle) }
    {
        let phase = self.cycle.phase();
        if let Err(refusal) = self.unless_operator(caller) {
            return Err(refusal);
        }
        self.unless_cycle(cycle)?;
        self.if_broken()?;
        self.unless_phase(may_begin(phase))
    }
}
