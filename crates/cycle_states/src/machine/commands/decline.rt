//! DECLINE: a member that the plan touches drops the proposal; the freeze stands.

ghost use Rattle.std.specs.Prelude.{◌≡◌};
ghost use Rattle.std.specs.Result.{result_err};
ghost use Rattle.command_types.specs.CycleRefusals.{decline_refusals};
ghost use Rattle.command_types.specs.Machine.{first_of};
ghost use Rattle.cycle_states.specs.Party.{IsCaller};

use crate::machine::Machine;
use crate::machine::cycle::is_proposed;
use crate::machine::party::Caller;
use command_types::Refusal;

impl Machine {
    /// DECLINE: 16, 21, 17, 18, 19.
    pub(super) fn check_decline(
        &self,
        caller: &Caller,
        cycle: u64,
        version: u64,
    ) -> Result<(), Refusal>
        requires { IsCaller self.now.state.roster caller.now }
        ensures { result_err result ≡ first_of (decline_refusals self.now.state caller.now.name cycle version) }
    {
        let phase = self.cycle.phase();
        if let Err(refusal) = self.unless_cycle(cycle) {
            return Err(refusal);
        }
        self.if_broken()?;
        self.unless_phase(is_proposed(phase))?;
        self.unless_version(version)?;
        self.unless_touched(caller)
    }
}
