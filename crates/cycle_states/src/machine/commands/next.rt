//! NEXT: the operator asks for the entry behind a position. What it is told is the desk's, which has the history.

ghost use Rattle.std.specs.Prelude.{◌≡◌};
ghost use Rattle.std.specs.Result.{result_err};
ghost use Rattle.command_types.specs.CycleRefusals.{next_refusals};
ghost use Rattle.command_types.specs.Machine.{first_of};
ghost use Rattle.cycle_states.specs.Party.{IsCaller};

use crate::machine::Machine;
use crate::machine::party::Caller;
use command_types::Refusal;

impl Machine {
    /// NEXT: 14.
    pub(super) fn check_next(&self, caller: &Caller) -> Result<(), Refusal>
        requires { IsCaller self.now.state.roster caller.now }
        ensures { result_err result ≡ first_of (next_refusals self.now.state caller.now.name) }
    {
        self.unless_operator(caller)
    }
}
