//! TOL: a member sets the least and the most that it is to owe another in a product, or to be owed.

ghost use Rattle.std.specs.Prelude.{◌≡◌};
ghost use Rattle.std.specs.Result.{result_err};
ghost use Rattle.command_types.specs.CycleRefusals.{tol_refusals};
ghost use Rattle.command_types.specs.Machine.{first_of};
ghost use Rattle.cycle_states.specs.Party.{IsCaller};

use crate::machine::Machine;
use crate::machine::conditions::{is_crossed, refuse_if};
use crate::machine::party::Caller;
use crate::machine::terms::Setting;
use command_types::Refusal;

impl Machine {
    /// TOL: 4, 5, 6, 7, 23.
    pub(super) fn check_tol(&self, caller: &Caller, setting: &Setting) -> Result<(), Refusal>
        requires { IsCaller self.now.state.roster caller.now }
        ensures { result_err result ≡ first_of (tol_refusals self.now.state caller.now.name setting.now.other setting.now.product setting.now.floor setting.now.ceiling) }
    {
        if let Err(refusal) = self.unless_member(&setting.other) {
            return Err(refusal);
        }
        self.unless_product(&setting.product)?;
        refuse_if(setting.other.is(&caller.name), Refusal::OwnTrade)?;
        refuse_if(self.is_operator(caller), Refusal::NotParty)?;
        let crossed = is_crossed(setting.floor, setting.ceiling);
        refuse_if(crossed, Refusal::FloorOverCeiling)
    }
}
