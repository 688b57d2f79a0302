//! FREEZE: the operator opens the next cycle with the live trades of the products that mature after a day.

ghost use Rattle.std.specs.Prelude.{◌≡◌};
ghost use Rattle.std.specs.Result.{result_err};
ghost use Rattle.command_types.specs.CycleRefusals.{freeze_refusals};
ghost use Rattle.command_types.specs.CycleSteps.{freeze_answer};
ghost use Rattle.command_types.specs.Machine.{first_of};
ghost use Rattle.cycle_states.specs.Machine.{IsYoung};
ghost use Rattle.cycle_states.specs.Party.{IsCaller};

use crate::machine::Machine;
use crate::machine::conditions::refuse_if;
use crate::machine::cycle::is_open;
use crate::machine::freezing::taken_count;
use crate::machine::party::Caller;
use command_types::{Answer, Refusal};
use units_core::Day;

impl Machine {
    /// FREEZE: 14, 15.
    pub(super) fn check_freeze(&self, caller: &Caller) -> Result<(), Refusal>
        requires { IsCaller self.now.state.roster caller.now }
        ensures { result_err result ≡ first_of (freeze_refusals self.now.state caller.now.name) }
    {
        let (cycle, open) = (self.cycle.number(), is_open(self.cycle.phase()));
        if let Err(refusal) = self.unless_operator(caller) {
            return Err(refusal);
        }
        refuse_if(open, Refusal::CycleOpen { cycle })
    }

    /// What a FREEZE is answered.
    pub(super) fn freezing(&self, day: Day) -> Answer
        requires { IsYoung self.now.state.cycle }
        ensures { result ≡ freeze_answer self.now.state day }
    {
        Answer::Frozen {
            cycle: 1 + self.cycle.number(),
            trades: taken_count(self.roster.products(), day, self.book.rows()),
        }
    }
}
