//! PLAN: the operator is told the proposed plan, and a member its own steps.

ghost use Rattle.std.specs.Prelude.{◌≡◌, IfOk};
ghost use Rattle.std.specs.Result.{result_err};
ghost use Rattle.command_types.specs.CycleRefusals.{plan_refusals};
ghost use Rattle.command_types.specs.CycleSteps.{plan_answer, shown_plan};
ghost use Rattle.command_types.specs.Machine.{first_of, member_of};
ghost use Rattle.cycle_states.specs.Party.{IsCaller};

use crate::machine::Machine;
use crate::machine::cycle::is_proposed;
use crate::machine::party::Caller;
use command_types::{Answer, Listed, PlanRow, Refusal};
use posting::steps_of;
use std::alloc::AllocError;

impl Machine {
    /// PLAN: 16, 21, 17.
    pub(super) fn check_plan(&self, cycle: u64) -> Result<(), Refusal>
        ensures { result_err result ≡ first_of (plan_refusals self.now.state cycle) }
    {
        let phase = self.cycle.phase();
        if let Err(refusal) = self.unless_cycle(cycle) {
            return Err(refusal);
        }
        self.if_broken()?;
        self.unless_phase(is_proposed(phase))
    }

    // The steps of the plan that the caller may see. The only error is want of memory.
    fn shown_plan(&self, caller: &Caller) -> Result<Vec<PlanRow>, AllocError>
        requires { IsCaller self.now.state.roster caller.now }
        ensures { IfOk result (λ steps. steps.items ≡ shown_plan self.now.state caller.now.name (member_of self.now.state caller.now.name)) }
    {
        if self.is_operator(caller) {
            return self.cycle.plan_copy();
        }
        let (cycle, member) = (&self.cycle, self.place_of(caller));
        steps_of(cycle.allocator(), self.book.rows(), cycle.plan(), member)
    }

    /// What a party's PLAN is answered.
    pub(super) fn plan_rows(&self, caller: &Caller) -> Result<Answer, AllocError>
        requires { IsCaller self.now.state.roster caller.now }
        ensures { IfOk result (λ answer. answer ≡ plan_answer self.now.state caller.now.name (member_of self.now.state caller.now.name)) }
    {
        let rows = self.shown_plan(caller)?;
        Ok(Answer::PlanRows {
            cycle: self.cycle.number(),
            version: self.cycle.version(),
            rows: Listed::new(rows),
        })
    }
}
