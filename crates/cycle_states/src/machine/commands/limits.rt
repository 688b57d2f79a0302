//! LIMITS: the operator is told the limits of a product, pair by pair.

ghost use Rattle.std.specs.Prelude.{◌≡◌, IfOk, IsTrue};
ghost use Rattle.std.specs.Result.{result_err};
ghost use Rattle.command_types.specs.CycleRefusals.{limits_refusals};
ghost use Rattle.command_types.specs.CycleSteps.{limits_answer};
ghost use Rattle.command_types.specs.Cycles.{has_limits};
ghost use Rattle.command_types.specs.Machine.{first_of, product_of};
ghost use Rattle.cycle_states.specs.Party.{IsCaller};

use crate::machine::Machine;
use crate::machine::cycle::has_limits;
use crate::machine::limit_lines::limit_lines;
use crate::machine::parties::place_of_product;
use crate::machine::party::Caller;
use command_types::{Answer, Listed, Refusal};
use std::alloc::AllocError;
use units_core::Name;

impl Machine {
    /// LIMITS: 14, 5, 21, 17.
    pub(super) fn check_limits(&self, caller: &Caller, product: &Name) -> Result<(), Refusal>
        requires { IsCaller self.now.state.roster caller.now }
        ensures { result_err result ≡ first_of (limits_refusals self.now.state caller.now.name product.now) }
    {
        let phase = self.cycle.phase();
        if let Err(refusal) = self.unless_operator(caller) {
            return Err(refusal);
        }
        self.unless_product(product)?;
        self.if_broken()?;
        self.unless_phase(has_limits(phase))
    }

    /// What a LIMITS is answered.
    pub(super) fn limits(&self, product: &Name) -> Result<Answer, AllocError>
        requires { IsTrue (has_limits self.now.state.cycle.phase) }
        ensures { IfOk result (λ answer. answer ≡ limits_answer self.now.state (product_of self.now.state product.now)) }
    {
        let problems = self.problems()?;
        let (alloc, product) = (
            self.cycle.allocator(),
            place_of_product(&self.roster, product),
        );
        let lines = limit_lines(alloc, problems.as_slice(), product)?;
        let rows = Listed::new(lines);
        Ok(Answer::LimitRows { rows })
    }
}
