//! FETCH: the operator is told the problems of a version that waits for its posting.

ghost use Rattle.std.specs.Prelude.{◌≡◌, IfOk, IsTrue};
ghost use Rattle.std.specs.Result.{result_err};
ghost use Rattle.command_types.specs.CycleRefusals.{fetch_refusals};
ghost use Rattle.command_types.specs.Cycles.{is_solving};
ghost use Rattle.command_types.specs.Machine.{first_of};
ghost use Rattle.cycle_states.specs.Party.{IsCaller};

use crate::machine::Machine;
use crate::machine::cycle::is_solving;
use crate::machine::party::Caller;
use crate::machine::problem_copies::problem_copies;
use crate::machine::solutions::copies;
use command_types::{Answer, Listed, Refusal};
use std::alloc::AllocError;

impl Machine {
    /// FETCH: 14, 16, 21, 17, 18.
    pub(super) fn check_fetch(
        &self,
        caller: &Caller,
        cycle: u64,
        version: u64,
    ) -> Result<(), Refusal>
        requires { IsCaller self.now.state.roster caller.now }
        ensures { result_err result ≡ first_of (fetch_refusals self.now.state caller.now.name cycle version) }
    {
        let phase = self.cycle.phase();
        if let Err(refusal) = self.unless_operator(caller) {
            return Err(refusal);
        }
        self.unless_cycle(cycle)?;
        self.if_broken()?;
        self.unless_phase(is_solving(phase))?;
        self.unless_version(version)
    }

    /// What a FETCH is answered.
    pub(super) fn fetched(&self) -> Result<Answer, AllocError>
        requires { IsTrue (is_solving self.now.state.cycle.phase) }
        ensures { IfOk result (λ answer. answer ≡ Answer.Problems self.now.state.cycle.begun) }
    {
        let problems = self.problems()?;
        let copies = problem_copies(self.cycle.allocator(), problems.as_slice())?;
        Ok(Answer::Problems(Listed::new(copies)))
    }
}
