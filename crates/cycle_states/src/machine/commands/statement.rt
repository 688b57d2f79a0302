//! STATEMENT: a member is told its trades.

ghost use Rattle.std.specs.Prelude.{◌≡◌, IfOk};
ghost use Rattle.std.specs.Result.{result_err};
ghost use Rattle.command_types.specs.CycleRefusals.{statement_refusals};
ghost use Rattle.command_types.specs.CycleSteps.{rows_of_member};
ghost use Rattle.command_types.specs.Machine.{first_of, member_of};
ghost use Rattle.cycle_states.specs.Party.{IsCaller};

use crate::machine::Machine;
use crate::machine::conditions::refuse_if;
use crate::machine::party::Caller;
use command_types::{Answer, Listed, Refusal};
use std::alloc::AllocError;

impl Machine {
    /// STATEMENT: 7.
    pub(super) fn check_statement(&self, caller: &Caller) -> Result<(), Refusal>
        requires { IsCaller self.now.state.roster caller.now }
        ensures { result_err result ≡ first_of (statement_refusals self.now.state caller.now.name) }
    {
        refuse_if(self.is_operator(caller), Refusal::NotParty)
    }

    /// What a member's STATEMENT is answered.
    pub(super) fn statement(&self, caller: &Caller) -> Result<Answer, AllocError>
        requires { IsCaller self.now.state.roster caller.now }
        ensures { IfOk result (λ answer. answer ≡ Answer.Statement (rows_of_member (member_of self.now.state caller.now.name) self.now.state.trades)) }
    {
        let rows = self.book.rows_of(self.place_of(caller))?;
        let rows = Listed::new(rows);
        Ok(Answer::Statement { rows })
    }
}
