//! HELLO, BYE, and a line outside the grammar, which want no party of the roster; any other command wants one, and is asked of it.

ghost use Rattle.std.specs.Prelude.{[], ◌∷◌, ◌≡◌, not, unwrap_or, IfOk, IsOk, IsTrue, None};
ghost use Rattle.std.specs.Result.{result_err};
ghost use Rattle.command_types.specs.Machine.{accepted, command_refusals, first_of, refusals};
ghost use Rattle.command_types.specs.Roster.{is_party};
ghost use Rattle.command_types.specs.Told.{is_accept};
ghost use Rattle.cycle_states.specs.Begun.{AreCheckedBy};
ghost use Rattle.cycle_states.specs.Machine.{IsYoung};
ghost use Rattle.cycle_states.specs.Party.{IsCallerOf};

use crate::machine::Machine;
use crate::machine::conditions::refuse_if;
use crate::machine::party::Caller;
use command_types::{Answer, Ask, Refusal, What};
use network_laws::Problem;
use std::alloc::AllocError;

impl Machine {
    // The first refusal of a command that wants a party of the roster.
    fn check_greeted(
        &self,
        ask: &Ask,
        caller: &Option<Caller>,
        problems: &[Problem],
    ) -> Result<(), Refusal>
        requires problems { AreCheckedBy self.now.state ask.now.what problems.now }
        requires caller { IsCallerOf self.now.state.roster ask.now.by caller.now }
        ensures { result_err result ≡ first_of ((not (is_party self.now.state.roster ask.now.by), Refusal.NotGreeted) ∷ command_refusals self.now.state (unwrap_or ask.now.by []) ask.now.what) }
    {
        match caller {
            None => Err(Refusal::NotGreeted),
            Some(caller) => self.check_command(caller, &ask.what, problems),
        }
    }

    // The first refusal of a command whose condition holds, if there is one.
    fn check(&self, ask: &Ask, caller: &Option<Caller>, problems: &[Problem]) -> Result<(), Refusal>
        requires problems { AreCheckedBy self.now.state ask.now.what problems.now }
        requires caller { IsCallerOf self.now.state.roster ask.now.by caller.now }
        ensures { result_err result ≡ first_of (refusals self.now.state ask.now.by ask.now.what) }
    {
        match &ask.what {
            What::Hello { name, key } => {
                refuse_if(!self.roster.is_key(name, key), Refusal::BadKey)
            }
            What::Unreadable { at } => Err(Refusal::BadLine { at: *at }),
            What::Bye => Ok(()),
            _ => self.check_greeted(ask, caller, problems),
        }
    }

    /// The first refusal of a command whose condition holds, if there is one. The only error is want of memory, and it never
    /// comes for an ACCEPT.
    pub(in crate::machine) fn refusal(
        &self,
        ask: &Ask,
        caller: &Option<Caller>,
    ) -> Result<Option<Refusal>, AllocError>
        requires { IsCallerOf self.now.state.roster ask.now.by caller.now }
        ensures refused { IfOk result (λ refusal. refusal ≡ first_of (refusals self.now.state ask.now.by ask.now.what)) }
        ensures vote { IsTrue (is_accept ask.now.what) → IsOk result }
    {
        let problems = self.problems_to_check(&ask.what)?;
        Ok(self.check(ask, caller, problems.as_slice()).err())
    }

    /// What a command is answered that is not refused. The only error is want of memory.
    pub(in crate::machine) fn accepted(
        &self,
        ask: &Ask,
        caller: &Option<Caller>,
    ) -> Result<Answer, AllocError>
        requires young { IsYoung self.now.state.cycle }
        requires caller { IsCallerOf self.now.state.roster ask.now.by caller.now }
        requires accepted { first_of (refusals self.now.state ask.now.by ask.now.what) ≡ None }
        ensures told { IfOk result (λ answer. answer ≡ accepted self.now.state ask.now.by ask.now.what) }
        ensures vote { IsTrue (is_accept ask.now.what) → IsOk result }
    {
        match &ask.what {
            What::Hello { name, .. } => Ok(Answer::Hello { name: *name }),
            What::Bye => Ok(Answer::Bye),
            What::Unreadable { at } => Ok(Answer::No(Refusal::BadLine { at: *at })),
            what => match caller {
                None => unreachable!(),
                Some(caller) => self.party_answer(caller, what),
            },
        }
    }
}
