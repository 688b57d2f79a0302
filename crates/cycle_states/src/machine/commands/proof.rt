//! PROOF: a member is told what shows that its part of the proposal is least.

ghost use Rattle.std.specs.Prelude.{◌≡◌, IfOk, IsTrue};
ghost use Rattle.std.specs.Result.{result_err};
ghost use Rattle.command_types.specs.CycleRefusals.{proof_refusals};
ghost use Rattle.command_types.specs.CycleSteps.{proof_answer};
ghost use Rattle.command_types.specs.Cycles.{is_proposed};
ghost use Rattle.command_types.specs.Machine.{first_of, member_of};
ghost use Rattle.cycle_states.specs.Party.{IsCaller};

use crate::machine::Machine;
use crate::machine::conditions::refuse_if;
use crate::machine::cycle::is_proposed;
use crate::machine::member_proofs::{MemberProof, proof_rows};
use crate::machine::party::Caller;
use command_types::{Answer, Listed, ProofHead, Refusal};
use std::alloc::AllocError;

impl Machine {
    /// PROOF: 7, 16, 21, 17.
    pub(super) fn check_proof(&self, caller: &Caller, cycle: u64) -> Result<(), Refusal>
        requires { IsCaller self.now.state.roster caller.now }
        ensures { result_err result ≡ first_of (proof_refusals self.now.state caller.now.name cycle) }
    {
        let (phase, operator) = (self.cycle.phase(), self.is_operator(caller));
        if let Err(refusal) = refuse_if(operator, Refusal::NotParty) {
            return Err(refusal);
        }
        self.unless_cycle(cycle)?;
        self.if_broken()?;
        self.unless_phase(is_proposed(phase))
    }

    /// What a member's PROOF is answered. Where the version begins is not known here.
    pub(super) fn proof(&self, caller: &Caller) -> Result<Answer, AllocError>
        requires proposed { IsTrue (is_proposed self.now.state.cycle.phase) }
        requires caller { IsCaller self.now.state.roster caller.now }
        ensures { IfOk result (λ answer. answer ≡ proof_answer self.now.state (member_of self.now.state caller.now.name)) }
    {
        let Some(day) = self.cycle.day() else {
            return Ok(Answer::No(Refusal::NotGreeted));
        };
        let Some(mode) = self.cycle.mode() else {
            return Ok(Answer::No(Refusal::NotGreeted));
        };
        let problems = self.problems()?;
        let rows = proof_rows(&MemberProof {
            roster: &self.roster,
            book: &self.book,
            tolerances: &self.tolerances,
            cycle: &self.cycle,
            problems: problems.as_slice(),
            mode,
            member: self.place_of(caller),
        })?;
        let head = ProofHead {
            cycle: self.cycle.number(),
            version: self.cycle.version(),
            day,
            mode,
            begun: 0,
        };
        let rows = Listed::new(rows);
        Ok(Answer::ProofRows { head, rows })
    }
}
