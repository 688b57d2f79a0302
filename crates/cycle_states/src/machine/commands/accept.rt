//! ACCEPT: a member that the plan touches votes for it. The last vote executes the plan.

ghost use Rattle.std.specs.Prelude.{[], ◌∷◌, ◌≡◌, ◌<◌, length, IsTrue};
ghost use Rattle.std.specs.Result.{result_err};
ghost use Rattle.command_types.specs.CycleRefusals.{accept_refusals, has_voted, if_voted};
ghost use Rattle.command_types.specs.CycleSteps.{accept_answer, after_accept, executed_answer, left_after};
ghost use Rattle.command_types.specs.Cycles.{is_proposed};
ghost use Rattle.command_types.specs.Execution.{IsExecutable};
ghost use Rattle.command_types.specs.Machine.{first_of};
ghost use Rattle.cycle_states.specs.Ballot.{IsBallotIn, MayVote};
ghost use Rattle.cycle_states.specs.Effects.{accept_effect, MayApply};
ghost use Rattle.cycle_states.specs.Party.{IsCaller};
ghost use Rattle.units_core.specs.declared.limits.TheConstants.{MOST_MEMBERS};

use crate::machine::Machine;
use crate::machine::ballot::Ballot;
use crate::machine::conditions::refuse_if;
use crate::machine::cycle::{Cycle, is_proposed};
use crate::machine::effect::Effect;
use crate::machine::party::Caller;
use crate::machine::ready::Made;
use command_types::{Answer, Refusal};
use posting::counts_of;
use units_core::MemberNo;

// Whether the member is among those that have voted.
fn has_voted(votes: &[MemberNo], member: MemberNo) -> bool
    ensures { result ≡ has_voted votes.now member }
{
    votes.iter().any(|voter| *voter == member)
}

// What a vote is answered that leaves others.
fn counted(cycle: &Cycle, left: u32) -> Answer
    ensures { result ≡ Answer.Accepted cycle.now.number cycle.now.version left }
{
    Answer::Accepted {
        cycle: cycle.number(),
        version: cycle.version(),
        left,
    }
}

// What the last vote is answered.
fn executed_answer(cycle: &Cycle) -> Answer
    ensures { result ≡ executed_answer cycle.now }
{
    let counts = counts_of(cycle.plan());
    Answer::Executed {
        cycle: cycle.number(),
        version: cycle.version(),
        ended: counts.ended,
        cut: counts.cut,
        made: counts.made,
    }
}

impl Machine {
    // If the party has voted.
    fn if_voted(&self, caller: &Caller) -> Result<(), Refusal>
        requires { IsCaller self.now.state.roster caller.now }
        ensures { result_err result ≡ first_of (if_voted self.now.state caller.now.name ∷ []) }
    {
        match self.member(caller) {
            None => Ok(()),
            Some(member) => {
                let voted = has_voted(self.cycle.votes(), member);
                refuse_if(voted, Refusal::AlreadyAccepted)
            }
        }
    }

    /// ACCEPT: 16, 21, 17, 18, 19, 20.
    pub(super) fn check_accept(
        &self,
        caller: &Caller,
        cycle: u64,
        version: u64,
    ) -> Result<(), Refusal>
        requires { IsCaller self.now.state.roster caller.now }
        ensures { result_err result ≡ first_of (accept_refusals self.now.state caller.now.name cycle version) }
    {
        let phase = self.cycle.phase();
        if let Err(refusal) = self.unless_cycle(cycle) {
            return Err(refusal);
        }
        self.if_broken()?;
        self.unless_phase(is_proposed(phase))?;
        self.unless_version(version)?;
        self.unless_touched(caller)?;
        self.if_voted(caller)
    }

    // The ballot once the member has voted, and how many votes are missing then. The plan can be executed, as long as the
    // frozen trades stand. It takes no memory.
    fn voted(&self, member: MemberNo) -> (Ballot, u32)
        requires { IsTrue (is_proposed self.now.state.cycle.phase) }
        ensures ballot { MayVote self.now.state member → IsBallotIn (after_accept self.now.state member) result.0 }
        ensures room { MayVote self.now.state member → length self.now.state.cycle.votes < MOST_MEMBERS }
        ensures left { result.1 ≡ length (left_after self.now.state member) }
        ensures executable { IsExecutable (length self.now.state.roster.members) (length self.now.state.roster.products) self.now.state.trades self.now.state.cycle.plan }
    {
        // What a book says of its trades is what the plan rests on.
        let _rows = self.book.rows();
        let ballot = self.ballot.once_voted(member);
        let left = ballot.votes.left();
        (ballot, left)
    }

    /// What the member's vote is answered. It takes no memory.
    pub(super) fn vote_answer(&self, member: MemberNo) -> Answer
        requires { IsTrue (is_proposed self.now.state.cycle.phase) }
        ensures { result ≡ accept_answer self.now.state member }
    {
        let (_, left) = self.voted(member);
        match left {
            0 => executed_answer(&self.cycle),
            left => counted(&self.cycle, left),
        }
    }

    /// What the member's vote is answered, and what it does, where the plan waits for it. Whose votes are left is found once,
    /// and no step of the plan is looked at. It takes no memory.
    pub(super) fn vote(&self, member: MemberNo) -> Made
        requires proposed { IsTrue (is_proposed self.now.state.cycle.phase) }
        requires waits { MayVote self.now.state member }
        ensures told { result.answer ≡ accept_answer self.now.state member }
        ensures does { result.effect ≡ accept_effect self.now.state member }
        ensures may { MayApply self.now.state result.effect }
        ensures ballot { IsBallotIn (after_accept self.now.state member) result.ballot }
    {
        let (ballot, left) = self.voted(member);
        if left == 0 {
            return Made {
                answer: executed_answer(&self.cycle),
                effect: Effect::Complete,
                ballot,
            };
        }
        Made {
            answer: counted(&self.cycle, left),
            effect: Effect::Vote { member },
            ballot,
        }
    }
}
