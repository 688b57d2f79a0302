//! POST: the operator posts a solution for each of the version's problems. Where their plan touches a member, it is proposed;
//! else it is executed at once.

ghost use Rattle.std.specs.Prelude.{[], ◌∷◌, ◌≡◌, ◌≤◌, is_some, length, All, IfOk, IsTrue, None, OnOk};
ghost use Rattle.std.specs.Result.{result_err};
ghost use Rattle.network_laws.specs.Solutions.{IsSolution};
ghost use Rattle.command_types.specs.CycleRefusals.{if_bad_post, post_refusals};
ghost use Rattle.command_types.specs.CycleSteps.{after_post, post_answer};
ghost use Rattle.command_types.specs.Cycles.{bad_post, gross_of_all, is_solving, new_networks, old_networks, posted_plan};
ghost use Rattle.command_types.specs.Machine.{first_of};
ghost use Rattle.cycle_states.specs.Ballot.{IsBallotIn};
ghost use Rattle.cycle_states.specs.Effects.{post_effect, MayApply};
ghost use Rattle.cycle_states.specs.Frozen.{HaveTheirPlans};
ghost use Rattle.cycle_states.specs.Party.{IsCaller};
ghost use Rattle.units_core.specs.declared.limits.TheConstants.{MOST_PRODUCTS};

use crate::machine::Machine;
use crate::machine::ballot::ballot_on;
use crate::machine::cycle::{Cycle, is_solving};
use crate::machine::effect::Effect;
use crate::machine::frozen::Frozen;
use crate::machine::parties::member_count;
use crate::machine::party::Caller;
use crate::machine::ready::Made;
use crate::machine::solutions::copies;
use command_types::{Answer, Listed, PlanRow, Refusal};
use network_laws::{Problem, Solution};
use posting::{bad_post, gross_after, gross_before, plan_from_free, posted_plan};
use product_book::Book;
use std::alloc::AllocError;

// What solutions, one for each of the version's problems, change in the trades, whose free ones are taken as they are kept, or
// sorted for once. The only error is want of memory.
fn plan_posted(
    book: &Book,
    cycle: &Cycle,
    frozen: &Frozen,
    problems: &[Problem],
    solutions: &[Solution],
) -> Result<Vec<PlanRow>, AllocError>
    requires day { IsTrue (is_some cycle.now.day) }
    requires free { HaveTheirPlans book.now.rows frozen.now.free }
    requires problems { problems.now ≡ cycle.now.begun }
    requires few { length cycle.now.begun ≤ MOST_PRODUCTS }
    requires one_each { length solutions.now ≡ length cycle.now.begun }
    ensures { IfOk result (λ plan. plan.items ≡ posted_plan cycle.now book.now.rows solutions.now) }
{
    let alloc = cycle.allocator();
    match cycle.day() {
        None => unreachable!(),
        Some(day) => match frozen.free() {
            Some(free) => plan_from_free(alloc, free, problems, solutions, day),
            None => posted_plan(alloc, book.rows(), problems, solutions, day),
        },
    }
}

// What the POST of a plan that touches nobody is answered.
fn nothing(cycle: &Cycle) -> Answer
    ensures { result ≡ Answer.Nothing cycle.now.number cycle.now.version }
{
    Answer::Nothing {
        cycle: cycle.number(),
        version: cycle.version(),
    }
}

// What any other POST of solutions of the version's problems is answered.
fn proposed(cycle: &Cycle, problems: &[Problem], solutions: &[Solution]) -> Answer
    requires { problems.now ≡ cycle.now.begun }
    ensures { result ≡ Answer.Proposed cycle.now.number cycle.now.version (gross_of_all (old_networks cycle.now.begun)) (gross_of_all (new_networks solutions.now)) }
{
    Answer::Proposed {
        cycle: cycle.number(),
        version: cycle.version(),
        before: gross_before(problems),
        after: gross_after(solutions),
    }
}

impl Machine {
    // If the solutions are not certified for the begun problems.
    fn if_bad_post(&self, problems: &[Problem], solutions: &[Solution]) -> Result<(), Refusal>
        requires solving { IsTrue (is_solving self.now.state.cycle.phase) }
        requires problems { problems.now ≡ self.now.state.cycle.begun }
        ensures { result_err result ≡ first_of (if_bad_post (bad_post (length self.now.state.roster.members) self.now.state.cycle.begun solutions.now) ∷ []) }
    {
        match bad_post(member_count(&self.roster), problems, solutions) {
            None => Ok(()),
            Some(post) => Err(Refusal::BadCertificate { post }),
        }
    }

    /// POST: 14, 16, 21, 17, 18, 24. While the version stands, these are its problems.
    pub(super) fn check_post(
        &self,
        caller: &Caller,
        cycle: u64,
        version: u64,
        problems: &[Problem],
        solutions: &[Solution],
    ) -> Result<(), Refusal>
        requires problems { IsTrue (is_solving self.now.state.cycle.phase) → problems.now ≡ self.now.state.cycle.begun }
        requires caller { IsCaller self.now.state.roster caller.now }
        ensures { result_err result ≡ first_of (post_refusals self.now.state caller.now.name cycle version solutions.now) }
    {
        let phase = self.cycle.phase();
        if let Err(refusal) = self.unless_operator(caller) {
            return Err(refusal);
        }
        self.unless_cycle(cycle)?;
        self.if_broken()?;
        self.unless_phase(is_solving(phase))?;
        self.unless_version(version)?;
        self.if_bad_post(problems, solutions)
    }

    /// What the POST of certified solutions is answered.
    pub(super) fn post_answer(&self, solutions: &[Solution]) -> Result<Answer, AllocError>
        requires solving { IsTrue (is_solving self.now.state.cycle.phase) }
        requires certified { bad_post (length self.now.state.roster.members) self.now.state.cycle.begun solutions.now ≡ None }
        ensures { IfOk result (λ answer. answer ≡ post_answer self.now.state solutions.now) }
    {
        let problems = self.problems()?;
        let plan = plan_posted(
            &self.book,
            &self.cycle,
            &self.frozen,
            problems.as_slice(),
            solutions,
        )?;
        let (_, nobody) = ballot_on(&self.book, &self.roster, &self.cycle, solutions, &plan);
        if nobody {
            return Ok(nothing(&self.cycle));
        }
        Ok(proposed(&self.cycle, problems.as_slice(), solutions))
    }

    /// What the POST of certified solutions is answered, and what it does. Its plan, its gross and whom it touches are
    /// found once, and so is the ballot for all the votes. The only error is want of memory.
    pub(super) fn posting(&self, solutions: &[Solution]) -> Result<Made, AllocError>
        requires solving { IsTrue (is_solving self.now.state.cycle.phase) }
        requires certified { bad_post (length self.now.state.roster.members) self.now.state.cycle.begun solutions.now ≡ None }
        ensures told { IfOk result (λ made. made.answer ≡ post_answer self.now.state solutions.now) }
        ensures does { IfOk result (λ made. made.effect ≡ post_effect self.now.state solutions.now) }
        ensures may { IfOk result (λ made. MayApply self.now.state made.effect) }
        ensures ballot { IfOk result (λ made. IsBallotIn (after_post self.now.state solutions.now) made.ballot) }
        ensures solutions { OnOk result (All IsSolution solutions.now) }
    {
        let problems = self.problems()?;
        let plan = plan_posted(
            &self.book,
            &self.cycle,
            &self.frozen,
            problems.as_slice(),
            solutions,
        )?;
        let (ballot, nobody) = ballot_on(&self.book, &self.roster, &self.cycle, solutions, &plan);
        if nobody {
            let plan = Listed::new(plan);
            return Ok(Made {
                answer: nothing(&self.cycle),
                effect: Effect::Execute { plan },
                ballot,
            });
        }
        let answer = proposed(&self.cycle, problems.as_slice(), solutions);
        let copies = copies(self.cycle.allocator(), solutions)?;
        let (solutions, plan) = (Listed::new(copies), Listed::new(plan));
        Ok(Made {
            answer,
            effect: Effect::Propose { solutions, plan },
            ballot,
        })
    }
}
