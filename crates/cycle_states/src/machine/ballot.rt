//! What a machine keeps of its proposal beside the cycle, so that a vote costs the same whatever the plan: whose votes the
//! plan needs, who has voted, and how many trades it makes.

ghost use Rattle.std.specs.Prelude.{◌≡◌, ◌↔◌, ℕ, ◌<◌, ◌≤◌, [], ◌∷◌, true, None, All, IsTrue, length};
ghost use Rattle.network_laws.specs.Solutions.{IsSolution};
ghost use Rattle.command_types.specs.CycleRefusals.{has_voted};
ghost use Rattle.command_types.specs.Cycles.{bad_post, is_solving, posted_plan};
ghost use Rattle.command_types.specs.CycleSteps.{touched_in};
ghost use Rattle.command_types.specs.Execution.{IsExecutable};
ghost use Rattle.command_types.specs.Plans.{count_of, is_new};
ghost use Rattle.cycle_states.specs.Ballot.{waiting};
ghost use Rattle.cycle_states.specs.Machine.{state_in, IsMachine};
ghost use Rattle.units_core.specs.declared.limits.TheConstants.{MOST_MEMBERS};

use super::cycle::Cycle;
use super::parties::member_count;
use super::solutions::are_solutions;
use acceptance::{Votes, touched};
use command_types::{PlanRow, Roster};
use network_laws::Solution;
use posting::{add_vote, counts_of};
use product_book::Book;
use units_core::MemberNo;

/// Whose votes the proposed plan needs, and who has voted; and how many trades it makes.
#[derive(Drop)]
pub(super) struct Ballot {
    pub(super) votes: Votes,
    pub(super) made: u64,
}

impl Ballot {
    /// Where no plan is proposed.
    pub(super) fn none() -> Ballot {
        Ballot {
            votes: Votes::none(),
            made: 0,
        }
    }

    /// The same ballot. It takes no memory.
    pub(super) fn copy(&self) -> Ballot
        ensures { result ≡ self.now }
    {
        Ballot {
            votes: self.votes.copy(),
            made: self.made,
        }
    }

    /// The ballot once this member has voted too. It takes no memory.
    pub(super) fn once_voted(&self, member: MemberNo) -> Ballot
        ensures needed { result.votes.needed ≡ self.now.votes.needed }
        ensures voted { (m : ℕ) → m < MOST_MEMBERS → IsTrue (has_voted self.now.votes.needed m) → has_voted result.votes.accepted m ≡ has_voted (member ∷ self.now.votes.accepted) m }
        ensures made { result.made ≡ self.now.made }
    {
        let mut votes = self.votes.copy();
        add_vote(&mut votes, member);
        Ballot {
            votes,
            made: self.made,
        }
    }
}

/// The ballot of this plan, of certified solutions, on which nobody has voted yet; and whether it touches no member. It takes
/// no memory.
pub(super) fn ballot_on(
    book: &Book,
    roster: &Roster,
    cycle: &Cycle,
    solutions: &[Solution],
    plan: &[PlanRow],
) -> (Ballot, bool)
    requires kept { IsMachine roster.now book.now.members book.now.products book.now.rows cycle.now }
    requires solving { IsTrue (is_solving cycle.now.phase) }
    requires certified { bad_post (length roster.now.members) cycle.now.begun solutions.now ≡ None }
    requires planned { plan.now ≡ posted_plan cycle.now book.now.rows solutions.now }
    ensures needed { result.0.votes.needed ≡ touched_in (state_in roster.now book.now.rows cycle.now) plan.now }
    ensures voted { result.0.votes.accepted ≡ [] }
    ensures made { result.0.made ≡ count_of is_new plan.now }
    ensures room { length (waiting [] result.0.votes.needed) ≤ MOST_MEMBERS }
    ensures nobody { (result.1 ≡ true) ↔ (touched_in (state_in roster.now book.now.rows cycle.now) plan.now ≡ []) }
    ensures solutions { All IsSolution solutions.now }
    ensures executable { IsExecutable (length roster.now.members) (length roster.now.products) book.now.rows plan.now }
{
    are_solutions(solutions);
    let votes = touched(book.rows(), plan, member_count(roster));
    let nobody = votes.left() == 0;
    let made = counts_of(plan).made;
    (Ballot { votes, made }, nobody)
}
