//! The votes that a plan waits for.

ghost use Rattle.std.specs.Prelude.{◌≡◌, ℕ, ◌<◌, ◌&&◌, ◌∷◌, not, nat_lt, IsTrue};
ghost use Rattle.command_types.specs.CycleRefusals.{has_voted};
ghost use Rattle.units_core.specs.declared.limits.TheConstants.{MOST_MEMBERS};

use acceptance::Votes;
use units_core::{MOST_MEMBERS, MemberNo};

// Whether the plan needs the member's vote, and waits for it.
fn is_open(votes: &Votes, voter: MemberNo) -> bool
    ensures { result ≡ (nat_lt voter MOST_MEMBERS && has_voted votes.now.needed voter && not (has_voted votes.now.accepted voter)) }
{
    voter.0 < MOST_MEMBERS && votes.needs(voter) && !votes.has(voter)
}

/// Takes a vote that the plan waits for; any other counts for nothing. It takes no memory.
pub fn add_vote(votes: &mut Votes, voter: MemberNo)
    ensures needed { votes.new.needed ≡ votes.old.needed }
    ensures accepted { (m : ℕ) → m < MOST_MEMBERS → IsTrue (has_voted votes.old.needed m) → has_voted votes.new.accepted m ≡ has_voted (voter ∷ votes.old.accepted) m }
{
    if is_open(votes, voter) {
        votes.accept(voter);
    }
}
