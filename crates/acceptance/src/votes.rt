//! The votes on a plan: who must accept it, and who has.

ghost use Rattle.std.specs.Prelude.{◌≡◌, ℕ, ◌<◌, ◌&&◌, ◌∷◌, [], not, IsTrue, IsFalse};
ghost use Rattle.command_types.specs.CycleRefusals.{has_voted};
ghost use Rattle.acceptance.specs.Votes.{is_flagged, flagged, left_of};
ghost use Rattle.units_core.specs.declared.limits.TheConstants.{MOST_MEMBERS};

use crate::flags::Flags;
use std::marker::Model;
use units_core::MemberNo;

/// The members that must accept a plan, and those that have, all below 256. They take no memory, and contracts see
/// them as the two lists of members.
#[derive(Drop)]
pub struct Votes {
    needed: Flags,
    accepted: Flags,
}

impl Model for Votes {
    ghost use Rattle.acceptance.specs.Votes.{VotesView, flagged};

    ghost Value = { VotesView };

    ghost view = { λ v. record { needed = flagged v.needed.words; accepted = flagged v.accepted.words } };
}

// Whether a member of a set is not in another.
fn is_left(needed: &Flags, accepted: &Flags, member: MemberNo) -> bool
    requires { member < MOST_MEMBERS }
    ensures { result ≡ (is_flagged needed.now.words member && not (is_flagged accepted.now.words member)) }
{
    needed.has(member) && !accepted.has(member)
}

// How many members of a set are not in another.
fn count_left(needed: &Flags, accepted: &Flags) -> u32
    ensures { result ≡ left_of (flagged needed.now.words) (flagged accepted.now.words) }
{
    let mut left = 0;
    for place in 0..256 {
        if is_left(needed, accepted, MemberNo(place)) {
            left += 1;
        }
    }
    left
}

impl Votes {
    /// The votes of the members of a set, none of whom has accepted.
    pub(super) fn of(needed: Flags) -> Votes
        ensures needed { result.needed ≡ flagged needed.words }
        ensures accepted { result.accepted ≡ [] }
    {
        Votes {
            needed,
            accepted: Flags::none(),
        }
    }

    /// Of no plan: nobody's vote is needed.
    pub fn none() -> Votes
        ensures needed { result.needed ≡ [] }
        ensures accepted { result.accepted ≡ [] }
    {
        Votes::of(Flags::none())
    }

    /// The same votes. It takes no memory.
    pub fn copy(&self) -> Votes
        ensures { result ≡ self.now }
    {
        Votes {
            needed: self.needed,
            accepted: self.accepted,
        }
    }

    /// Whether the plan needs the member's vote.
    pub fn needs(&self, member: MemberNo) -> bool
        requires { member < MOST_MEMBERS }
        ensures { result ≡ has_voted self.now.needed member }
    {
        self.needed.has(member)
    }

    /// Whether the member has accepted.
    pub fn has(&self, member: MemberNo) -> bool
        requires { member < MOST_MEMBERS }
        ensures { result ≡ has_voted self.now.accepted member }
    {
        self.accepted.has(member)
    }

    /// How many members still have to accept.
    pub fn left(&self) -> u32
        ensures { result ≡ left_of self.now.needed self.now.accepted }
    {
        count_left(&self.needed, &self.accepted)
    }

    /// The member accepts, which is needed and has not accepted yet.
    pub fn accept(&mut self, member: MemberNo)
        requires member { member < MOST_MEMBERS }
        requires needed { IsTrue (has_voted self.old.needed member) }
        requires first { IsFalse (has_voted self.old.accepted member) }
        ensures needed { self.new.needed ≡ self.old.needed }
        ensures accepted { (m : ℕ) → has_voted self.new.accepted m ≡ has_voted (member ∷ self.old.accepted) m }
    {
        self.accepted.insert(member);
    }
}
