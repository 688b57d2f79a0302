//! A set of members below 256, one flag each, in four words.

ghost use Rattle.std.specs.Prelude.{◌≡◌, ℕ, ◌<◌, ◌≤◌, ◌==◌, ◌||◌, nat_lt, true, false};
ghost use Rattle.acceptance.specs.Votes.{is_flagged};
ghost use Rattle.units_core.specs.declared.limits.TheConstants.{MOST_MEMBERS};

use units_core::MemberNo;

/// For each member below 256 whether it is in the set.
#[derive(Clone, Copy)]
pub(super) struct Flags {
    pub words: [u64; 4],
}

impl Flags {
    /// No member is in the set.
    pub(super) fn none() -> Flags
        ensures { (m : ℕ) → is_flagged result.words m ≡ false }
    {
        Flags { words: [0; 4] }
    }

    /// The members below so many are in the set.
    pub(super) fn below(members: u16) -> Flags
        requires { members ≤ MOST_MEMBERS }
        ensures { (m : ℕ) → is_flagged result.words m ≡ nat_lt m members }
    {
        let mut all = Flags::none();
        for place in 0..members {
            all.insert(MemberNo(place));
        }
        all
    }

    /// Whether both sets have the same members.
    pub(super) fn are(&self, other: &Flags) -> bool
        ensures { result ≡ true → (m : ℕ) → is_flagged self.now.words m ≡ is_flagged other.now.words m }
    {
        self.words == other.words
    }

    /// Whether the member is in the set.
    pub(super) fn has(&self, member: MemberNo) -> bool
        requires { member < MOST_MEMBERS }
        ensures { result ≡ is_flagged self.now.words member }
    {
        let place = member.index();
        (self.words[place / 64] >> (place % 64)) & 1 == 1
    }

    /// Puts the member into the set.
    pub(super) fn insert(&mut self, member: MemberNo)
        requires { member < MOST_MEMBERS }
        ensures { (m : ℕ) → is_flagged self.new.words m ≡ ((member == m) || is_flagged self.old.words m) }
    {
        let place = member.index();
        let word = self.words[place / 64];
        self.words[place / 64] = word | 1 << (place % 64);
    }
}
