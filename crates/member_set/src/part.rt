//! The members of a set that share a word.

ghost use Rattle.std.specs.Prelude.{◌≡◌, ◌↔◌, ℕ, ◌<◌, ◌==◌, ◌&&◌, not, true, false, IsTrue, IsNone, IfSome};
ghost use Rattle.member_set.specs.Members.{has, has_in, size_in};

use crate::set::MemberSet;

/// Members whose numbers differ in their last six bits alone.
#[derive(Clone, Copy)]
pub struct Part {
    pub place: u16,
    pub word: u64,
}

impl Part {
    /// Whether it has no member.
    pub fn is_empty(&self) -> bool
        requires { self.now.place < 4 }
        ensures { IsTrue result ↔ ((m : ℕ) → has_in self.now m ≡ false) }
    {
        self.lowest().is_none()
    }

    /// Those of its members that the set has.
    pub fn and(&self, set: &MemberSet) -> Part
        requires { self.now.place < 4 }
        ensures members { (m : ℕ) → has_in result m ≡ (has_in self.now m && has set.now m) }
        ensures place { result.place ≡ self.now.place }
    {
        let other = set.part(self.place);
        Part {
            place: self.place,
            word: self.word & other.word,
        }
    }

    /// Its member with the lowest number.
    pub fn lowest(&self) -> Option<u16>
        requires { self.now.place < 4 }
        ensures none { IsNone result ↔ ((m : ℕ) → has_in self.now m ≡ false) }
        ensures member { IfSome result (λ l. has_in self.now l ≡ true) }
        ensures least { IfSome result (λ l. (m : ℕ) → m < l → has_in self.now m ≡ false) }
        ensures within { IfSome result (λ l. l < 256) }
    {
        if self.word == 0 {
            return None;
        }
        Some(64 * self.place + self.word.trailing_zeros() as u16)
    }

    /// Takes out its member with the lowest number.
    pub fn take_lowest(&mut self) -> Option<u16>
        requires { self.old.place < 4 }
        ensures none { IsNone result → (m : ℕ) → has_in self.old m ≡ false }
        ensures member { IfSome result (λ l. has_in self.old l ≡ true) }
        ensures least { IfSome result (λ l. (m : ℕ) → m < l → has_in self.old m ≡ false) }
        ensures others { IfSome result (λ l. (m : ℕ) → has_in self.new m ≡ (not (m == l) && has_in self.old m)) }
        ensures fewer { IfSome result (λ _. size_in self.new < size_in self.old) }
        ensures place { self.new.place ≡ self.old.place }
    {
        if self.word == 0 {
            return None;
        }
        let lowest = 64 * self.place + self.word.trailing_zeros() as u16;
        self.word &= self.word - 1;
        Some(lowest)
    }
}
