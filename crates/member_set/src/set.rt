//! A set of members.

ghost use Rattle.std.specs.Prelude.{◌≡◌, ◌↔◌, ℕ, ◌<◌, ◌/◌, ◌==◌, ◌&&◌, ◌||◌, not, true, false, IsTrue, IsNone, IfSome};
ghost use Rattle.member_set.specs.Members.{has, has_in, size};

use crate::part::Part;

const WORDS: usize = 4;

/// A set of members, each a number below 256.
#[derive(Clone, Copy, Debug, PartialEq, Eq)]
pub struct MemberSet {
    words: [u64; 4],
}

impl MemberSet {
    /// The set that has no member.
    pub fn new() -> MemberSet
        ensures { (m : ℕ) → has result m ≡ false }
    {
        MemberSet { words: [0; 4] }
    }

    /// Whether it has no member.
    pub fn is_empty(&self) -> bool
        ensures none { IsTrue result ↔ ((m : ℕ) → has self.now m ≡ false) }
        ensures some { result ≡ false → (m : ℕ) × (has self.now m ≡ true) }
    {
        self.words[0] | self.words[1] | self.words[2] | self.words[3] == 0
    }

    /// Whether it has a member.
    pub fn has(&self, member: u16) -> bool
        requires { member < 256 }
        ensures { result ≡ has self.now member }
    {
        (self.words[(member / 64) as usize] >> (member % 64)) & 1 == 1
    }

    /// Puts a member in, if it is not there.
    pub fn put(&mut self, member: u16)
        requires { member < 256 }
        ensures { (m : ℕ) → has self.new m ≡ (m == member || has self.old m) }
    {
        self.words[(member / 64) as usize] |= 1u64 << (member % 64);
    }

    /// Takes a member out, if it is there.
    pub fn drop_member(&mut self, member: u16)
        requires { member < 256 }
        ensures { (m : ℕ) → has self.new m ≡ (not (m == member) && has self.old m) }
    {
        self.words[(member / 64) as usize] &= !(1u64 << (member % 64));
    }

    /// Its member with the lowest number.
    pub fn lowest(&self) -> Option<u16>
        ensures none { IsNone result ↔ ((m : ℕ) → has self.now m ≡ false) }
        ensures member { IfSome result (λ l. has self.now l ≡ true) }
        ensures least { IfSome result (λ l. (m : ℕ) → m < l → has self.now m ≡ false) }
        ensures within { IfSome result (λ l. l < 256) }
    {
        for place in 0..WORDS {
            let word = self.words[place];
            if word != 0 {
                return Some(64 * place as u16 + word.trailing_zeros() as u16);
            }
        }
        None
    }

    /// Takes out its member with the lowest number.
    pub fn take_lowest(&mut self) -> Option<u16>
        ensures none { IsNone result → (m : ℕ) → has self.old m ≡ false }
        ensures member { IfSome result (λ l. has self.old l ≡ true) }
        ensures least { IfSome result (λ l. (m : ℕ) → m < l → has self.old m ≡ false) }
        ensures within { IfSome result (λ l. l < 256) }
        ensures others { IfSome result (λ l. (m : ℕ) → has self.new m ≡ (not (m == l) && has self.old m)) }
        ensures fewer { IfSome result (λ _. size self.new < size self.old) }
        ensures empty { IsNone result → self.new ≡ self.old }
    {
        for place in 0..WORDS {
            let word = self.words[place];
            if word != 0 {
                let bit = word.trailing_zeros();
                self.words[place] = word & (word - 1);
                return Some(64 * place as u16 + bit as u16);
            }
        }
        None
    }

    /// Those of its members whose numbers are from 64 times the place on, and 64 at the most.
    pub fn part(&self, place: u16) -> Part
        requires { place < 4 }
        ensures members { (m : ℕ) → has_in result m ≡ (m / 64 == place && has self.now m) }
        ensures place { result.place ≡ place }
    {
        Part {
            place,
            word: self.words[place as usize],
        }
    }

    /// The members that both have.
    pub fn and(&self, other: &MemberSet) -> MemberSet
        ensures { (m : ℕ) → has result m ≡ (has self.now m && has other.now m) }
    {
        MemberSet {
            words: [
                self.words[0] & other.words[0],
                self.words[1] & other.words[1],
                self.words[2] & other.words[2],
                self.words[3] & other.words[3],
            ],
        }
    }

    /// The members that one of them has, or both.
    pub fn or(&self, other: &MemberSet) -> MemberSet
        ensures { (m : ℕ) → has result m ≡ (has self.now m || has other.now m) }
    {
        MemberSet {
            words: [
                self.words[0] | other.words[0],
                self.words[1] | other.words[1],
                self.words[2] | other.words[2],
                self.words[3] | other.words[3],
            ],
        }
    }

    /// The members that the other does not have.
    pub fn without(&self, other: &MemberSet) -> MemberSet
        ensures { (m : ℕ) → has result m ≡ (has self.now m && not (has other.now m)) }
    {
        MemberSet {
            words: [
                self.words[0] & !other.words[0],
                self.words[1] & !other.words[1],
                self.words[2] & !other.words[2],
                self.words[3] & !other.words[3],
            ],
        }
    }
}
