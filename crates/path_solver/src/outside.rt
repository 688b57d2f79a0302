//! The members that are not reached, and their ways to those that are.

ghost use Rattle.std.specs.Prelude.{◌≡◌, ℕ, ◌+◌, ◌<◌, ◌≤◌, true, length, slice_index};
ghost use Rattle.member_set.specs.Members.{has};
ghost use Rattle.path_solver.specs.Entries.{is_entry, is_open_to};

use crate::entries::Entry;
use crate::layers::open_to;
use member_set::MemberSet;

/// The members from which arcs with room lead to one of the set.
pub fn around(entries: &[Entry], set: &MemberSet) -> MemberSet
    requires { (v : ℕ) → has set.now v ≡ true → v < length entries.now }
    ensures near { (u : ℕ) → has result u ≡ true → (h : ℕ) × (has set.now h ≡ true) × (is_entry entries.now h u ≡ true) }
    ensures all { (h u : ℕ) → has set.now h ≡ true → is_entry entries.now h u ≡ true → has result u ≡ true }
{
    let mut around = MemberSet::new();
    for place in 0..4u16 {
        let mut left = set.part(place);
        while let Some(here) = left.take_lowest() {
            let entry = &entries[here as usize];
            around = around.or(&entry.sellers).or(&entry.buyers);
        }
    }
    around
}

/// The members of the set to which open arcs lead from these members.
pub fn entered_from(
    exits: &[Entry],
    groups: &[MemberSet],
    prices: &[u16],
    members: MemberSet,
    set: &MemberSet,
) -> MemberSet
    requires exits { (v : ℕ) → has members v ≡ true → v < length exits.now }
    requires prices { length prices.now ≡ length exits.now }
    requires low { (v : ℕ) → slice_index prices.now v + 3 ≤ length groups.now }
    ensures inside { (h : ℕ) → has result h ≡ true → has set.now h ≡ true }
    ensures all { (u h : ℕ) → has members u ≡ true → has set.now h ≡ true → is_open_to exits.now groups.now (slice_index prices.now u) u h ≡ true → has result h ≡ true }
{
    let mut open = MemberSet::new();
    for place in 0..4u16 {
        let mut left = members.part(place);
        while let Some(here) = left.take_lowest() {
            open = open.or(&open_to(exits, groups, prices[here as usize], here));
        }
    }
    open.and(set)
}
