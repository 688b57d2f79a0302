//! The members by their prices, as sets.

ghost use Rattle.std.specs.Prelude.{◌≡◌, ℕ, ◌+◌, ◌<◌, ◌≤◌, false, length, slice_index};
ghost use Rattle.member_set.specs.Members.{has};
ghost use Rattle.path_solver.specs.Groups.{AreGroups, group_at, is_moved_to};

use member_set::MemberSet;

/// Sorts the members into groups: the members of one price are the group whose number is one higher.
pub fn sort_by_price(prices: &[u16], groups: &mut [MemberSet])
    requires few { length prices.now ≤ 256 }
    requires room { (v : ℕ) → slice_index prices.now v + 2 ≤ length groups.old }
    ensures { AreGroups prices.now groups.new }
{
    for group in groups.iter_mut() {
        *group = MemberSet::new();
    }
    for member in 0..prices.len() {
        let place = prices[member] as usize + 1;
        groups[place].put(member as u16);
    }
}

/// Moves all but the members that stay to the next group. No member is in a group behind `most`.
pub fn move_up(groups: &mut [MemberSet], stay: &MemberSet, most: usize)
    requires room { most + 1 < length groups.old }
    requires none { (v : ℕ) → has (group_at groups.old 0) v ≡ false }
    ensures moved { (g v : ℕ) → 0 < g → g ≤ most + 1 → has (group_at groups.new g) v ≡ is_moved_to groups.old stay.now g v }
    ensures lowest { group_at groups.new 0 ≡ group_at groups.old 0 }
    ensures others { (g : ℕ) → most + 1 < g → group_at groups.new g ≡ group_at groups.old g }
{
    let stay = *stay;
    let mut leaving = MemberSet::new();
    for place in 1..most + 2 {
        let here = groups[place];
        groups[place] = here.and(&stay).or(&leaving);
        leaving = here.without(&stay);
    }
}
