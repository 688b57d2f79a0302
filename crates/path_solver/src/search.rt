//! How far a search has come, and how far it goes back once prices rose.

ghost use Rattle.std.specs.Prelude.{◌≡◌, ◌↔◌, ℕ, ◌<◌, ◌≤◌, true, false, length, slice_index};
ghost use Rattle.member_set.specs.Members.{has};
ghost use Rattle.path_solver.specs.Levels.{IsReached, layer_at, AreLayers, AreWholeLayers};
ghost use Rattle.path_solver.specs.Searches.{AreReached, AreCutOff};

use member_set::MemberSet;

/// The level of a member from which no open arcs lead to one that has to receive. Else the level tells how
/// many such arcs the search went back.
pub const UNREACHED: u16 = u16::MAX;

/// The members below this level were seen, and on it others come next.
#[derive(Clone, Copy)]
pub struct Search {
    pub level: u16,
    pub now: MemberSet,
    pub seen: MemberSet,
}

/// A search that starts at the members that have to receive.
pub fn start(levels: &mut [u16], receivers: &MemberSet) -> Search
    ensures forgotten { (v : ℕ) → v < length levels.old → slice_index levels.new v ≡ 65535 }
    ensures level { result.level ≡ 0 }
    ensures now { result.now ≡ receivers.now }
    ensures seen { (v : ℕ) → has result.seen v ≡ false }
{
    forget(levels);
    Search {
        level: 0,
        now: *receivers,
        seen: MemberSet::new(),
    }
}

/// No member is reached.
fn forget(levels: &mut [u16])
    ensures { (v : ℕ) → v < length levels.old → slice_index levels.new v ≡ 65535 }
{
    for level in levels.iter_mut() {
        *level = UNREACHED;
    }
}

/// Puts members on a level.
pub fn mark(members: MemberSet, level: u16, levels: &mut [u16])
    requires { (v : ℕ) → has members v ≡ true → v < length levels.old }
    ensures marked { (v : ℕ) → has members v ≡ true → slice_index levels.new v ≡ level }
    ensures others { (v : ℕ) → has members v ≡ false → slice_index levels.new v ≡ slice_index levels.old v }
{
    let mut left = members;
    while let Some(here) = left.take_lowest() {
        levels[here as usize] = level;
    }
}

/// Goes back to the lowest level on which one of these members is. No member on it or behind it is reached any more.
pub fn go_back(search: &mut Search, levels: &mut [u16], layers: &[MemberSet], entered: &MemberSet)
    requires seen { AreReached levels.old search.old.seen }
    requires below { (v : ℕ) → v < length levels.old → IsReached levels.old v → slice_index levels.old v < search.old.level }
    requires layers { AreLayers levels.old layers.now search.old.level }
    requires whole { AreWholeLayers levels.old layers.now search.old.level }
    requires room { search.old.level < length layers.now }
    requires inside { (v : ℕ) → has entered.now v ≡ true → has search.old.seen v ≡ true }
    requires some { (v : ℕ) × (has entered.now v ≡ true) }
    ensures lower { search.new.level < search.old.level }
    ensures cut_off { AreCutOff search.new.level levels.old levels.new }
    ensures now { search.new.now ≡ layer_at layers.now search.new.level }
    ensures seen { AreReached levels.new search.new.seen }
    ensures entered { (v : ℕ) → has entered.now v ≡ true → search.new.level ≤ slice_index levels.old v }
{
    let mut level = search.level;
    let mut seen = search.seen;
    let mut left = *entered;
    while !left.is_empty() {
        level -= 1;
        let layer = layers[level as usize];
        mark(layer, UNREACHED, levels);
        seen = seen.without(&layer);
        left = left.without(&layer);
    }
    let now = layers[level as usize];
    *search = Search { level, now, seen };
}
