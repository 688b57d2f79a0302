//! Breadth first from the members that have to receive, back along open arcs, a level at a time.

ghost use Rattle.std.specs.Prelude.{◌≡◌, ◌↔◌, ℕ, ◌+◌, ◌<◌, ◌≤◌, true, false, length, slice_index, IsNone, IfSome};
ghost use Rattle.member_set.specs.Members.{has};
ghost use Rattle.path_solver.specs.Entries.{IsOpenInto, is_open_to};
ghost use Rattle.path_solver.specs.Groups.{AreSorted};
ghost use Rattle.path_solver.specs.Rests.{AreApart, HaveSome};
ghost use Rattle.path_solver.specs.Levels.{IsLayered, AreShortest, AreLayers, AreWholeLayers};
ghost use Rattle.path_solver.specs.Works.{IsWork, IsSearched};

use crate::entries::Entry;
use crate::search::{Search, mark};
use crate::work::Work;
use member_set::MemberSet;

/// What a search goes by: the members by their prices, the price of each, and those that it looks for.
#[derive(Clone, Copy)]
pub struct Aim<'a> {
    pub groups: &'a [MemberSet],
    pub prices: &'a [u16],
    pub senders: &'a MemberSet,
}

/// Goes on with a search until it finds a member that has to send, on the first level that has one. The last level then
/// has those alone, and other members on it or behind it stay unreached. It is not inlined, so that its sets
/// stay in registers.
#[inline(never)]
pub fn layer(
    work: &Work,
    aim: &Aim<'_>,
    levels: &mut [u16],
    layers: &mut [MemberSet],
    search: &mut Search,
) -> Option<u16>
    requires work { IsWork work.now }
    requires senders { HaveSome work.now.balance.surplus.items aim.now.senders.now }
    requires sorted { AreSorted work.now.residual.members aim.now.prices.now aim.now.groups.now }
    requires levels { work.now.residual.members ≡ length levels.old }
    requires layers { work.now.residual.members + 1 ≤ length layers.old }
    requires apart { AreApart work.now.balance.surplus.items work.now.balance.lack.items }
    requires searched { IsSearched work.now aim.now.prices.now levels.old layers.old search.old }
    ensures layered { IsLayered work.now.residual.flows aim.now.prices.now work.now.balance.surplus.items work.now.balance.lack.items levels.new result }
    ensures shortest { IfSome result (λ s. AreShortest work.now.residual.flows aim.now.prices.now work.now.balance.surplus.items work.now.balance.lack.items levels.new (slice_index levels.new s)) }
    ensures layers { IfSome result (λ s. AreLayers levels.new layers.new (slice_index levels.new s + 1)) }
    ensures whole { IfSome result (λ s. AreWholeLayers levels.new layers.new (slice_index levels.new s + 1)) }
    ensures low { IfSome result (λ s. slice_index levels.new s ≤ work.now.residual.members) }
    ensures searched { IsNone result → IsSearched work.now aim.now.prices.now levels.new layers.new search.new }
{
    let entries: &[Entry] = &work.neighbours.entries;
    let mut seen = search.seen;
    let mut now = search.now;
    let mut level = search.level;
    'spreads: while !now.is_empty() {
        let met = now.and(aim.senders);
        if !met.is_empty() {
            layers[level as usize] = met;
            mark(met, level, levels);
            match met.lowest() {
                Some(source) => return Some(source),
                None => unreachable!(),
            }
        }
        layers[level as usize] = now;
        seen = seen.or(&now);
        let near = visit(entries, aim, now, level, levels);
        now = near.without(&seen);
        level += 1;
    }
    *search = Search { level, now, seen };
    None
}

/// Puts members on a level, and tells from which members open arcs lead to one of them.
fn visit(
    entries: &[Entry],
    aim: &Aim<'_>,
    members: MemberSet,
    level: u16,
    levels: &mut [u16],
) -> MemberSet
    requires levels { (v : ℕ) → has members v ≡ true → v < length levels.old }
    requires entries { length entries.now ≡ length levels.old }
    requires prices { length aim.now.prices.now ≡ length levels.old }
    requires low { (v : ℕ) → slice_index aim.now.prices.now v + 3 ≤ length aim.now.groups.now }
    ensures marked { (v : ℕ) → has members v ≡ true → slice_index levels.new v ≡ level }
    ensures others { (v : ℕ) → has members v ≡ false → slice_index levels.new v ≡ slice_index levels.old v }
    ensures near { (u : ℕ) → has result u ≡ true → IsOpenInto entries.now aim.now.groups.now aim.now.prices.now members u }
    ensures all { (h u : ℕ) → has members h ≡ true → is_open_to entries.now aim.now.groups.now (slice_index aim.now.prices.now h) h u ≡ true → has result u ≡ true }
{
    let mut near = MemberSet::new();
    for place in 0..4u16 {
        let mut left = members.part(place);
        while let Some(here) = left.take_lowest() {
            levels[here as usize] = level;
            near = near.or(&open_to(entries, aim.groups, aim.prices[here as usize], here));
        }
    }
    near
}

/// The members from which an open arc leads here, or in the graph turned round those to which one leads.
pub fn open_to(entries: &[Entry], groups: &[MemberSet], price: u16, here: u16) -> MemberSet
    requires here { here < length entries.now }
    requires price { price + 3 ≤ length groups.now }
    ensures { (u : ℕ) → has result u ≡ is_open_to entries.now groups.now price here u }
{
    let entry = &entries[here as usize];
    let sellers = entry.sellers.and(&groups[price as usize + 2]);
    let buyers = entry.buyers.and(&groups[price as usize]);
    sellers.or(&buyers)
}
