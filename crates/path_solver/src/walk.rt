//! Down the levels of a search, back where there is no way on.

ghost use Rattle.std.specs.Prelude.{◌≡◌, ◌+◌, ℕ, ◌<◌, ◌≤◌, length, false, slice_index, take, IfSome, IsNone, IsSome};
ghost use Rattle.path_solver.specs.Labels.{CanGo, AreLevelsIn, top_of, AreLayersFrom, AreWholeFrom, ArePrunedFrom, IsPathDownFrom, IsTrailFrom};
ghost use Rattle.path_solver.specs.Levels.{layer_at};
ghost use Rattle.path_solver.specs.Pruned.{AreFewer};
ghost use Rattle.member_set.specs.Members.{has};

use crate::stand::Trip;
use crate::work::Work;
use member_set::MemberSet;

/// From a member down the levels along open arcs to one that has to receive, on from where a walk stands. The path has
/// as many arcs as the member's level tells. A member from which there is no way on is taken out of its layer: no later
/// walk comes there again. Where nobody is left in a layer there is no way from those above it, which are emptied then.
/// The first walk over new levels always finds a way.
pub fn walk(work: &Work, layers: &mut [MemberSet], path: &mut [u32], trip: &Trip<'_>) -> Option<u16>
    requires trip { CanGo work.now trip.now layers.old path.old }
    ensures path { IfSome result (λ end. IsPathDownFrom work.now trip.now end (take (top_of trip.now) path.new)) }
    ensures trail { IfSome result (λ end. IsTrailFrom work.now trip.now layers.new path.new 0 end) }
    ensures layers { AreLayersFrom trip.now layers.new }
    ensures pruned { ArePrunedFrom work.now trip.now layers.new }
    ensures fewer { AreFewer layers.old layers.new }
    ensures gone { IsNone result → has (layer_at layers.new (top_of trip.now)) trip.now.from ≡ false }
    ensures fresh { AreLevelsIn work.now trip.now.labels.now → AreWholeFrom trip.now layers.old → IsSome result }
{
    let top = trip.labels.levels[trip.from as usize] as usize;
    let mut level = top - trip.stand.done;
    let mut here = trip.stand.here;
    'steps: loop {
        if level == 0 {
            if work.balance.lack_of(here) > 0 {
                return Some(here);
            }
        } else if let Some(exit) = work.neighbours.way_into(
            trip.labels.groups,
            trip.labels.prices[here as usize],
            here,
            &layers[level - 1],
        ) {
            path[top - level] = exit.arc;
            level -= 1;
            here = exit.head;
            continue 'steps;
        }
        layers[level].drop_member(here);
        if layers[level].is_empty() {
            empty_above(layers, level, top);
            return None;
        }
        if level == top {
            return None;
        }
        level += 1;
        here = work.residual.tail(path[top - level]);
    }
}

/// Empties the layers above a level, up to the top.
fn empty_above(layers: &mut [MemberSet], level: usize, top: usize)
    requires order { level ≤ top }
    requires room { top < length layers.old }
    ensures above { (k v : ℕ) → level < k → k ≤ top → has (layer_at layers.new k) v ≡ false }
    ensures below { (k : ℕ) → k ≤ level → layer_at layers.new k ≡ layer_at layers.old k }
    ensures fewer { AreFewer layers.old layers.new }
{
    for place in level + 1..top + 1 {
        layers[place] = MemberSet::new();
    }
}
