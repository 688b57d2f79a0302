//! Sending what members have to send.

ghost use Rattle.std.specs.Prelude.{◌≡◌, ◌+◌, ℕ, true, false, ◌<◌, ◌≤◌, length, slice_index, sum, IsNone, IsSome, IfSome};
ghost use Rattle.path_solver.specs.Works.{IsWork};
ghost use Rattle.path_solver.specs.Labels.{CanGo, AreLevelsIn, IsSentIn, IsSentOver, still_to_do, surplus_in, top_of, AreWholeFrom, AreShortestFrom, NoneIsShorterIn, IsBegunFrom};
ghost use Rattle.path_solver.specs.Levels.{layer_at, IsSource};
ghost use Rattle.path_solver.specs.Rests.{AreApart};
ghost use Rattle.member_set.specs.Members.{has};

use crate::paths::{bottleneck_of, push_noting};
use crate::stand::{Stand, Trip};
use crate::walk::walk;
use crate::work::Work;
use member_set::MemberSet;
use residual_graph::Steps;
use std::sync::ledger::Ledger;

/// Sends from the members at the level of the one that was reached first, that one first. Afterwards each path of open
/// arcs from one that has to send to one that has to receive has more.
pub fn send_phase<L: Ledger>(
    work: &mut Work,
    layers: &mut [MemberSet],
    path: &mut [u32],
    trip: &Trip<'_>,
    steps: &mut Steps<L>,
)
    requires trip { CanGo work.old trip.now layers.old path.old }
    requires whole { AreWholeFrom trip.now layers.old }
    requires source { IsSource work.old.balance.surplus.items trip.now.labels.now.levels.now trip.now.from }
    requires shortest { AreShortestFrom work.old trip.now }
    requires apart { AreApart work.old.balance.surplus.items work.old.balance.lack.items }
    requires down { AreLevelsIn work.old trip.now.labels.now }
    ensures work { IsWork work.new }
    ensures along { IsSentIn trip.now.labels.now work.old work.new }
    ensures sent { sum work.new.balance.surplus.items < sum work.old.balance.surplus.items }
    ensures few { steps.new + still_to_do trip.now.labels.now work.new ≤ steps.old + still_to_do trip.now.labels.now work.old }
    ensures deeper { NoneIsShorterIn work.new trip.now.labels.now (top_of trip.now + 1) }
{
    let mut left = layers[trip.labels.levels[trip.from as usize] as usize];
    send_once(work, layers, path, trip, steps);
    'senders: while let Some(member) = left.take_lowest() {
        let next = Trip {
            from: member,
            stand: Stand::at(member),
            ..*trip
        };
        send_all(work, layers, path, &next, steps);
    }
}

/// Sends from a member along one path as much as the path can take, and tells where the next walk can go on if
/// there was one. No path of open arcs from one that has to send to one that has to receive has fewer.
fn send_once<L: Ledger>(
    work: &mut Work,
    layers: &mut [MemberSet],
    path: &mut [u32],
    trip: &Trip<'_>,
    steps: &mut Steps<L>,
) -> Option<Stand>
    requires trip { CanGo work.old trip.now layers.old path.old }
    requires shortest { AreShortestFrom work.old trip.now }
    ensures over { IsSentOver trip.now.labels.now (top_of trip.now) work.old work.new layers.old layers.new }
    ensures begun { IfSome result (λ s. IsBegunFrom work.new trip.now layers.new path.new s) }
    ensures few { steps.new + still_to_do trip.now.labels.now work.new ≤ steps.old + still_to_do trip.now.labels.now work.old }
    ensures done { IsNone result → has (layer_at layers.new (top_of trip.now)) trip.now.from ≡ true → surplus_in work.new trip.now.from ≡ 0 }
    ensures sent { IsSome result → sum work.new.balance.surplus.items < sum work.old.balance.surplus.items }
    ensures shortest { IsSome result → NoneIsShorterIn work.old trip.now.labels.now (top_of trip.now) }
    ensures fresh { AreLevelsIn work.old trip.now.labels.now → AreWholeFrom trip.now layers.old → 0 < surplus_in work.old trip.now.from → IsSome result }
{
    let from = trip.from;
    if work.balance.surplus_of(from) == 0 {
        return None;
    }
    let Some(end) = walk(work, layers, path, trip) else {
        return None;
    };
    let arcs = &path[..trip.labels.levels[from as usize] as usize];
    let most = work.balance.between(from, end);
    let found = bottleneck_of(&work.residual, arcs, most);
    let filled = push_noting(&mut work.residual, &mut work.neighbours, arcs, found, steps);
    work.balance.take_off(from, end, found.amount);
    Some(Stand::behind(&work.residual, arcs, filled, end))
}

/// Sends from a member along paths until there is none, or nothing is left.
fn send_all<L: Ledger>(
    work: &mut Work,
    layers: &mut [MemberSet],
    path: &mut [u32],
    trip: &Trip<'_>,
    steps: &mut Steps<L>,
)
    requires trip { CanGo work.old trip.now layers.old path.old }
    requires shortest { AreShortestFrom work.old trip.now }
    ensures over { IsSentOver trip.now.labels.now (top_of trip.now) work.old work.new layers.old layers.new }
    ensures few { steps.new + still_to_do trip.now.labels.now work.new ≤ steps.old + still_to_do trip.now.labels.now work.old }
    ensures done { has (layer_at layers.new (top_of trip.now)) trip.now.from ≡ true → surplus_in work.new trip.now.from ≡ 0 }
{
    let mut stand = trip.stand;
    'paths: while let Some(behind) = send_once(
        work,
        layers,
        path,
        &Trip { stand, ..*trip },
        steps,
    ) {
        stand = behind;
    }
}
