//! Moving an amount along a path.

ghost use Rattle.std.specs.Prelude.{◌≡◌, ℕ, ◌+◌, ◌<◌, ◌≤◌, if◌then◌else◌, length, slice_index, All};
ghost use Rattle.residual_graph.specs.Arcs.{arc_count, room, room_in};
ghost use Rattle.residual_graph.specs.Paths.{pushed_all};
ghost use Rattle.path_solver.specs.Paths.{IsPlainPath, AreTurning};
ghost use Rattle.path_solver.specs.Neighbours.{AreNeighbours};

use crate::neighbours::Neighbours;
use member_set::MemberSet;
use residual_graph::{Flow, Residual, Steps};
use std::sync::ledger::Ledger;

/// How much can move along a path, and the places of the arcs that this may fill, or whose twins it may open.
#[derive(Clone, Copy)]
pub struct Bottleneck {
    pub amount: u64,
    pub turning: MemberSet,
}

/// What can move over a pair, from seller to buyer or back, and what the other way.
#[inline(always)]
fn rooms_of(flow: Flow, forward: bool) -> (u64, u64)
    ensures room { result.0 ≡ room_in flow forward }
    ensures twin { result.1 ≡ (if forward then flow.back else flow.room) }
{
    if forward {
        (flow.room, flow.back)
    } else {
        (flow.back, flow.room)
    }
}

/// As much as every arc can take, and `most` at the most.
pub fn bottleneck_of(residual: &Residual, arcs: &[u32], most: u64) -> Bottleneck
    requires few { length arcs.now ≤ 256 }
    requires arc { All (λ a. a < arc_count residual.now.flows) arcs.now }
    requires room { All (λ a. 0 < room residual.now.flows a) arcs.now }
    requires some { 0 < most }
    ensures some { 0 < result.amount }
    ensures most { result.amount ≤ most }
    ensures all { All (λ a. result.amount ≤ room residual.now.flows a) arcs.now }
    ensures reached { result.amount < most → (k : ℕ) × (k < length arcs.now) × (room residual.now.flows (slice_index arcs.now k) ≡ result.amount) }
    ensures turning { AreTurning result.amount residual.now.flows arcs.now result.turning }
{
    let flows = residual.flows();
    let mut amount = most;
    let mut turning = MemberSet::new();
    for place in 0..arcs.len() {
        let arc = arcs[place];
        let (room, twin) = rooms_of(flows[(arc / 2) as usize], arc % 2 == 0);
        if room <= amount || twin == 0 {
            amount = amount.min(room);
            turning.put(place as u16);
        }
    }
    Bottleneck { amount, turning }
}

/// Moves an amount along a path, notes what its pairs can then do, and tells how many arcs lead to the first that is
/// filled.
#[inline(always)]
pub fn push_noting<L: Ledger>(
    residual: &mut Residual,
    neighbours: &mut Neighbours,
    path: &[u32],
    found: Bottleneck,
    steps: &mut Steps<L>,
) -> usize
    requires path { IsPlainPath found.amount residual.old.flows path.now }
    requires turning { AreTurning found.amount residual.old.flows path.now found.turning }
    requires neighbours { AreNeighbours residual.old neighbours.old }
    ensures pushed { residual.new ≡ record residual.old { flows = pushed_all found.amount residual.old.flows path.now } }
    ensures neighbours { AreNeighbours residual.new neighbours.new }
    ensures counted { steps.new ≡ steps.old + 1 }
    ensures within { result ≤ length path.now }
    ensures open { (k : ℕ) → k < result → 0 < room residual.new.flows (slice_index path.now k) }
{
    let _members = residual.members();
    residual.push_path(path, found.amount, steps);
    let mut behind = path.len();
    let mut left = found.turning;
    'places: while let Some(place) = left.take_lowest() {
        let arc = path[place as usize];
        let room = residual.room(arc);
        if room == 0 {
            behind = behind.min(place as usize);
        }
        neighbours.note(residual.flows()[(arc / 2) as usize]);
    }
    behind
}
