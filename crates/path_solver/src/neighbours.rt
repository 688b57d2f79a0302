//! Between which members arcs with room lead, and the number of each pair.

ghost use Rattle.std.specs.Prelude.{◌≡◌, ◌+◌, ℕ, ◌<◌, ◌≤◌, true, false, length, IfOk, IfSome, IsNone};
ghost use Rattle.member_set.specs.Members.{has};
ghost use Rattle.path_solver.specs.Entries.{is_open_to};
ghost use Rattle.path_solver.specs.Neighbours.{AreNumbers, AreNeighbours, turned, turned_graph, IsWayInto, IsChanged};

use crate::entries::{Entry, note, note_first};
use crate::room::all_of;
use member_set::MemberSet;
use residual_graph::{Flow, Residual};
use std::alloc::{AllocError, Global};

/// The numbers of one seller's pairs, by their buyers.
#[derive(Clone, Copy)]
pub struct PairRow {
    pub numbers: [u16; 256],
}

/// From where arcs with room lead to each member, to where they lead from it, and the number of each pair.
#[derive(Drop)]
pub struct Neighbours {
    pub entries: Vec<Entry>,
    pub exits: Vec<Entry>,
    pub rows: Vec<PairRow>,
}

/// An arc that leaves a member, and the member at which it ends.
#[derive(Clone, Copy)]
pub struct Exit {
    pub arc: u32,
    pub head: u16,
}

impl Neighbours {
    /// Those of a residual graph.
    pub fn of(alloc: Global, residual: &Residual) -> Result<Neighbours, AllocError>
        ensures { IfOk result (AreNeighbours residual.now) }
    {
        let members = residual.members();
        let none = Entry {
            sellers: MemberSet::new(),
            buyers: MemberSet::new(),
        };
        let mut entries = all_of(alloc, members, none)?;
        let mut exits = all_of(alloc, members, none)?;
        let flows = residual.flows();
        for number in 0..flows.len() {
            let flow = flows[number];
            note_first(&mut entries, flow);
            note_first(&mut exits, turned(flow));
        }
        let rows = numbers_of(alloc, residual)?;
        Ok(Neighbours {
            entries,
            exits,
            rows,
        })
    }

    /// An open arc from a member, whose price this is, to one of a set.
    pub fn way_into(
        &self,
        groups: &[MemberSet],
        price: u16,
        here: u16,
        set: &MemberSet,
    ) -> Option<Exit>
        requires exits { here < length self.now.exits.items }
        requires few { length self.now.exits.items ≤ 256 }
        requires rows { length self.now.rows.items ≡ length self.now.exits.items }
        requires price { price + 3 ≤ length groups.now }
        requires set { (u : ℕ) → has set.now u ≡ true → u < length self.now.rows.items }
        ensures way { IfSome result (IsWayInto self.now groups.now price here set.now) }
        ensures none { IsNone result → (u : ℕ) → has set.now u ≡ true → is_open_to self.now.exits.items groups.now price here u ≡ false }
    {
        let exit = &self.exits[here as usize];
        let lower = &groups[price as usize];
        let higher = &groups[price as usize + 2];
        for place in 0..4u16 {
            let left = set.part(place);
            if left.is_empty() {
                continue;
            }
            if let Some(head) = left.and(&exit.buyers).and(lower).lowest() {
                let number = self.rows[here as usize].numbers[head as usize];
                return Some(Exit {
                    arc: 2 * number as u32,
                    head,
                });
            }
            if let Some(head) = left.and(&exit.sellers).and(higher).lowest() {
                let number = self.rows[head as usize].numbers[here as usize];
                return Some(Exit {
                    arc: 2 * number as u32 + 1,
                    head,
                });
            }
        }
        None
    }

    /// Notes what a pair can do.
    pub fn note(&mut self, flow: Flow)
        requires few { length self.old.entries.items ≤ 256 }
        requires exits { length self.old.exits.items ≡ length self.old.entries.items }
        requires seller { flow.seller < length self.old.entries.items }
        requires buyer { flow.buyer < length self.old.entries.items }
        ensures { IsChanged flow self.old self.new }
    {
        note(&mut self.entries, flow);
        note(&mut self.exits, turned(flow));
    }
}

/// A pair whose arcs lead the other way.
fn turned(flow: Flow) -> Flow
    ensures { result ≡ turned flow }
{
    Flow {
        back: flow.room,
        room: flow.back,
        ..flow
    }
}

/// The numbers of a residual graph's pairs.
fn numbers_of(alloc: Global, residual: &Residual) -> Result<Vec<PairRow>, AllocError>
    ensures { IfOk result (λ rows. AreNumbers residual.now rows.items) }
{
    let none = PairRow { numbers: [0; 256] };
    let mut rows = all_of(alloc, residual.members(), none)?;
    let flows = residual.flows();
    for number in 0..flows.len() {
        let flow = flows[number];
        rows[flow.seller as usize].numbers[flow.buyer as usize] = number as u16;
    }
    Ok(rows)
}
