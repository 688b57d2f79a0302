//! Prices of members, from phase to phase.

ghost use Rattle.std.specs.Prelude.{◌≡◌, ◌↔◌, ℕ, ◌+◌, ◌<◌, ◌≤◌, true, length, slice_index, IfOk};
ghost use Rattle.member_set.specs.Members.{has};

use crate::groups::{move_up, sort_by_price};
use crate::outside::{around, entered_from};
use crate::room::all_of;
use crate::search::{Search, UNREACHED, go_back};
use crate::work::Work;
use member_set::MemberSet;
use std::alloc::{AllocError, Global};

/// The price of each member, the members by their prices, and the price of those that have to send, the highest.
#[derive(Drop)]
pub struct Prices {
    pub by_member: Vec<u16>,
    pub groups: Vec<MemberSet>,
    pub top: u16,
}

impl Prices {
    ghost use Rattle.path_solver.specs.Groups.{AreGroups, AreSortedIn};
    ghost use Rattle.path_solver.specs.Levels.{IsReached, AreCut};
    ghost use Rattle.path_solver.specs.Phases.{raised_price};
    ghost use Rattle.path_solver.specs.Works.{IsWork, IsSearched, IsFeasibleIn, ArePhased};

    /// These prices of the first phase.
    pub fn first(alloc: Global, by_member: Vec<u16>) -> Result<Prices, AllocError>
        requires few { length by_member.items ≤ 256 }
        requires low { (v : ℕ) → slice_index by_member.items v ≤ length by_member.items }
        ensures same { IfOk result (λ prices. prices.by_member.items ≡ by_member.items) }
        ensures top { IfOk result (λ prices. prices.top ≡ 1) }
        ensures sorted { IfOk result (AreSortedIn (length by_member.items)) }
    {
        let mut groups = all_of(alloc, by_member.len() as u16 + 3, MemberSet::new())?;
        sort_by_price(&by_member, &mut groups);
        Ok(Prices {
            by_member,
            groups,
            top: 1,
        })
    }

    /// Raises by 1 the prices of the members that are not reached, each of which moves to the next group.
    fn raise(&mut self, levels: &[u16], reached: &MemberSet)
        requires same_length { length levels.now ≡ length self.old.by_member.items }
        requires reached { (v : ℕ) → (has reached.now v ≡ true) ↔ ((v < length self.old.by_member.items) × IsReached levels.now v) }
        requires most { (v : ℕ) → slice_index self.old.by_member.items v ≤ self.old.top }
        requires low { self.old.top < 65535 }
        requires room { self.old.top + 3 ≤ length self.old.groups.items }
        requires sorted { AreGroups self.old.by_member.items self.old.groups.items }
        ensures one_each { length self.new.by_member.items ≡ length self.old.by_member.items }
        ensures raised { (v : ℕ) → v < length self.old.by_member.items → slice_index self.new.by_member.items v ≡ raised_price levels.now self.old.by_member.items v }
        ensures top { self.new.top ≡ self.old.top + 1 }
        ensures groups { length self.new.groups.items ≡ length self.old.groups.items }
        ensures sorted { AreGroups self.new.by_member.items self.new.groups.items }
    {
        let most = self.top as usize + 1;
        move_up(&mut self.groups, reached, most);
        let prices: &mut [u16] = &mut self.by_member;
        for member in 0..prices.len() {
            prices[member] += u16::from(levels[member] == UNREACHED);
        }
        self.top += 1;
    }

    /// Raises the prices of the members that are not reached until an open arc leads from one of them to a reached one.
    /// The search goes back to the lowest level that such an arc enters.
    pub fn next_phase(
        &mut self,
        work: &Work,
        levels: &mut [u16],
        layers: &[MemberSet],
        search: &mut Search,
    )
        requires work { IsWork work.now }
        requires sorted { AreSortedIn work.now.residual.members self.old }
        requires phase { ArePhased work.now self.old }
        requires feasible { IsFeasibleIn work.now }
        requires sends { (v : ℕ) × (0 < slice_index work.now.balance.surplus.items v) }
        requires layers { work.now.residual.members < length layers.now }
        requires cut { AreCut work.now.residual.flows self.old.by_member.items work.now.balance.surplus.items work.now.balance.lack.items levels.old }
        requires searched { IsSearched work.now self.old.by_member.items levels.old layers.now search.old }
        ensures sorted { AreSortedIn work.now.residual.members self.new }
        ensures phase { ArePhased work.now self.new }
        ensures later { self.old.top < self.new.top }
        ensures searched { IsSearched work.now self.new.by_member.items levels.new layers.now search.new }
    {
        let others = around(&work.neighbours.entries, &search.seen).without(&search.seen);
        let mut entered = MemberSet::new();
        'raises: while entered.is_empty() {
            self.raise(levels, &search.seen);
            entered = entered_from(
                &work.neighbours.exits,
                &self.groups,
                &self.by_member,
                others,
                &search.seen,
            );
        }
        go_back(search, levels, layers, &entered);
    }
}
