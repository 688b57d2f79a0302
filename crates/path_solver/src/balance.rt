//! What the members still have to send and to receive.

ghost use Rattle.std.specs.Prelude.{◌≡◌, ℕ, ◌+◌, ◌-◌, ◌^◌, ◌<◌, ◌≤◌, min, true, length, slice_index, slice_set, IfOk};
ghost use Rattle.member_set.specs.Members.{has};
ghost use Rattle.path_solver.specs.Rests.{HaveSome};

use member_set::MemberSet;
use std::alloc::{AllocError, Global};

/// What each member still has to send, and what to receive.
#[derive(Drop)]
pub struct Balance {
    pub surplus: Vec<u64>,
    pub lack: Vec<u64>,
}

impl Balance {
    ghost use Rattle.path_solver.specs.Balances.{IsEven};

    /// Nothing to send, and nothing to receive.
    pub fn even(alloc: Global, members: u16) -> Result<Balance, AllocError>
        ensures { IfOk result (IsEven members) }
    {
        let surplus = vec![in alloc; 0u64; members as usize]?;
        let lack = vec![in alloc; 0u64; members as usize]?;
        Ok(Balance { surplus, lack })
    }

    /// What a member still has to send.
    #[inline(always)]
    pub fn surplus_of(&self, member: u16) -> u64
        requires { member < length self.now.surplus.items }
        ensures { result ≡ slice_index self.now.surplus.items member }
    {
        self.surplus[member as usize]
    }

    /// What a member still has to receive.
    #[inline(always)]
    pub fn lack_of(&self, member: u16) -> u64
        requires { member < length self.now.lack.items }
        ensures { result ≡ slice_index self.now.lack.items member }
    {
        self.lack[member as usize]
    }

    /// As much as one member has to send and another to receive.
    #[inline(always)]
    pub fn between(&self, from: u16, to: u16) -> u64
        requires from { from < length self.now.surplus.items }
        requires to { to < length self.now.lack.items }
        ensures { result ≡ min (slice_index self.now.surplus.items from) (slice_index self.now.lack.items to) }
    {
        self.surplus_of(from).min(self.lack_of(to))
    }

    /// One member has more to send, and another more to receive.
    #[inline(always)]
    pub fn add(&mut self, from: u16, to: u16, amount: u64)
        requires from { from < length self.old.surplus.items }
        requires to { to < length self.old.lack.items }
        requires surplus { slice_index self.old.surplus.items from + amount < 2 ^ 64 }
        requires lack { slice_index self.old.lack.items to + amount < 2 ^ 64 }
        ensures surplus { self.new.surplus.items ≡ slice_set self.old.surplus.items from (slice_index self.old.surplus.items from + amount) }
        ensures lack { self.new.lack.items ≡ slice_set self.old.lack.items to (slice_index self.old.lack.items to + amount) }
    {
        self.surplus[from as usize] += amount;
        self.lack[to as usize] += amount;
    }

    /// One member has less to send, and another less to receive.
    #[inline(always)]
    pub fn take_off(&mut self, from: u16, to: u16, amount: u64)
        requires from { from < length self.old.surplus.items }
        requires to { to < length self.old.lack.items }
        requires surplus { amount ≤ slice_index self.old.surplus.items from }
        requires lack { amount ≤ slice_index self.old.lack.items to }
        ensures surplus { self.new.surplus.items ≡ slice_set self.old.surplus.items from (slice_index self.old.surplus.items from - amount) }
        ensures lack { self.new.lack.items ≡ slice_set self.old.lack.items to (slice_index self.old.lack.items to - amount) }
    {
        self.surplus[from as usize] -= amount;
        self.lack[to as usize] -= amount;
    }

    /// The members that have to send.
    pub fn senders(&self) -> MemberSet
        requires { length self.now.surplus.items ≤ 256 }
        ensures { HaveSome self.now.surplus.items result }
    {
        those_with(&self.surplus)
    }

    /// The members that have to receive.
    pub fn receivers(&self) -> MemberSet
        requires { length self.now.lack.items ≤ 256 }
        ensures { HaveSome self.now.lack.items result }
    {
        those_with(&self.lack)
    }

    /// The members of the set that still have to send.
    pub fn senders_among(&self, members: MemberSet) -> MemberSet
        requires small { (v : ℕ) → has members v ≡ true → v < length self.now.surplus.items }
        requires all { (v : ℕ) → 0 < slice_index self.now.surplus.items v → has members v ≡ true }
        ensures { HaveSome self.now.surplus.items result }
    {
        still_with(&self.surplus, members)
    }

    /// The members of the set that still have to receive.
    pub fn receivers_among(&self, members: MemberSet) -> MemberSet
        requires small { (v : ℕ) → has members v ≡ true → v < length self.now.lack.items }
        requires all { (v : ℕ) → 0 < slice_index self.now.lack.items v → has members v ≡ true }
        ensures { HaveSome self.now.lack.items result }
    {
        still_with(&self.lack, members)
    }
}

/// The members with an amount.
fn those_with(amounts: &[u64]) -> MemberSet
    requires { length amounts.now ≤ 256 }
    ensures { HaveSome amounts.now result }
{
    let mut some = MemberSet::new();
    for member in 0..amounts.len() {
        if amounts[member] > 0 {
            some.put(member as u16);
        }
    }
    some
}

/// The members of the set that still have an amount.
fn still_with(amounts: &[u64], members: MemberSet) -> MemberSet
    requires small { (v : ℕ) → has members v ≡ true → v < length amounts.now }
    requires all { (v : ℕ) → 0 < slice_index amounts.now v → has members v ≡ true }
    ensures { HaveSome amounts.now result }
{
    let mut some = members;
    for place in 0..4u16 {
        let mut left = members.part(place);
        while let Some(member) = left.take_lowest() {
            if amounts[member as usize] == 0 {
                some.drop_member(member);
            }
        }
    }
    some
}
