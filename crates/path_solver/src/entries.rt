//! For each member the members from which arcs with room lead to it, as sets.

ghost use Rattle.std.specs.Prelude.{◌≡◌, ◌==◌, if◌then◌else◌, ℕ, ◌<◌, ◌≤◌, false, length};
ghost use Rattle.member_set.specs.Members.{has};
ghost use Rattle.path_solver.specs.Entries.{IsNoted, entry_at};

use member_set::MemberSet;
use residual_graph::Flow;

/// From where arcs with room lead to one member: the sellers to it whose pair can grow, and the buyers
/// from it whose pair can fall. In the graph that is turned round they tell to where arcs lead from it.
#[derive(Clone, Copy)]
pub struct Entry {
    pub sellers: MemberSet,
    pub buyers: MemberSet,
}

/// Notes whether a pair can grow, and whether it can fall, where nothing was noted of it before.
pub fn note_first(entries: &mut [Entry], flow: Flow)
    requires few { length entries.old ≤ 256 }
    requires seller { flow.seller < length entries.old }
    requires buyer { flow.buyer < length entries.old }
    requires growing { has (entry_at entries.old flow.buyer).sellers flow.seller ≡ false }
    requires falling { has (entry_at entries.old flow.seller).buyers flow.buyer ≡ false }
    ensures { IsNoted flow entries.old entries.new }
{
    let grows = flow.room > 0;
    let falls = flow.back > 0;
    put_if(
        &mut entries[flow.buyer as usize].sellers,
        flow.seller,
        grows,
    );
    put_if(&mut entries[flow.seller as usize].buyers, flow.buyer, falls);
}

/// Puts a member into a set that does not have it, or does nothing.
fn put_if(set: &mut MemberSet, member: u16, there: bool)
    requires small { member < 256 }
    requires new { has set.old member ≡ false }
    ensures { (m : ℕ) → has set.new m ≡ (if m == member then there else has set.old m) }
{
    if there {
        set.put(member);
    }
}

/// Notes whether a pair can grow, and whether it can fall.
pub fn note(entries: &mut [Entry], flow: Flow)
    requires few { length entries.old ≤ 256 }
    requires seller { flow.seller < length entries.old }
    requires buyer { flow.buyer < length entries.old }
    ensures { IsNoted flow entries.old entries.new }
{
    keep_member(
        &mut entries[flow.buyer as usize].sellers,
        flow.seller,
        flow.room > 0,
    );
    keep_member(
        &mut entries[flow.seller as usize].buyers,
        flow.buyer,
        flow.back > 0,
    );
}

/// Puts a member into a set, or takes it out.
fn keep_member(set: &mut MemberSet, member: u16, there: bool)
    requires { member < 256 }
    ensures { (m : ℕ) → has set.new m ≡ (if m == member then there else has set.old m) }
{
    if there {
        set.put(member);
    } else {
        set.drop_member(member);
    }
}
