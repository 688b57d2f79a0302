//! Passes for more threads.
ghost use Rattle.std.specs.Prelude.{◌≡◌, ◌≢◌, ℕ, ◌+◌, ◌^◌, ◌≤◌, ◌||◌, [], ◌∷◌, ◌++◌};
ghost use Rattle.cycle_lock.specs.Passes.{IsPassOf, seat_of, figures_of, seen, saw_stop, may_split, numbers, StandsFor, made, Continues, longer_of, Includes};

use super::Turns;
use super::steps::SeatOf;
use crate::pass::Pass;
use crate::plays::{Cut, Host, Number, Settle};
use atomic_table::Badge;
use command_types::Desk;
use std::mem;

impl<T: Desk> Turns<T> {
    /// A new pass, with a number that no pass has had. It has seen what the old one has, has made nothing, and splits off
    /// none itself. It takes no memory.
    pub fn split(&self, pass: &mut Pass) -> Pass
        requires own { IsPassOf self.now pass.old }
        requires left { 1 ≤ may_split pass.old }
        ensures own { IsPassOf self.now pass.new × (seat_of pass.new ≡ seat_of pass.old) × (numbers pass.new ≡ numbers pass.old) }
        ensures figures { (figures_of pass.new ≡ figures_of pass.old) × (figures_of result ≡ figures_of pass.old) }
        ensures seen { (seen pass.new ≡ seen pass.old) × (seen result ≡ seen pass.old) }
        ensures stop { (saw_stop pass.new ≡ saw_stop pass.old) × (saw_stop result ≡ saw_stop pass.old) }
        ensures left { (may_split pass.new + 1 ≡ may_split pass.old) × (may_split result ≡ 0) }
        ensures new { IsPassOf self.now result × (numbers result ≡ seat_of result ∷ []) }
        ensures fresh { seat_of result + may_split pass.old ≡ 2 ^ 32 }
        ensures unlike { (n : ℕ) → StandsFor pass.old n → n ≢ seat_of result }
        ensures made { made result ≡ [] }
    {
        let mut seat: SeatOf<T> = mem::replace(&mut pass.badge, Badge::blank()).into_seat();
        let number = self.table.shared.fetch_add::<Number>(&mut seat, 3, 1);
        let child = self.table.shared.split_seat::<Cut>(&mut seat);
        pass.badge = seat.into_badge();
        Pass {
            badge: child.into_badge(),
            number: number as u32,
            at: pass.at,
        }
    }

    /// Takes in another pass. Of what the two have seen one begins the other. The pass has then seen the longer, and
    /// stands for the entries of both. It takes no memory.
    pub fn join(&self, pass: &mut Pass, other: Pass)
        requires own { IsPassOf self.now pass.old × IsPassOf self.now other }
        ensures own { IsPassOf self.now pass.new × (seat_of pass.new ≡ seat_of pass.old) }
        ensures figures { (figures_of pass.new ≡ figures_of pass.old) × (figures_of other ≡ figures_of pass.old) }
        ensures seen { seen pass.new ≡ longer_of (seen pass.old) (seen other) }
        ensures one { Continues (seen pass.new) (seen pass.old) × Continues (seen pass.new) (seen other) }
        ensures stop { saw_stop pass.new ≡ (saw_stop pass.old || saw_stop other) }
        ensures stands { numbers pass.new ≡ numbers pass.old ++ numbers other }
        ensures left { may_split pass.new ≡ may_split pass.old + may_split other }
        ensures made { made pass.new ≡ made pass.old }
        ensures old { Includes pass.new pass.old }
        ensures other { Includes pass.new other }
    {
        let mut seat: SeatOf<T> = mem::replace(&mut pass.badge, Badge::blank()).into_seat();
        let Pass {
            badge,
            number: _,
            at,
        } = other;
        self.table
            .shared
            .join_seat::<Host>(&mut seat, badge.into_seat());
        self.table.shared.load::<Settle>(&mut seat, 0);
        pass.badge = seat.into_badge();
        pass.at = pass.at.max(at);
    }
}
