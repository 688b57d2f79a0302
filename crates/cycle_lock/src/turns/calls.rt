//! A call.
ghost use Rattle.std.specs.Prelude.{◌≡◌, ◌≢◌, ℕ, Bool, true, false, ◌++◌, IsTrue};
ghost use Rattle.command_types.specs.History.{IsLegal, end_of, recorded, is_recorded, entries_of_seat};
ghost use Rattle.command_types.specs.Told.{IsTold, tells_stop};
ghost use Rattle.cycle_lock.specs.Passes.{IsPassOf, seat_of, figures_of, seen, saw_stop, may_split, numbers, StandsFor, made_by, made, Continues};

use super::Turns;
use crate::pass::Pass;
use command_types::{Ask, Desk, Reply};
use std::sync::Wait;

impl<T: Desk> Turns<T> {
    /// Waits for its turn, and asks the desk under the pass's number, or has it asked in a turn of another pass. The pass has
    /// then seen a history that ends at the reply's position. The lock itself takes no memory: only the desk's answer can be that there is none.
    pub fn call<R: Wait>(&self, rt: &R, pass: &mut Pass, ask: Ask) -> Reply
        requires own { IsPassOf self.now pass.old }
        ensures own { IsPassOf self.now pass.new }
        ensures seat { seat_of pass.new ≡ seat_of pass.old }
        ensures figures { figures_of pass.new ≡ figures_of pass.old }
        ensures stands { (numbers pass.new ≡ numbers pass.old) × (may_split pass.new ≡ may_split pass.old) }

        // The history: it goes on from what the pass had seen, and ends at the reply's position.
        ensures seen { Continues (seen pass.new) (seen pass.old) }
        ensures place { result.at ≡ end_of (seen pass.new) }
        ensures legal { IsLegal (seen pass.new) }
        ensures told { (before : Bool) × (saw_stop pass.old ≡ true → before ≡ true) × (before ≡ true → saw_stop pass.new ≡ true) × IsTold (figures_of pass.new) before (saw_stop pass.new) (seen pass.new) (seat_of pass.new) ask result }

        // The entries: this call's, exactly where the reply tells that it is recorded.
        ensures made { made pass.new ≡ made pass.old ++ recorded (seat_of pass.old) ask result.answer }
        ensures others { (n : ℕ) → StandsFor pass.old n → n ≢ seat_of pass.old → made_by n pass.new ≡ made_by n pass.old }

        ensures later { entries_of_seat (seen pass.new) (seat_of pass.old) (end_of (seen pass.old)) ≡ recorded (seat_of pass.old) ask result.answer }

        // The stop.
        ensures stop { IsTrue (tells_stop result.answer) → saw_stop pass.new ≡ true }
        ensures stays { saw_stop pass.old ≡ true → saw_stop pass.new ≡ true }
        ensures runs { IsTrue (is_recorded ask.what result.answer) → saw_stop pass.new ≡ false }
    {
        self.make(rt, pass, ask)
    }
}
