//! Several commands in one turn.
ghost use Rattle.std.specs.Prelude.{◌≡◌, ◌≢◌, ◌<◌, ◌≤◌, ℕ, ◌++◌, All, length, take, drop, vec_len, vec_capacity};
ghost use Rattle.command_types.specs.declared.desk.TheConstants.{MOST_TOGETHER};
ghost use Rattle.command_types.specs.History.{IsLegal, end_of, entries_of_seat};
ghost use Rattle.command_types.specs.InTurn.{all_recorded};
ghost use Rattle.cycle_lock.specs.Passes.{IsPassOf, seat_of, figures_of, seen, may_split, numbers, StandsFor, made_by, made, Continues, AreToldInOneTurn};

use super::Turns;
use super::steps::SeatOf;
use crate::pass::Pass;
use atomic_table::Badge;
use command_types::{Desk, Entry, Reply};
use std::marker::Brand;
use std::mem;
use std::sync::Wait;

impl<T: Desk> Turns<T> {
    /// Waits for its turn, and asks the desk these commands of the pass's own number in it. A front of them is answered, at least the first, each
    /// behind the one before it. What is answered may be taken out of the commands, and the replies take the place of those before.
    pub fn call_all<R: Wait>(
        &self,
        rt: &R,
        pass: &mut Pass,
        commands: &mut [Entry],
        replies: &mut Vec<Reply>,
    )
        requires own { IsPassOf self.now pass.old }
        requires seats { All (λ command. command.seat ≡ seat_of pass.old) commands.old }
        requires some { 0 < length commands.old }
        requires few { length commands.old ≤ MOST_TOGETHER }
        requires room { length commands.old ≤ vec_capacity replies.old }
        ensures own { IsPassOf self.now pass.new }
        ensures seat { seat_of pass.new ≡ seat_of pass.old }
        ensures figures { figures_of pass.new ≡ figures_of pass.old }
        ensures stands { (numbers pass.new ≡ numbers pass.old) × (may_split pass.new ≡ may_split pass.old) }

        // How many are answered. The others stay.
        ensures some { 0 < vec_len replies.new }
        ensures few { vec_len replies.new ≤ length commands.old }
        ensures rest { drop (vec_len replies.new) commands.new ≡ drop (vec_len replies.new) commands.old }
        ensures capacity { vec_capacity replies.new ≡ vec_capacity replies.old }

        // The history: it goes on from what the pass had seen, and ends where the last of them was answered.
        ensures seen { Continues (seen pass.new) (seen pass.old) }
        ensures legal { IsLegal (seen pass.new) }
        ensures told { AreToldInOneTurn pass.old pass.new (take (vec_len replies.new) commands.old) replies.new.items }

        // The entries: those of the commands that the replies tell to be recorded.
        ensures made { made pass.new ≡ made pass.old ++ all_recorded (take (vec_len replies.new) commands.old) replies.new.items }
        ensures others { (n : ℕ) → StandsFor pass.old n → n ≢ seat_of pass.old → made_by n pass.new ≡ made_by n pass.old }

        ensures later { entries_of_seat (seen pass.new) (seat_of pass.old) (end_of (seen pass.old)) ≡ all_recorded (take (vec_len replies.new) commands.old) replies.new.items }
    {
        let mut seat: SeatOf<T> = mem::replace(&mut pass.badge, Badge::blank()).into_seat();
        self.stand_back(rt);
        self.enter(rt, &mut seat);
        let Some(home) = seat.slot_mut(&self.table.shared, 0) else {
            unreachable!()
        };
        let before = home.length();
        home.ask_all(commands, replies);
        let at = home.length();
        self.note::<Brand>(&mut seat, at - before);
        self.pass_on(&mut seat);
        // A turn like this makes no other's call: who waits at a place may be tired of it.
        self.ring_one();
        pass.badge = seat.into_badge();
        pass.at = at;
    }
}
