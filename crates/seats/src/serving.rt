//! All seats of a lock, and the desk that comes back.

ghost use Rattle.std.specs.Prelude.{◌≡◌, ℕ, ◌+◌, ◌^◌, ◌≤◌, ◌<◌, true, [], All, length};
ghost use Rattle.command_types.specs.History.{entries_of_seat};
ghost use Rattle.cycle_lock.specs.Passes.{IsPassOf, seat_of, figures_of, seen, saw_stop, may_split, numbers, made, Continues, Includes};
ghost use Rattle.session.specs.Serving.{of_pass, roster_of};
ghost use Rattle.seats.specs.Final.{seated};
ghost use Rattle.seats.specs.Places.{EachPlace, HasPass, Belongs, TakesIn, HasWorked};
ghost use Rattle.units_core.specs.declared.limits.TheConstants.{MOST_SEATS};

use crate::place::Place;
use crate::seat::Service;
use command_types::Desk;
use cycle_lock::{Pass, Turns};
use doors::Door;
use network_laws::Solver;
use outside::{Clock, Gate};
use std::sync::Wait;
use std::thread::Threads;

// Gives a place a pass with the next number.
fn seat_one<T: Desk, D: Door + Drop>(turns: &Turns<T>, pass: &mut Pass, place: &mut Place<D>)
    requires own { IsPassOf turns.now pass.old }
    requires left { 1 ≤ may_split pass.old }
    ensures own { IsPassOf turns.now pass.new }
    ensures main { (numbers pass.new ≡ numbers pass.old) × (seated (of_pass pass.new) 0 ≡ seated (of_pass pass.old) 0) }
    ensures left { may_split pass.new + 1 ≡ may_split pass.old }
    ensures seat { (n : ℕ) → n + may_split pass.old ≡ 2 ^ 32 → HasPass turns.now (seated (of_pass pass.old) n) place.new.pass }
    ensures door { place.new.door ≡ place.old.door }
{
    place.pass = Some(turns.split(pass));
}

// Gives each place a pass of its own: the first number 1, the next 2, and so on.
fn seat_all<T: Desk, D: Door + Drop>(turns: &Turns<T>, pass: &mut Pass, places: &mut [Place<D>])
    requires own { IsPassOf turns.now pass.old }
    requires first { may_split pass.old + 1 ≡ 2 ^ 32 }
    requires enough { length places.old ≤ may_split pass.old }
    ensures own { IsPassOf turns.now pass.new }
    ensures main { (numbers pass.new ≡ numbers pass.old) × (seated (of_pass pass.new) 0 ≡ seated (of_pass pass.old) 0) }
    ensures left { may_split pass.new + length places.old ≡ may_split pass.old }
    ensures seats { EachPlace (λ k old new. HasPass turns.now (seated (of_pass pass.old) (k + 1)) new.pass) places.old places.new }
    ensures doors { EachPlace (λ k old new. new.door ≡ old.door) places.old places.new }
{
    for k in 0..places.len() {
        seat_one(turns, pass, &mut places[k]);
    }
}

// Takes in the pass of a seat.
fn take_in<T: Desk, D: Door + Drop>(turns: &Turns<T>, pass: &mut Pass, place: &mut Place<D>)
    requires own { IsPassOf turns.now pass.old }
    requires belongs { Belongs turns.now (figures_of pass.old) place.old.pass }
    ensures own { IsPassOf turns.now pass.new }
    ensures figures { figures_of pass.new ≡ figures_of pass.old }
    ensures old { Includes pass.new pass.old }
    ensures taken { TakesIn pass.new place.old.pass }
    ensures left { may_split pass.old ≤ may_split pass.new }
    ensures rest { (place.new.door ≡ place.old.door) × (place.new.end ≡ place.old.end) }
{
    if let Some(other) = place.pass.take() {
        turns.join(pass, other);
    }
}

// Takes in the passes of all seats.
fn take_in_all<T: Desk, D: Door + Drop>(turns: &Turns<T>, pass: &mut Pass, places: &mut [Place<D>])
    requires own { IsPassOf turns.now pass.old }
    requires belong { All (λ place. Belongs turns.now (figures_of pass.old) place.pass) places.old }
    ensures own { IsPassOf turns.now pass.new }
    ensures figures { figures_of pass.new ≡ figures_of pass.old }
    ensures old { Includes pass.new pass.old }
    ensures left { may_split pass.old ≤ may_split pass.new }
    ensures taken { EachPlace (λ k old new. TakesIn pass.new old.pass) places.old places.new }
    ensures doors { EachPlace (λ k old new. new.door ≡ old.door) places.old places.new }
    ensures ends { EachPlace (λ k old new. new.end ≡ old.end) places.old places.new }
{
    for k in 0..places.len() {
        take_in(turns, pass, &mut places[k]);
    }
}

impl<'a, R: Threads + Wait + Sync, V: Solver, G: Gate, C: Clock> Service<'a, R, V, G, C> {
    /// Each place gets a seat, the first number 1, the next 2 and so on, which serves the connections of its door beside
    /// the others. When all have ended, their passes are taken in, and the desk comes back: in its history the
    /// connections of each seat are its sessions, one after another, and no number above the last seat's has an entry
    /// since the opening. A stop that a seat was told is the desk's.
    pub fn serve<T: Desk, D: Door + Drop>(
        &self,
        turns: Turns<T>,
        pass: Pass,
        places: &mut [Place<D>],
    ) -> T
        requires own { IsPassOf turns pass }
        requires roster { self.now.host.roster.now ≡ roster_of (of_pass pass) }
        requires first { may_split pass + 1 ≡ 2 ^ 32 }
        requires few { length places.old ≤ MOST_SEATS }
        ensures figures { T.figures result ≡ figures_of pass }
        ensures seen { Continues (T.history result) (seen pass) }
        ensures own { entries_of_seat (T.history result) (seat_of pass) (T.figures result).opening ≡ made pass }
        ensures others { (n : ℕ) → length places.old < n → entries_of_seat (T.history result) n (T.figures result).opening ≡ [] }
        ensures stop { saw_stop pass ≡ true → T.stopped result ≡ true }
        ensures seats { let clock = C.tells self.now.host.clock.now in
            EachPlace (λ k. HasWorked clock D.visits D.faults self.now.most record { history = T.history result; stopped = T.stopped result } (seated (of_pass pass) (k + 1))) places.old places.new }
    {
        let mut main = pass;
        seat_all(&turns, &mut main, places);
        self.serve_places(&turns, places);
        take_in_all(&turns, &mut main, places);
        turns.close(self.host.workers.rt, main)
    }
}
