//! How a lock begins and ends.
ghost use Rattle.std.specs.Prelude.{◌≡◌, ℕ, ◌+◌, ◌^◌, ◌≤◌, true, [], ◌∷◌, IfOk, IfErr};
ghost use Rattle.command_types.specs.History.{end_of, entries_of_seat};
ghost use Rattle.cycle_lock.specs.Passes.{IsPassOf, seat_of, figures_of, seen, saw_stop, may_split, numbers, StandsFor, made_by, made, Continues};

use super::Turns;
use super::steps::SeatOf;
use crate::home::{Batch, Home};
use crate::pass::Pass;
use crate::rule::WORDS;
use atomic_table::{Refused, Table};
use command_types::Desk;
use publication_list::PublicationList;
use std::alloc::{AllocFailed, Global};
use std::snapshot::Snapshot;
use std::sync::Wait;

impl<T: Desk> Turns<T> {
    /// A lock round the desk, and its first pass, which has seat number 0 and has seen the desk's history. Where there
    /// is no memory, the desk comes back. Where there is some for these, but none for the places at which passes wait for others'
    /// turns, each call has a turn of its own.
    pub fn new(alloc: Global, desk: T) -> Result<(Turns<T>, Pass), T>
        requires { end_of (T.history desk) ≡ (T.figures desk).opening }
        ensures own { IfOk result (λ r. IsPassOf r.0 r.1) }
        ensures seat { IfOk result (λ r. (seat_of r.1 ≡ 0) × (numbers r.1 ≡ 0 ∷ [])) }
        ensures figures { IfOk result (λ r. figures_of r.1 ≡ T.figures desk) }
        ensures seen { IfOk result (λ r. seen r.1 ≡ T.history desk) }
        ensures stop { IfOk result (λ r. saw_stop r.1 ≡ T.stopped desk) }
        ensures left { IfOk result (λ r. may_split r.1 + 1 ≡ 2 ^ 32) }
        ensures made { IfOk result (λ r. made r.1 ≡ []) }
        ensures err { IfErr result (λ d. d ≡ desk) }
    {
        let about = Snapshot::of(&desk);
        let Ok(batch) = Batch::new(alloc) else {
            return Err(desk);
        };
        let home = Home { desk, batch };
        let at = home.length();
        let mut slots = Vec::new(alloc);
        if let Err(AllocFailed { value }) = slots.push(Some(home)) {
            slots.destroy_empty();
            let Some(home) = value else { unreachable!() };
            return Err(home.into_desk());
        }
        let mut words = [0; WORDS];
        words[0] = at;
        words[3] = 1;
        match Table::new(alloc, &words, slots, &about) {
            Ok((table, seat)) => {
                let pass = Pass {
                    badge: seat.into_badge(),
                    number: 0,
                    at,
                };
                let places = PublicationList::new(alloc, &Snapshot::of(&pass)).ok();
                Ok((Turns { table, places }, pass))
            }
            Err(Refused { mut slots }) => {
                let Some(Some(home)) = slots.pop() else {
                    unreachable!()
                };
                Err(home.into_desk())
            }
        }
    }

    /// Waits for its turn, and gives the desk back. It takes no memory. Where no pass was split off, this one has seen the desk's
    /// stop.
    pub fn close<R: Wait>(self, rt: &R, pass: Pass) -> T
        requires own { IsPassOf self pass }
        ensures seen { Continues (T.history result) (seen pass) }
        ensures figures { T.figures result ≡ figures_of pass }
        ensures made { (n : ℕ) → StandsFor pass n → entries_of_seat (T.history result) n (T.figures result).opening ≡ made_by n pass }
        ensures numbers { (n : ℕ) → 2 ^ 32 ≤ n + may_split pass → entries_of_seat (T.history result) n (T.figures result).opening ≡ [] }
        ensures stop { saw_stop pass ≡ true → T.stopped result ≡ true }
        ensures lone { may_split pass + 1 ≡ 2 ^ 32 → T.stopped result ≡ true → saw_stop pass ≡ true }
    {
        let Pass { badge, .. } = pass;
        let mut seat: SeatOf<T> = badge.into_seat();
        self.stand_back(rt);
        self.enter(rt, &mut seat);
        self.take_out(&mut seat).into_desk()
    }
}
