//! The seats of a service, over a house that was just opened.
//!
//!     bind -> doors -> lock -> seats, each at its door -> passes joined, lock closed -> `history N` -> doors taken back, in order
//!
//! A step that fails ends the service there.

ghost use Rattle.std.specs.Prelude.{◌≡◌, ◌<◌, All, length, false, IfOk, IfErr, OnOk, OnErr};
ghost use Rattle.std.specs.List.{list_any};
ghost use Rattle.command_types.specs.History.{end_of};
ghost use Rattle.doors.specs.Visits.{IsNew};
ghost use Rattle.house.specs.House.{figures_of, is_stopped};
ghost use Rattle.seats.specs.Places.{EachPlace};
ghost use Rattle.compress_server.specs.Runs.{runs_of, plan_of};
ghost use Rattle.compress_server.specs.Seen.{output_by, listener_by};
ghost use Rattle.compress_server.specs.Serve.{HasGivenSince, IsWritten, history_line, had_no_memory, had_door_fault, trouble_end, end_of_seats, HaveServed, HouseServes};

use crate::places::{give_back, has_door_fault, has_no_memory, take_places};
use crate::resources::Resources;
use crate::serve::ServiceEnd;
use command_types::Roster;
use cycle_lock::Turns;
use doors::{Door, Listener};
use house::House;
use itoa::Buffer;
use network_laws::Solver;
use outside::{Clock, Disk, Gate, Sink, Trouble, write_all};
use program_words::ServiceWords;
use seats::{Place, SeatEnd, Service};
use session::Host;
use std::sync::Wait;
use std::thread::Threads;

// Writes the line that tells the length of the history, and says whether it was written whole. It takes no memory.
fn tell_history<K: Sink>(output: &mut K, length: u64) -> bool
    ensures { IsWritten (output_by K.Sink output.old) (output_by K.Sink output.new) (history_line length) result }
{
    if write_all(output, b"history ").is_err() {
        return false;
    }
    let mut digits = Buffer::new();
    if write_all(output, digits.format(length).as_bytes()).is_err() {
        return false;
    }
    write_all(output, b"\n").is_ok()
}

// The end of a service whose seats served.
fn end_of_seats<C: Door + Drop>(places: &[Place<C>], stopped: bool, written: bool) -> ServiceEnd
    ensures { result ≡ end_of_seats (list_any (λ place. had_no_memory place.end) places.now) (list_any (λ place. had_door_fault place.end) places.now) stopped written }
{
    if has_no_memory(places) {
        ServiceEnd::Memory
    } else if has_door_fault(places) {
        ServiceEnd::ListenerFault
    } else if stopped {
        ServiceEnd::Stopped
    } else if written {
        ServiceEnd::Done
    } else {
        ServiceEnd::SinkFault
    }
}

// The end of a service whose listener was in trouble.
fn end_of_trouble(trouble: Trouble) -> ServiceEnd
    ensures { result ≡ trouble_end trouble }
{
    match trouble {
        Trouble::Failed => ServiceEnd::ListenerFault,
        Trouble::Memory => ServiceEnd::Memory,
    }
}

/// What all seats have in common: what they run with, the desk's roster, and the form's words.
#[derive(Drop)]
pub struct Seating<'a, R: Threads + Wait + Sync, V: Solver, G: Gate, T: Clock> {
    pub with: &'a Resources<'a, R, V, G, T>,
    pub roster: &'a Roster,
    pub words: &'a ServiceWords<'a>,
}

impl<'a, R: Threads + Wait + Sync, V: Solver, G: Gate, T: Clock> Seating<'a, R, V, G, T> {
    // Has the seats serve over a house that was just opened. Where there is no memory for the lock, none begins.
    fn serve_house<D: Disk + Send, C: Door + Drop>(
        &self,
        house: House<D>,
        places: &mut [Place<C>],
    ) -> Result<House<D>, House<D>>
        requires opened { end_of house.history ≡ (figures_of house).opening }
        requires roster { self.now.roster.now ≡ house.history.base.state.roster }
        requires running { is_stopped house ≡ false }
        requires count { length places.old ≡ self.now.words.now.seats.value }
        requires new { All (λ place. IsNew (C.visits place.door) × (C.faults place.door ≡ 0)) places.old }
        ensures served { IfOk result (λ w. HaveServed (T.tells self.now.with.now.clock.now) C.visits (plan_of self.now.words.now) house w (runs_of places.new)) }
        ensures figures { IfOk result (λ w. figures_of w ≡ figures_of house) }
        ensures given { OnOk result (EachPlace (λ k old new. HasGivenSince (C.visits old.door) (C.visits new.door)) places.old places.new) }
        ensures counted { OnOk result (All (λ place. place.end ≡ SeatEnd.DoorFault → 0 < C.faults place.door) places.new) }
        ensures refused { IfErr result (λ w. w ≡ house) }
        ensures untouched { OnErr result (places.new ≡ places.old) }
    {
        let (turns, pass) = match Turns::new(self.with.alloc, house) {
            Ok(lock) => lock,
            Err(house) => return Err(house),
        };
        let host = Host {
            alloc: self.with.alloc,
            workers: self.with.workers(self.words.workers),
            clock: self.with.clock,
            roster: self.roster,
        };
        let service = Service {
            host,
            most: self.words.connections,
        };
        Ok(service.serve(turns, pass, places))
    }

    /// Has the listener hand out doors, the seats serve at them over a house that was just opened, and the history's length
    /// told.
    pub fn serve_at<D: Disk + Send, L: Listener, K: Sink>(
        &self,
        house: House<D>,
        listener: &mut L,
        output: &mut K,
    ) -> (ServiceEnd, House<D>)
        requires opened { end_of house.history ≡ (figures_of house).opening }
        requires roster { self.now.roster.now ≡ house.history.base.state.roster }
        requires running { is_stopped house ≡ false }
        requires told { L.idle listener.old ≡ self.now.words.now.idle }
        ensures serves { let doors = listener_by L.doors L.faults in
            HouseServes (T.tells self.now.with.now.clock.now) L.Door.visits (plan_of self.now.words.now) house result.1
            (output_by K.Sink output.old) (output_by K.Sink output.new) (doors listener.old) (doors listener.new) result.0 }
        ensures figures { figures_of result.1 ≡ figures_of house }
        ensures waits { L.idle listener.new ≡ L.idle listener.old }
    {
        let count = self.words.seats.value as usize;
        let Ok(mut places) = Vec::with_capacity(self.with.alloc, count) else {
            return (ServiceEnd::Memory, house);
        };
        if let Err(trouble) = listener.bind(self.words.address) {
            return (end_of_trouble(trouble), house);
        }
        if let Err(trouble) = take_places(listener, count, &mut places) {
            give_back(listener, places);
            return (end_of_trouble(trouble), house);
        }
        match self.serve_house(house, &mut places) {
            Ok(house) => {
                let written = tell_history(output, house.length());
                let end = end_of_seats(&places, house.is_stopped(), written);
                give_back(listener, places);
                (end, house)
            }
            Err(house) => {
                give_back(listener, places);
                (ServiceEnd::Memory, house)
            }
        }
    }
}
