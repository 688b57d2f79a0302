//! Many seats beside one another.

ghost use Rattle.std.specs.Prelude.{◌≡◌, All};
ghost use Rattle.seats.specs.Places.{EachPlace, IsReady, Works};

use crate::place::Place;
use crate::seat::Service;
use command_types::Desk;
use cycle_lock::Turns;
use doors::Door;
use network_laws::Solver;
use outside::{Clock, Gate};
use std::sync::Wait;
use std::thread;
use std::thread::Threads;

impl<'a, R: Threads + Wait + Sync, V: Solver, G: Gate, C: Clock> Service<'a, R, V, G, C> {
    // One seat serves the connections of its door.
    fn serve_place<T: Desk, D: Door + Drop>(&self, turns: &Turns<T>, place: &mut Place<D>)
        requires { IsReady turns.now self.now.host.roster.now place.old.pass }
        ensures { Works (C.tells self.now.host.clock.now) D.visits D.faults self.now.most turns.now place.old place.new }
    {
        let Some(pass) = place.pass.take() else {
            unreachable!()
        };
        let (end, pass) = self.serve_door(turns, pass, &mut place.door);
        place.pass = Some(pass);
        place.end = end;
    }

    // Each seat serves the connections of its door, in a thread of its own where there are at most 64.
    pub(crate) fn serve_places<T: Desk, D: Door + Drop>(
        &self,
        turns: &Turns<T>,
        places: &mut [Place<D>],
    )
        requires { All (λ place. IsReady turns.now self.now.host.roster.now place.pass) places.old }
        ensures { EachPlace (λ k. Works (C.tells self.now.host.clock.now) D.visits D.faults self.now.most turns.now) places.old places.new }
    {
        thread::for_each_mut(
            self.host.workers.rt,
            places,
            64,
            &|_, place: &mut Place<D>|
                requires { IsReady turns.now self.now.host.roster.now place.old.pass }
                ensures { Works (C.tells self.entry.now.host.clock.now) D.visits D.faults self.entry.now.most turns.entry.now place.old place.new }
            { self.serve_place(turns, place) },
        );
    }
}
