//! One seat at its door.

ghost use Rattle.std.specs.Prelude.{◌≡◌, ℕ, List};
ghost use Rattle.command_types.specs.declared.ask.Entry.{Entry};
ghost use Rattle.cycle_lock.specs.Passes.{IsPassOf, seen};
ghost use Rattle.outside.specs.Faults.{CountsWhere};
ghost use Rattle.session.specs.Serving.{of_pass, Grows};
ghost use Rattle.seats.specs.Sessions.{SeatServes};

use command_types::Desk;
use cycle_lock::{Pass, Turns};
use doors::Door;
use network_laws::Solver;
use outside::{Clock, Gate, Trouble};
use session::{Host, SessionEnd};
use std::sync::Wait;
use std::thread::Threads;

/// How the work of a seat ended.
#[derive(Clone, Copy, Debug, PartialEq, Eq)]
pub enum SeatEnd {
    /// No connection is to come.
    Over,
    /// As many were served as a seat may serve.
    Most,
    /// The door failed.
    DoorFault,
    /// There was no memory for a connection, or for its session.
    Memory,
}

/// What all seats of a service serve with: the host of their sessions, and how many connections a seat serves at most.
#[derive(Drop)]
pub struct Service<'a, R: Threads + Wait + Sync, V: Solver, G: Gate, C: Clock> {
    pub host: Host<'a, R, V, G, C>,
    pub most: u64,
}

impl<'a, R: Threads + Wait + Sync, V: Solver, G: Gate, C: Clock> Service<'a, R, V, G, C> {
    /// Serves the connections of a door with a pass, one after another. Each is given back after its session. The seat
    /// ends where none is to come, where as many were served as may be, where the door failed, and where there was no
    /// memory for a connection or at its session's start.
    pub fn serve_door<T: Desk, D: Door>(
        &self,
        turns: &Turns<T>,
        pass: Pass,
        door: &mut D,
    ) -> (SeatEnd, Pass)
        requires own { IsPassOf turns.now pass }
        requires roster { self.now.host.roster.now ≡ (seen pass).base.state.roster }
        ensures own { IsPassOf turns.now result.1 }
        ensures grows { (made : List Entry) × Grows (of_pass pass) (of_pass result.1) made }
        ensures serves { SeatServes (C.tells self.now.host.clock.now) (of_pass pass) (of_pass result.1) (D.visits door.old) (D.visits door.new) self.now.most result.0 }
        ensures counts { CountsWhere (result.0 ≡ SeatEnd.DoorFault) (D.faults door.old) (D.faults door.new) }
    {
        let mut pass = pass;
        for _ in 0..self.most {
            let (mut input, mut output) = match door.accept() {
                Ok(Some(connection)) => connection,
                Ok(None) => return (SeatEnd::Over, pass),
                Err(Trouble::Failed) => return (SeatEnd::DoorFault, pass),
                Err(Trouble::Memory) => return (SeatEnd::Memory, pass),
            };
            let (end, after) = self.host.serve(turns, pass, &mut input, &mut output);
            door.give_back(input, output);
            pass = after;
            if end == SessionEnd::Memory {
                return (SeatEnd::Memory, pass);
            }
        }
        (SeatEnd::Most, pass)
    }
}
