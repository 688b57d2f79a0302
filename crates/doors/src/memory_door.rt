//! A door in memory.

ghost use Rattle.std.specs.Prelude.{◌≡◌, ◌≤◌, ◌∷◌, nat_lt, IsErr, IsTrue, ◌↔◌, IfOk, IfSome, OnOk, OnErr, Ok, Err, Some, None};
ghost use Rattle.outside.specs.Faults.{CountsWhere};
ghost use Rattle.outside.specs.MemorySource.{input_flow};
ghost use Rattle.doors.specs.Visits.{IsOver, IsOut, Opens, Returns};
ghost use Rattle.doors.specs.MemoryDoor.{empty_door, IsFresh, visits_by, with_connection, with_failing, next_accept_fails, door_after_fault, door_after_look, door_after_accept, door_after_return};
ghost use Rattle.outside.specs.declared.trouble.Trouble.TheVariants as trouble;

use crate::door::Door;
use crate::memory_connection::MemoryConnection;
use outside::{MemorySink, MemorySource, Trouble};
use std::alloc::{AllocError, Global};
use std::collections::VecDeque;
use std::marker::Model;

/// A door in memory, over connections that were put there. Those of its calls for a connection fail that it is told to.
/// Contracts see it as the connections to come, the number of those that are out, the connections given back, the
/// number of its calls, the calls that fail and the number that failed.
#[derive(Drop)]
pub struct MemoryDoor {
    coming: VecDeque<MemoryConnection>,
    out: usize,
    // It has room for all that are out or to come.
    back: Vec<MemoryConnection>,
    calls: u64,
    failing: Vec<u64>,
    faults: u64,
}

impl Model for MemoryDoor {
    ghost use Rattle.std.specs.Prelude.{◌+◌, ◌≤◌, length, All, vec_capacity};
    ghost use Rattle.doors.specs.MemoryDoor.{MemoryVisits, IsFresh};

    ghost Value = { MemoryVisits };

    ghost view = { λ d. record { coming = d.coming.items; out = d.out; back = d.back.items; calls = d.calls; failing = d.failing.items; faults = d.faults } };

    ghost invariant = { λ d. (length d.back.items + d.out + length d.coming.items ≤ vec_capacity d.back) × All IsFresh d.coming.items };
}

impl MemoryDoor {
    /// A door to which nobody comes, with no call that fails.
    pub fn new(alloc: Global) -> MemoryDoor
        ensures { result ≡ empty_door }
    {
        MemoryDoor {
            coming: VecDeque::new(alloc),
            out: 0,
            back: Vec::new(alloc),
            calls: 0,
            failing: Vec::new(alloc),
            faults: 0,
        }
    }

    /// Puts a new connection behind those to come, and takes the room that it needs when it is given back.
    pub fn add(&mut self, connection: MemoryConnection) -> Result<(), AllocError>
        requires fresh { IsFresh connection }
        ensures there { OnOk result (self.new ≡ with_connection self.old connection) }
        ensures refused { OnErr result (self.new ≡ self.old) }
    {
        let Some(room) = self.coming.len().checked_add(self.out) else {
            return Err(AllocError);
        };
        let Some(room) = room.checked_add(1) else {
            return Err(AllocError);
        };
        self.back.reserve(room)?;
        self.coming.push_back(connection)?;
        Ok(())
    }

    /// Lets that call for a connection fail too, the first since the door was made being 1.
    pub fn fail_at(&mut self, call: u64) -> Result<(), AllocError>
        ensures listed { OnOk result (self.new ≡ with_failing self.old call) }
        ensures refused { OnErr result (self.new ≡ self.old) }
    {
        self.failing.push(call)?;
        Ok(())
    }

    /// Whether a call for a connection failed.
    pub fn has_failed(&self) -> bool
        ensures { result ≡ nat_lt 0 self.now.faults }
    {
        self.faults > 0
    }

    /// The connections that were given back, in order.
    pub fn back(&self) -> &[MemoryConnection]
        ensures { result.now ≡ self.now.back }
    {
        &self.back
    }
}

impl Door for MemoryDoor {
    ghost use Rattle.std.specs.Prelude.{Some};
    ghost use Rattle.doors.specs.MemoryDoor.{visits_by};

    type In = MemorySource;

    type Out = MemorySink;

    ghost visits = { λ d. Some (visits_by d) };

    ghost faults = { λ d. d.faults };

    /// Gives the first of the connections to come, exactly where there is one and this call is none of those that fail.
    fn accept(&mut self) -> Result<Option<(MemorySource, MemorySink)>, Trouble>
        ensures opens { IfOk result (λ r. IfSome r (λ c. Opens (Some (visits_by self.old)) (Some (visits_by self.new)) (Some (input_flow c.0)) (Some c.1.taken))) }
        ensures fresh { IfOk result (λ r. IfSome r (λ c. (c.0.faults ≡ 0) × (c.1.faults ≡ 0))) }
        ensures over { result ≡ Ok None → IsOver (Some (visits_by self.old)) }
        ensures same { result ≡ Ok None → Some (visits_by self.new) ≡ Some (visits_by self.old) }
        ensures nothing { OnErr result (Some (visits_by self.new) ≡ Some (visits_by self.old)) }
        ensures counts { CountsWhere (result ≡ Err trouble.Failed) self.old.faults self.new.faults }

        // Exactly this, besides what each door promises.
        ensures fails { IsErr result ↔ IsTrue (next_accept_fails self.old) }
        ensures fault { OnErr result (self.new ≡ door_after_fault self.old) }
        ensures gives { IfOk result (λ r. IfSome r (λ c. self.old.coming ≡ record { input = c.0; output = c.1 } ∷ self.new.coming)) }
        ensures given { IfOk result (λ r. IfSome r (λ c. self.new ≡ door_after_accept self.old self.new.coming)) }
        ensures looked { result ≡ Ok None → self.new ≡ door_after_look self.old }
    {
        self.calls = self.calls.saturating_add(1);
        if self.failing.contains(&self.calls) {
            self.faults = self.faults.saturating_add(1);
            return Err(Trouble::Failed);
        }
        let Some(next) = self.coming.pop_front() else {
            return Ok(None);
        };
        self.out += 1;
        Ok(Some((next.input, next.output)))
    }

    /// Puts the connection behind those that were given back.
    fn give_back(&mut self, input: MemorySource, output: MemorySink)
        requires out { IsOut (Some (visits_by self.old)) }
        ensures returns { Returns (Some (visits_by self.old)) (Some (visits_by self.new)) (Some (input_flow input)) (Some output.taken) input.faults output.faults }
        ensures same { self.new.faults ≡ self.old.faults }

        // Exactly this, besides what each door promises.
        ensures after { self.new ≡ door_after_return self.old record { input = input; output = output } }
    {
        self.out -= 1;
        self.back.push_reserved(MemoryConnection { input, output });
    }
}
