//! A listener in memory.

ghost use Rattle.std.specs.Prelude.{◌≡◌, ◌≢◌, ℕ, ◌≤◌, ◌<◌, [], ◌∷◌, ◌++◌, length, slice_index_or, IsErr, IsTrue, ◌↔◌, IfOk, OnOk, OnErr, IfSome, Err, Some, None};
ghost use Rattle.outside.specs.Faults.{CountsWhere};
ghost use Rattle.doors.specs.Visits.{Binds, IsNew, IsLent, Lends, TakesBack};
ghost use Rattle.doors.specs.MemoryDoor.{empty_door, IsFresh, visits_by, with_connection, with_failing};
ghost use Rattle.doors.specs.MemoryListener.{IsPlaceOf, empty_hall, door_at, with_door, doors_by, next_call_fails, hall_after_fault, hall_after_call, hall_after_bind, hall_after_door, hall_after_return, hall_after_telling, ChangesDoor, KeepsDoors};
ghost use Rattle.outside.specs.declared.trouble.Trouble.TheVariants as trouble;
ghost use Rattle.doors.specs.declared.planned_door.PlannedDoor.{PlannedDoor};

use crate::listener::Listener;
use crate::memory_connection::MemoryConnection;
use crate::memory_door::MemoryDoor;
use crate::planned_door::PlannedDoor;
use outside::Trouble;
use std::alloc::{AllocError, Global};
use std::marker::Model;
use std::mem;

/// A listener in memory, with what is to come to each of its doors. Its doors are counted from 0 as they are handed
/// out. Those of its calls fail that it is told to. Contracts see it as the address at which it listens, the doors to be
/// handed out, the number of doors handed out, of those that are not back, the doors taken back, the number of its calls,
/// the calls that fail, its count of faults and the seconds that it was told.
#[derive(Drop)]
pub struct MemoryListener {
    address: Option<Vec<u8>>,
    planned: Vec<PlannedDoor>,
    handed: u64,
    lent: usize,
    // It has room for all that are lent.
    back: Vec<MemoryDoor>,
    calls: u64,
    failing: Vec<u64>,
    faults: u64,
    idle: Option<u64>,
    alloc: Global,
}

impl Model for MemoryListener {
    ghost use Rattle.std.specs.Prelude.{ℕ, ◌+◌, ◌≤◌, length, option_map, vec_capacity};
    ghost use Rattle.doors.specs.MemoryDoor.{IsUnused};
    ghost use Rattle.doors.specs.MemoryListener.{MemoryHall, door_at};

    ghost Value = { MemoryHall };

    ghost view = { λ m. record { address = option_map (λ address. address.items) m.address; planned = m.planned.items; handed = m.handed; lent = m.lent; back = m.back.items; calls = m.calls; failing = m.failing.items; faults = m.faults; idle = m.idle } };

    ghost invariant = { λ m. (length m.back.items + m.lent ≤ vec_capacity m.back) × ((n : ℕ) → IsUnused (door_at m.planned.items n)) };
}

// Where the first door with this number stands.
fn place_of(planned: &[PlannedDoor], number: u64) -> Option<usize>
    ensures found { IfSome result (λ k. IsPlaceOf planned.now number k) }
    ensures none { result ≡ None → (j : ℕ) (d : PlannedDoor) → j < length planned.now → (slice_index_or planned.now j d).number ≢ number }
{
    for k in 0..planned.len() {
        if planned[k].number == number {
            return Some(k);
        }
    }
    None
}

// Where the door with this number stands. One to which nobody comes is put there where there is none.
fn ready_place(
    planned: &mut Vec<PlannedDoor>,
    alloc: Global,
    number: u64,
) -> Result<usize, AllocError>
    ensures found { IfOk result (λ k. IsPlaceOf planned.new.items number k) }
    ensures same { (n : ℕ) → door_at planned.new.items n ≡ door_at planned.old.items n }
{
    if let Some(k) = place_of(planned, number) {
        return Ok(k);
    }
    let k = planned.len();
    planned.push(PlannedDoor {
        number,
        door: MemoryDoor::new(alloc),
    })?;
    Ok(k)
}

// The door with this number, which is to be handed out.
fn take_planned(planned: &mut Vec<PlannedDoor>, alloc: Global, number: u64) -> MemoryDoor
    ensures door { result ≡ door_at planned.old.items number }
    ensures left { (n : ℕ) → door_at planned.new.items n ≡ with_door (door_at planned.old.items) number empty_door n }
{
    match place_of(planned, number) {
        Some(k) => mem::replace(&mut planned[k].door, MemoryDoor::new(alloc)),
        None => MemoryDoor::new(alloc),
    }
}

impl MemoryListener {
    /// A listener to whose doors nobody comes, with no call that fails.
    pub fn new(alloc: Global) -> MemoryListener
        ensures { result ≡ empty_hall }
    {
        MemoryListener {
            address: None,
            planned: Vec::new(alloc),
            handed: 0,
            lent: 0,
            back: Vec::new(alloc),
            calls: 0,
            failing: Vec::new(alloc),
            faults: 0,
            idle: None,
            alloc,
        }
    }

    /// Puts a new connection behind those that are to come to that door.
    pub fn add(&mut self, door: u32, connection: MemoryConnection) -> Result<(), AllocError>
        requires fresh { IsFresh connection }
        requires waits { self.old.handed ≤ door }
        ensures there { OnOk result (ChangesDoor self.old self.new door (with_connection (door_at self.old.planned door) connection)) }
        ensures refused { OnErr result (KeepsDoors self.old self.new) }
    {
        let k = ready_place(&mut self.planned, self.alloc, u64::from(door))?;
        self.planned[k].door.add(connection)
    }

    /// Lets that call of that door for a connection fail too, the first since the door was made being 1.
    pub fn fail_door_at(&mut self, door: u32, call: u64) -> Result<(), AllocError>
        requires waits { self.old.handed ≤ door }
        ensures listed { OnOk result (ChangesDoor self.old self.new door (with_failing (door_at self.old.planned door) call)) }
        ensures refused { OnErr result (KeepsDoors self.old self.new) }
    {
        let k = ready_place(&mut self.planned, self.alloc, u64::from(door))?;
        self.planned[k].door.fail_at(call)
    }

    /// Lets that call fail too, the first since the listener was made being 1.
    pub fn fail_at(&mut self, call: u64) -> Result<(), AllocError>
        ensures listed { OnOk result (self.new ≡ record self.old { failing = self.old.failing ++ call ∷ [] }) }
        ensures refused { OnErr result (self.new ≡ self.old) }
    {
        self.failing.push(call)?;
        Ok(())
    }

    /// The doors that were taken back, in order.
    pub fn back(&self) -> &[MemoryDoor]
        ensures { result.now ≡ self.now.back }
    {
        &self.back
    }
}

impl Listener for MemoryListener {
    ghost use Rattle.std.specs.Prelude.{Some};
    ghost use Rattle.doors.specs.MemoryListener.{doors_by};

    type Door = MemoryDoor;

    ghost doors = { λ m. Some (doors_by m) };

    ghost faults = { λ m. m.faults };

    ghost idle = { λ m. m.idle };

    /// Listens at any address, where this call is none of those that fail. It takes memory for the address.
    fn bind(&mut self, address: &str) -> Result<(), Trouble>
        ensures binds { OnOk result (Binds address.now (Some (doors_by self.old)) (Some (doors_by self.new))) }
        ensures nothing { OnErr result (Some (doors_by self.new) ≡ Some (doors_by self.old)) }
        ensures counts { CountsWhere (result ≡ Err trouble.Failed) self.old.faults self.new.faults }
        ensures waits { self.new.idle ≡ self.old.idle }

        // Exactly this, besides what each listener promises.
        ensures fails { result ≡ Err trouble.Failed ↔ IsTrue (next_call_fails self.old) }
        ensures fault { result ≡ Err trouble.Failed → self.new ≡ hall_after_fault self.old }
        ensures refused { result ≡ Err trouble.Memory → self.new ≡ hall_after_call self.old }
        ensures after { OnOk result (self.new ≡ hall_after_bind self.old address.now) }
    {
        self.calls = self.calls.saturating_add(1);
        if self.failing.contains(&self.calls) {
            self.faults = self.faults.saturating_add(1);
            return Err(Trouble::Failed);
        }
        let Ok(address) = address.as_bytes().to_vec(self.alloc) else {
            return Err(Trouble::Memory);
        };
        self.address = Some(address);
        Ok(())
    }

    /// Hands out the next door, with the room that it needs when it is taken back.
    fn door(&mut self) -> Result<MemoryDoor, Trouble>
        ensures new { IfOk result (λ d. IsNew (Some (visits_by d)) × (d.faults ≡ 0)) }
        ensures lends { IfOk result (λ d. Lends (Some (doors_by self.old)) (Some (doors_by self.new)) (Some (visits_by d))) }
        ensures nothing { OnErr result (Some (doors_by self.new) ≡ Some (doors_by self.old)) }
        ensures counts { CountsWhere (result ≡ Err trouble.Failed) self.old.faults self.new.faults }
        ensures waits { self.new.idle ≡ self.old.idle }

        // Exactly this, besides what each listener promises.
        ensures fails { result ≡ Err trouble.Failed ↔ IsTrue (next_call_fails self.old) }
        ensures fault { result ≡ Err trouble.Failed → self.new ≡ hall_after_fault self.old }
        ensures refused { result ≡ Err trouble.Memory → self.new ≡ hall_after_call self.old }
        ensures planned { IfOk result (λ d. d ≡ door_at self.old.planned self.old.handed) }
        ensures left { OnOk result ((n : ℕ) → door_at self.new.planned n ≡ with_door (door_at self.old.planned) self.old.handed empty_door n) }
        ensures after { OnOk result (self.new ≡ hall_after_door self.old self.new.planned) }
    {
        self.calls = self.calls.saturating_add(1);
        if self.failing.contains(&self.calls) {
            self.faults = self.faults.saturating_add(1);
            return Err(Trouble::Failed);
        }
        let Some(lent) = self.lent.checked_add(1) else {
            return Err(Trouble::Memory);
        };
        let Some(handed) = self.handed.checked_add(1) else {
            return Err(Trouble::Memory);
        };
        if self.back.reserve(lent).is_err() {
            return Err(Trouble::Memory);
        }
        let door = take_planned(&mut self.planned, self.alloc, self.handed);
        self.lent = lent;
        self.handed = handed;
        Ok(door)
    }

    /// Puts the door behind those that were taken back.
    fn take_back(&mut self, door: MemoryDoor)
        requires lent { IsLent (Some (doors_by self.old)) }
        ensures returns { TakesBack (Some (doors_by self.old)) (Some (doors_by self.new)) (Some (visits_by door)) }
        ensures counts { CountsWhere (0 < door.faults) self.old.faults self.new.faults }
        ensures waits { self.new.idle ≡ self.old.idle }

        // Exactly this, besides what each listener promises.
        ensures after { self.new ≡ hall_after_return self.old door }
    {
        if door.has_failed() {
            self.faults = self.faults.saturating_add(1);
        }
        self.lent -= 1;
        self.back.push_reserved(door);
    }

    /// Keeps the seconds. No call of a connection in memory waits.
    fn set_idle(&mut self, seconds: Option<u64>)
        ensures told { self.new.idle ≡ seconds }
        ensures same { Some (doors_by self.new) ≡ Some (doors_by self.old) }
        ensures uncounted { self.new.faults ≡ self.old.faults }

        // Exactly this, besides what each listener promises.
        ensures after { self.new ≡ hall_after_telling self.old seconds }
    {
        self.idle = seconds;
    }
}
