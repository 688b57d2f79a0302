//! The places of a service's seats: their doors are a listener's, and go back to it.

ghost use Rattle.std.specs.Prelude.{◌≡◌, ◌≤◌, nat_lt, true, [], All, length, map, Err, OnOk, vec_capacity};
ghost use Rattle.std.specs.List.{list_any};
ghost use Rattle.outside.specs.Faults.{Rose};
ghost use Rattle.doors.specs.Visits.{IsNew};
ghost use Rattle.compress_server.specs.Runs.{ArePlanned};
ghost use Rattle.compress_server.specs.Serve.{LendsMany, AreLent, TakesBackAll, had_no_memory, had_door_fault};

use doors::{Door, Listener};
use outside::Trouble;
use seats::{Place, SeatEnd};

/// Has a listener hand out a door for each of so many seats, and puts their places into a vector with room for them. Those
/// before one that can't be had are there.
pub fn take_places<L: Listener>(
    listener: &mut L,
    count: usize,
    places: &mut Vec<Place<L::Door>>,
) -> Result<(), Trouble>
    requires empty { places.old.items ≡ [] }
    requires room { count ≤ vec_capacity places.old }
    ensures lends { LendsMany (length places.new.items) (L.doors listener.old) (L.doors listener.new) }
    ensures new { All (λ place. IsNew (L.Door.visits place.door) × (L.Door.faults place.door ≡ 0)) places.new.items }
    ensures planned { ArePlanned L.Door.visits (L.doors listener.old) 0 places.new.items }
    ensures all { OnOk result (length places.new.items ≡ count) }
    ensures never_falls { L.faults listener.old ≤ L.faults listener.new }
    ensures failed { result ≡ Err Trouble.Failed → Rose (L.faults listener.old) (L.faults listener.new) }
    ensures waits { L.idle listener.new ≡ L.idle listener.old }
{
    for _ in 0..count {
        let door = listener.door()?;
        places.push_reserved(Place::new(door));
    }
    Ok(())
}

/// Gives the doors back to their listener, in order.
pub fn give_back<L: Listener>(listener: &mut L, places: Vec<Place<L::Door>>)
    requires lent { AreLent (length places.items) (L.doors listener.old) }
    ensures returned { TakesBackAll L.Door.visits (L.doors listener.old) (L.doors listener.new) (map (λ place. place.door) places.items) }
    ensures never_falls { L.faults listener.old ≤ L.faults listener.new }
    ensures failed { list_any (λ place. nat_lt 0 (L.Door.faults place.door)) places.items ≡ true → Rose (L.faults listener.old) (L.faults listener.new) }
    ensures waits { L.idle listener.new ≡ L.idle listener.old }
{
    for place in places {
        let Place {
            door,
            pass: _,
            end: _,
        } = place;
        listener.take_back(door);
    }
}

/// Whether a seat ended for want of memory.
pub fn has_no_memory<C: Door + Drop>(places: &[Place<C>]) -> bool
    ensures { result ≡ list_any (λ place. had_no_memory place.end) places.now }
{
    places
        .iter()
        .any(|place| matches!(place.end, SeatEnd::Memory))
}

/// Whether a seat ended because its door failed.
pub fn has_door_fault<C: Door + Drop>(places: &[Place<C>]) -> bool
    ensures { result ≡ list_any (λ place. had_door_fault place.end) places.now }
{
    places
        .iter()
        .any(|place| matches!(place.end, SeatEnd::DoorFault))
}
