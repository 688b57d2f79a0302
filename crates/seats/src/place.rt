//! Where a seat works.

ghost use Rattle.std.specs.Prelude.{◌≡◌};

use crate::seat::SeatEnd;
use cycle_lock::Pass;
use doors::Door;

/// A seat's door, its pass while it works, and how its work ended.
#[derive(Drop)]
pub struct Place<D: Door + Drop> {
    pub door: D,
    pub pass: Option<Pass>,
    pub end: SeatEnd,
}

impl<D: Door + Drop> Place<D> {
    /// A place at this door, where no seat has worked yet.
    pub fn new(door: D) -> Place<D>
        ensures { result.door ≡ door }
    {
        Place {
            door,
            pass: None,
            end: SeatEnd::Over,
        }
    }
}
