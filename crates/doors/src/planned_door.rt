//! A door in memory that is to be handed out.

use crate::memory_door::MemoryDoor;

/// A door, with its place among the doors.
#[derive(Drop)]
pub struct PlannedDoor {
    pub number: u64,
    pub door: MemoryDoor,
}
