//! What a standby asks, and what it is told.

use command_types::{Entry, Listed};
use units_core::Name;

/// What a standby waits to be told.
#[derive(Drop)]
pub enum Question {
    /// Whether it is greeted under this name.
    Hello { name: Name },
    /// The entry behind this position.
    Next { position: u64 },
    /// The entry behind this position once more, which has these bytes.
    Again { position: u64, bytes: Listed<u8> },
}

/// A reply that may stand where one is due.
#[derive(Drop)]
pub enum Reply {
    /// The HELLO was accepted.
    Greeted,
    /// The entry behind the position.
    Entry(Entry),
    /// There is no entry behind the position.
    Nothing,
    /// The entry behind the position has these bytes.
    Same,
    /// The line was refused, with this number.
    Refused { number: u8 },
}
