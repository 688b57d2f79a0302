//! Seats that serve connections beside one another, each with a pass of one lock and a door of its own.
#![tactic(auto)]

mod laws;
mod place;
mod places;
mod seat;
mod serving;

pub use laws::connections_are_answered;
pub use place::Place;
pub use seat::{SeatEnd, Service};
