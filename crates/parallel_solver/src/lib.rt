//! Solves many problems, by workers beside one another.
#![tactic(auto)]

mod found;
mod job;
mod made;
mod pieces;
mod solving;
mod workers;

pub use workers::Workers;
