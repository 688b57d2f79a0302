//! A counter from which workers claim numbers, each number once.
#![tactic(auto)]

mod counter;
mod rule;
mod workers;

pub use workers::{Counter, Worker};
