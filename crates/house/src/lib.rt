//! A desk over a disk: a machine, its history, and the journal that keeps it.
#![tactic(auto)]

mod batch;
mod calling;
mod calling_all;
mod chronicle;
mod executions;
mod folding;
mod house;
mod opening;
mod past;
mod pools;
mod recovering;
mod sharing;
mod storing;
mod turning;

pub use executions::{Dated, Executions};
pub use folding::FEWEST_TO_FOLD;
pub use house::House;
pub use recovering::{Recovered, recover_noting};
