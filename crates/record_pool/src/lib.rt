//! The records of changes in memory: what was read when a journal was opened, and what was appended since.
#![tactic(auto)]

mod appended;
mod laws;
mod log;
mod marks;
mod opened;
mod page;
mod pages;
mod parts;
mod pool;

pub use laws::changes_are_given_in_the_second_spelling;
pub use pool::Pool;
