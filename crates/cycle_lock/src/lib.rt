//! A ticket lock round a desk. Each call waits for its turn, and leaves its pass with a legal history that ends at the
//! reply's position. Passes are split off for other threads and joined again, and `close` gives the desk back.
#![tactic(auto)]

mod errands;
mod home;
mod pass;
mod plays;
mod rule;
mod turns;

pub use pass::Pass;
pub use turns::Turns;
