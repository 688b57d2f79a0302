//! Plans: what new networks change in the trades, and whose votes that needs.
#![tactic(auto)]

mod cursors;
mod flags;
mod free_trades;
mod laws;
mod parties;
mod planning;
mod votes;

pub use free_trades::FreeTrades;
pub use laws::{
    gross_follows, nets_stay, plan_is_executable, plan_is_free, plan_is_of_the_frozen,
    plan_realises,
};
pub use parties::touched;
pub use planning::{Change, add_change, plan};
pub use votes::Votes;
