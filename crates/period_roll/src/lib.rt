//! How a market goes on over the roster of a new period: what is written of it, with its open trades alone, for the places
//! of the new roster.
#![tactic(auto)]

mod cause;
mod keeping;
mod laws;
mod names;
mod parties;
mod rolling;
mod settings;
mod trades;

pub use cause::{Cause, RollFault};
pub use laws::{nets_stay, rolled_can_be_written, rolled_fits, settings_stay, trades_stay};
pub use rolling::roll;
