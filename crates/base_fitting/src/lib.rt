//! Whether a base fits a roster, so that a market of the roster may begin there.
#![tactic(auto)]

mod fitting;
mod gross;
mod names;
mod settings;
mod trades;

pub use fitting::fits;
