//! A book: the trades of a market in the order of their numbers, and the sums and networks over them.
#![tactic(auto)]

mod book;
mod execution;
mod freezes;
mod kept;
mod laws;
mod links;
mod loading;
mod networks;
mod open_lists;
mod picks;
mod places;
mod row;

pub use book::{Book, Position};
pub use laws::{freezes_by_maturity, held_is_within_frozen};
pub use networks::Which;
