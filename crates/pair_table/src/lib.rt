//! The amounts between the members of a market, added up pair by pair, and the network that they make.
#![tactic(auto)]

mod table;

pub use table::PairTable;
