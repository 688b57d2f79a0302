//! Many lists in one pool of nodes. A value is put last into a list, read, and taken out from wherever it stands, each at
//! a constant cost and in the room that was made before.
#![tactic(auto)]

mod links;
mod node;
mod pool;
mod rows;

pub use node::Node;
pub use rows::Rows;
