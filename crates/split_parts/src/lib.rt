//! Independent parts of a market: cut apart, solved each by itself, and put together again.
//!
//! A pair is open where its upper bound is not 0. Members that a chain of open pairs joins are a part; no amount stands
//! between two parts, and none can. So the solutions of the parts, put together, are a solution of the whole.
#![tactic(auto)]

mod labels;
mod law;
mod members;
mod merging;
mod own;
mod part;
mod partition;
mod parts;
mod places;
mod settling;

pub use law::{merged_is_solution, settled_is_solution};
pub use merging::{merge, merge_parts};
pub use part::Part;
pub use partition::Partition;
pub use parts::{Parts, split};
pub use settling::settle_others;
