//! A posting: whether its solutions are certified, and what they change in the trades.
#![tactic(auto)]

mod counts;
mod gross;
mod laws;
mod planned;
mod posted;
mod steps;
mod touching;

pub use counts::{Counts, counts_of};
pub use gross::{gross_after, gross_before};
pub use laws::{plan_stays, posting_can_be_executed};
pub use planned::{plan_from_free, posted_plan};
pub use posted::bad_post;
pub use steps::steps_of;
pub use touching::add_vote;
