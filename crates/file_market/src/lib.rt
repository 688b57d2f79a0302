//! The market of a trade file: the network of each product with the limits that it may be compressed within, where no
//! member set a floor or a ceiling and no trade is held. A proposal is checked against it, or made for it.
#![tactic(auto)]

mod buyers;
mod checking;
mod failing;
mod laws;
mod limits;
mod reading;
mod solving;
mod summing;
mod untouched;
mod verdict_text;
mod writing;

pub use checking::{Terms, check};
pub use failing::{Failing, Failure};
pub use laws::{
    nothing_fails_where_all_pass, summaries_are_one, what_is_solved_passes, yes_where_all_are_least,
};
pub use reading::read_proposal_by;
pub use solving::solve;
pub use summing::summarize;
pub use verdict_text::verdict;
