//! What holds of compression cycles in every legal history of a roster's market.
#![tactic(auto)]

mod laws;

pub use laws::{
    empty_begins_markets, empty_is_writable, executions_follow_the_posting, fitting_is_writable,
    folds_are_writable, folds_begin_markets, nets_stay_at_executions, postings_are_least,
    spellings_stand_for_bases, writable_can_be_written, writable_comes_back, writable_fits,
};
