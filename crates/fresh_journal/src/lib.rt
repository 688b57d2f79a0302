//! The bytes of a journal that begins with a base and has no changes yet.
#![tactic(auto)]

mod journal;

pub use journal::fresh_journal;
