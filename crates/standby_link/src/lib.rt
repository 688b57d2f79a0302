//! A standby over bytes: its primary is at the other end of a source and a sink.
//!
//! ```text
//! house       follow_over         Wire               sink, source
//!   |  <- call -- |   -- say, hear -> |  -- HELLO, NEXT, BYE ->  |
//!   |             |                   |  <- replies, as they come |
//! ```
#![tactic(auto)]

mod comparing;
mod following;
mod laws;
mod login;
mod wire;

pub use following::follow;
pub use laws::{
    caught_up_text, crashes_leave_sound_worlds, followers_hold_a_prefix, forks_are_seen,
};
pub use login::Login;
