//! The program: its words, its files, its streams and its disk.
#![tactic(auto)]

mod cancelling;
mod check;
mod ending;
mod faults;
mod following;
mod generated;
mod laws;
mod load;
mod obstacles;
mod opening;
mod places;
mod replay;
mod replay_text;
mod resources;
mod rolling;
mod script;
mod seating;
mod serve;
mod solve;
mod top;

pub use laws::{
    answers_what_it_can, cancels_end_cycles, every_line_is_answered, standbys_hold_prefixes,
    standbys_leave_sound_worlds, statuses_tell_the_end,
};
pub use top::run;
