//! What a standby writes to a primary, and what it reads from it, to the byte.
#![tactic(auto)]

mod hearing;
mod inbox;
mod laws;
mod lines;
mod refusals;
mod replies;
mod reply;
mod stop;
mod values;
mod words;

pub use hearing::Hearing;
pub use inbox::{Inbox, WaitFault};
pub use laws::{only_the_same_is_read, reading_stays, refusals_are_read, writing_is_read};
pub use lines::{write_bye, write_hello, write_next};
pub use replies::reply_to;
pub use reply::{Question, Reply};
pub use stop::{NoReply, Stop};
