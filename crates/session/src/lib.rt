//! A session over a desk: lines in, the texts of their replies out.
#![tactic(auto)]

mod asker;
mod asks;
mod draft;
mod draft_potentials;
mod draft_rows;
mod fronts;
mod given;
mod host;
mod laws;
mod line_buffer;
mod moments;
mod outbox;
mod product_network;
mod proposals;
mod replies;
mod reply_writer;
mod run;
mod runs;
mod serve;
mod session;
mod solutions;
mod speaker;
mod taking;

pub use host::Host;
pub use laws::every_line_is_answered;
pub use serve::{SessionEnd, serve_session};
