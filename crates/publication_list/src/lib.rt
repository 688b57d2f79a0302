//! A list of places where requests are published, for whoever serves. Who publishes one waits at its place for the reply.
#![tactic(auto)]

mod list;
mod plays;
mod published;
mod rule;
mod server;
mod service;

pub use list::PublicationList;
pub use published::Published;
pub use rule::PLACES;
pub use server::Server;
pub use service::Service;
