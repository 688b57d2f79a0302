//! Where connections come from: listeners, their doors, and the forms of both in memory and over a socket.
#![tactic(auto)]

mod direction;
mod door;
mod listener;
mod memory_connection;
mod memory_door;
mod memory_listener;
mod patience;
mod planned_door;
mod refusal;
mod socket_door;
mod socket_listener;

pub use direction::Direction;
pub use door::Door;
pub use listener::Listener;
pub use memory_connection::MemoryConnection;
pub use memory_door::MemoryDoor;
pub use memory_listener::MemoryListener;
pub use socket_door::SocketDoor;
pub use socket_listener::SocketListener;
