//! A standby that follows a primary, and keeps a journal of its own.
//!
//! ```text
//! standby, whose disk has n entries          peer
//!     | -- NEXT n ----------------------------> |
//!     | <------------------------ entry n + 1 - |   or nothing more: BYE, and it ends
//!     the entry is made: its record is on the disk
//!     | -- NEXT n + 1 ------------------------> |
//! ```
//!
//! So each number that the peer sees is one of entries that a crash of the standby keeps.
#![tactic(auto)]

mod follow;
mod laws;
mod log;
mod memory_peer;
mod peer;

pub use follow::{FollowEnd, follow_over};
pub use laws::{
    crashes_keep_worlds_sound, folds_keep_the_list, journal_holds_a_prefix, primary_grows,
    standby_holds_a_prefix, worlds_stay_sound,
};
pub use log::{Offered, Outcome, Shown, note_heard, note_said};
pub use memory_peer::MemoryPeer;
pub use peer::{Heard, Peer, Said, SayFault};
