//! The journal: byte records in a file, each on the disk before its append is answered.
#![tactic(auto)]

mod fault;
mod form;
mod frame;
mod frames;
mod journal;
mod laws;
mod log;
mod parts;
mod put;
mod record_bytes;
mod records;
mod staged;
mod starting;
mod walked;
mod walking;

pub use fault::JournalFault;
pub use form::{FIRST_BODY, Form};
pub use frame::Frame;
pub use frames::Frames;
pub use journal::Journal;
pub use laws::{files_end_at_one_place, files_hold_one_list};
pub use record_bytes::RecordBytes;
pub use records::{RecordAt, Records};
pub use walked::Walked;
pub use walking::walk;
