//! The history that a journal's file stands for: where its base begins, and the entries that its records spell, in their
//! order.
#![tactic(auto)]

mod body;
mod contents;
mod entries;
mod laws;
mod reader;
mod reading;

pub use contents::{BaseAt, Contents};
pub use entries::{Entries, EntryAt};
pub use laws::files_stand_for_one_history;
pub use reader::EntryReader;
pub use reading::read_entries;
