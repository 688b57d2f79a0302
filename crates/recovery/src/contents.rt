//! What a journal's file holds: a base and entries.

use crate::Entries;
use command_types::Base;

/// A base, and the offset in the file at which its length stands.
#[derive(Drop)]
pub struct BaseAt {
    pub at: u64,
    pub base: Base,
}

/// What a file holds: the base in front of its records, if there is one, and the entries that the records spell.
#[derive(Drop)]
pub struct Contents {
    pub base: Option<BaseAt>,
    pub entries: Entries,
}
