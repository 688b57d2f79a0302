//! The two spellings of a change in a journal.

/// How a change is spelled. A journal's records are of the first spelling before its turn, and of the second after it.
#[derive(Clone, Copy, PartialEq, Eq)]
pub enum Spelling {
    /// Without a moment, which is 0.
    First,
    /// The moment, and the first spelling behind it.
    Second,
}
