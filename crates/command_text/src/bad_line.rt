//! Lines that are not of the grammar.

use thiserror::Error;

/// The line is not of the grammar. `at` is the offset of the first byte of the first word that is not of the form; a
/// missing word is told at the line's length.
#[derive(Clone, Copy, Debug, Error)]
#[error("not a line of the grammar: at byte {at}")]
pub struct BadLine {
    pub at: u32,
}
