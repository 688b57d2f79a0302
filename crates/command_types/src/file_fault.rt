//! What is wrong with a file.

use thiserror::Error;

/// The first fault of a roster, trade or proposal file, with the number of its record or line, counted from 1.
#[derive(Clone, Copy, Debug, PartialEq, Eq, Error)]
pub enum FileFault {
    /// The file has more than 67,108,864 bytes.
    #[error("the file is too long")]
    TooLong,
    /// The record has not the fields that are due.
    #[error("row {row}: not the fields that are due")]
    Columns { row: u64 },
    #[error("row {row}: not a name")]
    BadName { row: u64 },
    #[error("row {row}: not a role")]
    BadRole { row: u64 },
    #[error("row {row}: not an amount")]
    BadAmount { row: u64 },
    #[error("row {row}: not a day")]
    BadDay { row: u64 },
    /// The name stands in an earlier record, or it is a second operator.
    #[error("row {row}: a name comes twice")]
    Twice { row: u64 },
    #[error("row {row}: an unknown name")]
    UnknownName { row: u64 },
    #[error("row {row}: seller and buyer are the same")]
    SameParty { row: u64 },
    #[error("row {row}: the product's amounts pass the most")]
    GrossLimit { row: u64 },
    #[error("row {row}: one record too many of its kind")]
    RowLimit { row: u64 },
    /// A line of a proposal that can't stand at its place.
    #[error("row {row}: not a line that is due")]
    BadLine { row: u64 },
    /// There was no memory.
    #[error("no memory")]
    Memory,
}
