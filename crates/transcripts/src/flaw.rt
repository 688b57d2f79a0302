//! What is wrong with a transcript.

use std::alloc::AllocError;
use std::io;
use thiserror::Error;

/// What is wrong with a transcript: it can't be read, or the program answers otherwise.
#[derive(Debug, Drop, Error)]
pub enum Flaw {
    #[error("the file can't be read: {0}")]
    Unreadable(#[from] io::Error),
    #[error("the last line has no end")]
    Unended,
    #[error("line {0} stands before the first run")]
    BeforeRuns(usize),
    #[error("there is no run")]
    NoRun,
    #[error(transparent)]
    Memory(#[from(alloc)] AllocError),
    #[error("line {line}, {pace}\n  wanted: {wanted:?}\n  came:   {came:?}")]
    Differs {
        line: usize,
        pace: &'static str,
        wanted: String,
        came: String,
    },
}
