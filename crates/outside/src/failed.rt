//! The fault of a call of an object outside the program.
use thiserror::Error;

/// A call of an object outside the program failed, and the object counted it.
#[derive(Clone, Copy, Debug, PartialEq, Eq, Error)]
#[error("a call failed")]
pub struct Failed;
