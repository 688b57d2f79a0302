//! Why a call that takes memory gave nothing.
use thiserror::Error;

/// A call of an object outside the program failed, and the object counted it; or there was no memory for its answer.
#[derive(Clone, Copy, Debug, PartialEq, Eq, Error)]
pub enum Trouble {
    #[error("a call failed")]
    Failed,
    #[error("no memory")]
    Memory,
}
