//! Where a value stands.

/// A value's node: its place in the pool. It is live from the push that gave it until its value is taken out.
#[derive(Clone, Copy, Debug, PartialEq, Eq)]
pub struct Node {
    pub place: u64,
}
