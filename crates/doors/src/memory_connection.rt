//! A connection in memory.

use outside::{MemorySink, MemorySource};

/// The two streams of a connection in memory.
#[derive(Drop)]
pub struct MemoryConnection {
    pub input: MemorySource,
    pub output: MemorySink,
}
