//! What a disk may do with its file.

/// Whether a disk changes the file that it is attached to.
#[derive(Clone, Copy, Debug, PartialEq, Eq)]
pub enum Access {
    /// It reads and writes the file, and keeps other programs from it.
    Write,
    /// It only reads the file, which may be another program's that writes to it.
    Read,
}
