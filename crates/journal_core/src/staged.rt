//! A body that was staged.

// A body that stands beside the one that is selected: its slot, its offset, and the place just past its closed gate.
#[derive(Clone, Copy)]
pub(crate) struct Staged {
    pub(crate) selected: u8,
    pub(crate) offset: u64,
    pub(crate) end: u64,
}
