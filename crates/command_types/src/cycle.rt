//! The words of a compression cycle.

ghost use Rattle.std.specs.Prelude.{◌≡◌};
ghost use Rattle.command_types.specs.Grammar.{mode_word};

/// What a cycle may change. In conservative mode every pair may only fall; in hybrid mode a pair of dealers may also
/// grow; in free mode every pair may.
#[derive(Clone, Copy, PartialEq, Eq)]
pub enum Mode {
    Conservative,
    Hybrid,
    Free,
}

impl Mode {
    /// The mode that a word names: `conservative`, `hybrid` or `free`.
    pub fn read(word: &[u8]) -> Option<Mode>
        ensures { result ≡ mode_word word.now }
    {
        if word == b"conservative".as_slice() {
            Some(Mode::Conservative)
        } else if word == b"hybrid".as_slice() {
            Some(Mode::Hybrid)
        } else if word == b"free".as_slice() {
            Some(Mode::Free)
        } else {
            None
        }
    }
}

/// How far the open cycle has come; `None` is no open cycle.
#[derive(Clone, Copy, PartialEq, Eq)]
pub enum Phase {
    None,
    Frozen,
    Solving,
    Proposed,
    /// A frozen trade ended.
    Broken,
}
