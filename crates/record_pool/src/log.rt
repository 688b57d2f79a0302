//! A list of records for contracts alone.
ghost use Rattle.std.specs.Prelude.{◌≡◌, [], ◌∷◌, ◌++◌, List, ℕ};
ghost use Rattle.std.specs.Borrow.{ftrue};

use std::marker::Model;

/// A list of records that contracts alone read. It has no bytes, and what is asked of it does nothing.
#[derive(Drop)]
pub(crate) struct Log {
    pub(crate) ghost items: { List (List ℕ) },
}

impl Model for Log {
    ghost also_owns = { λ _. ftrue };
}

impl Log {
    /// The empty list.
    pub(crate) fn new() -> Log
        ensures { result.items ≡ [] }
    {
        Log {}
    }

    /// The list with a record behind the others.
    pub(crate) fn with(_before: &Log, _record_bytes: &[u8]) -> Log
        ensures { result.items ≡ _before.now.items ++ _record_bytes.now ∷ [] }
    {
        Log {}
    }
}
