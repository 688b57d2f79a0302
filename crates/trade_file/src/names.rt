//! The names that a file has had so far.
ghost use Rattle.std.specs.Prelude.{◌≡◌, false, [], ◌∷◌, ◌++◌, OnOk};
ghost use Rattle.std.specs.List.{list_any};
ghost use Rattle.std.specs.Str.{bytes_eq};

use indexmap::IndexSet;
use std::alloc::{AllocError, Global};
use std::marker::Model;
use units_core::Name;

/// Names, each once. Contracts see them as a list, in the order in which they came.
#[derive(Drop)]
pub(crate) struct Names {
    names: IndexSet<Name>,
}

impl Model for Names {
    ghost use Rattle.std.specs.Prelude.{List, ℕ};

    ghost Value = { List (List ℕ) };

    ghost view = { λ n. n.names.keys };
}

impl Names {
    pub(crate) fn new(alloc: Global) -> Names
        ensures { result ≡ [] }
    {
        Names {
            names: IndexSet::new(alloc),
        }
    }

    /// Whether the name came already.
    pub(crate) fn has(&self, name: Name) -> bool
        ensures { result ≡ list_any (bytes_eq name) self.now }
    {
        self.names.contains(&name)
    }

    /// Puts a name last that did not come yet.
    pub(crate) fn add(&mut self, name: Name) -> Result<(), AllocError>
        requires { list_any (bytes_eq name) self.old ≡ false }
        ensures { OnOk result (self.new ≡ self.old ++ name ∷ []) }
    {
        self.names.insert_full(name)?;
        Ok(())
    }
}
