//! The members of a part.

ghost use Rattle.std.specs.Prelude.{◌≡◌};

use std::marker::Model;

/// The members of a part, in rising order. Contracts see it as the list of them.
#[derive(Drop)]
pub struct Part {
    members: Vec<u16>,
}

impl Model for Part {
    ghost use Rattle.std.specs.Prelude.{List, ℕ};

    ghost Value = { List ℕ };

    ghost view = { λ part. part.members.items };
}

impl Part {
    /// The part of these members.
    pub fn from_members(members: Vec<u16>) -> Part
        ensures { result ≡ members.items }
    {
        Part { members }
    }

    /// Its members.
    pub fn members(&self) -> &[u16]
        ensures { result.now ≡ self.now }
    {
        &self.members
    }
}
