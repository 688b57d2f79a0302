//! Places in the roster.
ghost use Rattle.std.specs.Prelude.{◌≡◌};

use std::marker::Model;

/// The place of a member, counted from 0. Contracts see it as the number.
#[derive(Clone, Copy, PartialEq, Eq)]
pub struct MemberNo(pub u16);

impl Model for MemberNo {
    ghost use Rattle.std.specs.Prelude.{ℕ};

    ghost Value = { ℕ };

    ghost view = { λ m. m.0 };

    ghost inverse = { λ n. record { 0 = n } };
}

impl MemberNo {
    /// The place as an index.
    pub fn index(self) -> usize
        ensures { result ≡ self }
    {
        usize::from(self.0)
    }
}

/// The place of a product, counted from 0. Contracts see it as the number.
#[derive(Clone, Copy, PartialEq, Eq)]
pub struct ProductNo(pub u16);

impl Model for ProductNo {
    ghost use Rattle.std.specs.Prelude.{ℕ};

    ghost Value = { ℕ };

    ghost view = { λ p. p.0 };

    ghost inverse = { λ n. record { 0 = n } };
}

impl ProductNo {
    /// The place as an index.
    pub fn index(self) -> usize
        ensures { result ≡ self }
    {
        usize::from(self.0)
    }
}
