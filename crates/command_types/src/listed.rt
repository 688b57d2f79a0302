//! Lists inside commands and answers.

use std::marker::Model;

/// A list that is part of a command or an answer. Contracts see it as the list.
#[derive(Drop)]
pub struct Listed<T: Drop> {
    rows: Vec<T>,
}

impl<T: Drop> Model for Listed<T> {
    ghost use Rattle.std.specs.Prelude.{List};

    ghost Value = { List T };

    ghost view = { λ l. l.rows.items };
}

ghost use Rattle.std.specs.Prelude.{◌≡◌};

impl<T: Drop> Listed<T> {
    /// The list of these rows, without memory.
    pub fn new(rows: Vec<T>) -> Listed<T>
        ensures { result ≡ rows.items }
    {
        Listed { rows }
    }

    /// The rows, in their order.
    pub fn rows(&self) -> &[T]
        ensures { result.now ≡ self.now }
    {
        &self.rows
    }

    /// The rows again, without memory.
    pub fn into_rows(self) -> Vec<T>
        ensures { result.items ≡ self }
    {
        self.rows
    }
}
