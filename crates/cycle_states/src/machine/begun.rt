//! The problems that a version begins with. They are made when something first asks for them, and kept from then on.

ghost use Rattle.std.specs.Prelude.{◌≡◌, [], IfSome};
ghost use Rattle.command_types.specs.Cycles.{problems_of};

use command_types::{Mode, Roster};
use network_laws::Problem;
use product_book::Book;
use std::alloc::Global;
use std::marker::Model;
use std::snapshot::Snapshot;
use tolerance_sets::Tolerances;

/// What is at hand of a version's problems.
#[derive(Drop)]
pub(super) enum Found {
    /// They were made.
    Made(Vec<Problem>),
    /// Nothing asked for them yet. They follow from what there was when the version began, which contracts alone see.
    Open {
        roster: Snapshot<Roster>,
        book: Snapshot<Book>,
        tolerances: Snapshot<Tolerances>,
        mode: Mode,
    },
}

/// The problems of a version. Contracts see their list, whether they were made or not.
#[derive(Drop)]
pub(super) struct Begun {
    found: Found,
}

impl Model for Begun {
    ghost use Rattle.std.specs.Prelude.{List};
    ghost use Rattle.network_laws.specs.Solutions.{ProblemData};

    ghost Value = { List ProblemData };

    ghost use Rattle.cycle_states.specs.Begun.{problems_in};

    ghost view = { λ b. problems_in b.found };
}

impl Begun {
    /// No problems. It takes no memory.
    pub(super) fn none(alloc: Global) -> Begun
        ensures { result ≡ [] }
    {
        Begun {
            found: Found::Made(Vec::new(alloc)),
        }
    }

    /// Those of these trades and settings in this mode, not made yet. It takes no memory.
    pub(super) fn of(roster: &Roster, book: &Book, tolerances: &Tolerances, mode: Mode) -> Begun
        ensures { result ≡ problems_of roster.now book.now.rows tolerances.now.settings mode }
    {
        Begun {
            found: Found::Open {
                roster: Snapshot::of(roster),
                book: Snapshot::of(book),
                tolerances: Snapshot::of(tolerances),
                mode,
            },
        }
    }

    /// The problems, where they were made.
    pub(super) fn made(&self) -> Option<&[Problem]>
        ensures { IfSome result (λ problems. problems.now ≡ self.now) }
    {
        match &self.found {
            Found::Made(problems) => Some(problems.as_slice()),
            Found::Open { .. } => None,
        }
    }

    /// Keeps the problems, which were made now.
    pub(super) fn keep(&mut self, problems: Vec<Problem>)
        requires { problems.items ≡ self.old }
        ensures { self.new ≡ self.old }
    {
        self.found = Found::Made(problems);
    }
}
