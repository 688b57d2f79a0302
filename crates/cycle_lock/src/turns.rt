//! The lock.
ghost use Rattle.std.specs.Option.{ForSome};
ghost use Rattle.std.specs.Prelude.{◌≡◌};
ghost use Rattle.publication_list.specs.Tokens.{key_of};
ghost use Rattle.cycle_lock.specs.declared.rule.TheConstants.{WORDS};

use crate::errands::Places;
use crate::home::Home;
use crate::rule::{TurnRule, View};
use atomic_table::Table;
use command_types::Desk;
use std::alloc::Global;
use std::snapshot::Snapshot;

mod alone;
mod calls;
mod ends;
mod gathers;
mod guests;
mod leads;
mod publishes;
mod serves;
mod shares;
mod steps;
mod together;

/// A ticket lock with a desk in it. Nothing is claimed of how long a call waits, or of who comes first.
#[derive(Drop)]
pub struct Turns<T: Desk> {
    table: Table<Option<Home<T>>, View, Snapshot<T>, TurnRule<T>, Global>,
    places: Option<Places>,
    ghost counts: { (table.shared.table_id.words ≡ WORDS) × (table.shared.table_id.slots ≡ 1) },
    ghost listed: { ForSome places (λ list. (key_of list).value.badge.table_id ≡ table.shared.table_id) },
}
