//! The list of places.
ghost use Rattle.std.specs.Prelude.{◌≡◌};
ghost use Rattle.publication_list.specs.declared.rule.TheConstants.{PLACES, WORDS};

use crate::rule::{Letter, PlaceRule, View};
use crate::service::Service;
use atomic_table::Table;
use std::alloc::Global;

mod bells;
mod publishes;
mod serves;

/// Places where requests are published. Its memory is taken when it is made. Nothing is claimed of how long a request waits,
/// or of which is served first.
#[derive(Drop)]
pub struct PublicationList<A, B, K, P: Service<A, B, K>> {
    pub(crate) table: Table<Option<Letter<A, B>>, View<A, K>, K, PlaceRule<P>, Global>,
    ghost counts: { (table.shared.table_id.words ≡ WORDS) × (table.shared.table_id.slots ≡ PLACES) },
}
