//! How a list begins, and its bells.
ghost use Rattle.std.specs.Prelude.{◌≡◌, ◌<◌, IfOk};
ghost use Rattle.publication_list.specs.declared.rule.TheConstants.{PLACES};
ghost use Rattle.publication_list.specs.Tokens.{key_of};

use super::PublicationList;
use crate::plays::{Signal, Sit};
use crate::rule::{PLACES, WAITING, WORDS};
use crate::service::Service;
use atomic_table::Table;
use std::alloc::{AllocError, Global};

impl<A, B, K, P: Service<A, B, K>> PublicationList<A, B, K, P> {
    /// A list whose places are free. An error tells that there is no memory.
    pub fn new(alloc: Global, about: &K) -> Result<PublicationList<A, B, K, P>, AllocError>
        ensures { IfOk result (λ list. key_of list ≡ about.now) }
    {
        let (table, _seat) = Table::vacant(alloc, &[0; WORDS], PLACES, about)?;
        Ok(PublicationList { table })
    }

    /// A bit for each place whose request waits for a server, as far as one look tells: no bit is missing for a request that was
    /// published before the look and is not claimed, but one may stand for a request that is just coming or going.
    pub fn waiting(&self) -> u64 {
        self.table.shared.peek(WAITING)
    }

    /// Raises the bell of the place, and wakes who sleeps there. Where nobody does, it only looks.
    pub fn ring(&self, place: usize)
        requires { place < PLACES }
    {
        let table = &self.table.shared;
        if table.peek(PLACES + place) % 2 == 1 {
            let (_, mut seat) = table.load_new_seat::<Sit>(0);
            table.fetch_add::<Signal>(&mut seat, PLACES + place, 1);
            table.wake_all(PLACES + place);
        }
    }
}
