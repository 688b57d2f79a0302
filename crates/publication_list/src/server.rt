//! What a thread serves with.
ghost use Rattle.std.specs.Prelude.{◌≡◌, ◌<◌, [], map, All};
ghost use Rattle.publication_list.specs.declared.rule.TheConstants.{PLACES};
ghost use Rattle.publication_list.specs.Places.{emptied};

use crate::rule::{PLACES, SeatOf};
use arrayvec::ArrayVec;

/// What claims requests, and owes a reply to each. It ends in `leave`.
pub struct Server<A, B, K> {
    pub(crate) seat: SeatOf<A, B, K>,
    pub(crate) places: ArrayVec<u8, PLACES>,
    ghost asks: { seat.me.0.asks ≡ [] },
    ghost holds: { seat.me.1 ≡ emptied seat.me.0.claims },
    ghost number: { map (λ claim. claim.0) seat.me.0.claims ≡ places.items },
    ghost lie: { All (λ place. place < PLACES) places.items },
}
