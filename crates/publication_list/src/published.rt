//! What a thread waits with, once it has published a request.
ghost use Rattle.std.specs.Prelude.{◌≡◌, ◌<◌, []};
ghost use Rattle.publication_list.specs.declared.rule.TheConstants.{PLACES};
ghost use Rattle.publication_list.specs.Places.{asker, asked_in};

use crate::rule::SeatOf;

/// A place with a request of one's own. It ends in `collect` or `withdraw`.
pub struct Published<A, B, K> {
    pub(crate) seat: SeatOf<A, B, K>,
    pub(crate) place: usize,
    pub ghost lies: { place < PLACES },
    pub ghost asks: { seat.me ≡ (asker seat.me.0.key place (asked_in seat.me.0.asks), []) },
}
