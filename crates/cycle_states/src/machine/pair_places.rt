//! A pair of members with the places of its rows in a product's limits, in its network and in its solution's. Pairs are gone to
//! in rising order, so that each list is walked once.

ghost use Rattle.std.specs.Prelude.{◌≡◌};
ghost use Rattle.cycle_states.specs.PairPlaces.{ArePast, IsAtPair, pair_place};

use super::part::{Part, limit_rows, rows_next, rows_now};
use super::row_search::{limit_from, row_from};
use network_laws::{first_limit, first_row};

/// A pair, and the first rows that do not stand before it.
#[derive(Clone, Copy)]
pub(super) struct PairPlaces {
    pub seller: u16,
    pub buyer: u16,
    /// In the limits.
    pub limit: usize,
    /// In the network.
    pub now: usize,
    /// In the solution's network.
    pub next: usize,
}

impl PairPlaces {
    /// Before all pairs.
    pub(super) fn first() -> PairPlaces
        ensures { result ≡ record { seller = 0; buyer = 0; limit = 0; now = 0; next = 0 } }
    {
        PairPlaces {
            seller: 0,
            buyer: 0,
            limit: 0,
            now: 0,
            next: 0,
        }
    }

    /// Before the pairs of a seller, found by binary search.
    pub(super) fn of_seller(part: &Part, seller: u16) -> PairPlaces
        ensures { ArePast part.now result (pair_place seller 0) }
    {
        let limit = first_limit(limit_rows(part), seller, 0);
        let now = first_row(rows_now(part), seller, 0);
        let next = first_row(rows_next(part), seller, 0);
        PairPlaces {
            seller,
            buyer: 0,
            limit,
            now,
            next,
        }
    }

    /// At a pair from here on.
    pub(super) fn to(self, part: &Part, seller: u16, buyer: u16) -> PairPlaces
        requires { ArePast part.now self (pair_place seller buyer) }
        ensures pair { IsAtPair part.now result }
        ensures seller { result.seller ≡ seller }
        ensures buyer { result.buyer ≡ buyer }
    {
        let wanted = seller as u32 * 65536 + buyer as u32;
        let members = part.problem.network().members();
        let limit = limit_from(limit_rows(part), self.limit, members, wanted);
        let now = row_from(rows_now(part), self.now, wanted);
        let next = row_from(rows_next(part), self.next, wanted);
        PairPlaces {
            seller,
            buyer,
            limit,
            now,
            next,
        }
    }
}
