//! What a seat at the table knows, and the rule that every step keeps. Word p of the table is the state of place p, and word
//! PLACES + p its bell. Slot p has the letter of place p. Of bells, and of the last word, which has a bit for each place whose
//! request waits, the rule says nothing.
//!
//! The states of a place, with the steps between them (`plays.rt`):
//!
//! ```text
//!     FREE --Reserve--> HELD --Publish--> PUBLISHED --Claim--> CLAIMED --Answer--> ANSWERED
//!       ^                |^                   |                                       |
//!       +------Free------+|                   |                                       |
//!                         +-----Withdraw------+----------------Collect----------------+
//! ```
//!
//! Who asks goes the ways through HELD (`list/publishes.rt`), and a server from PUBLISHED to ANSWERED (`list/serves.rt`).

use crate::service::Service;
use atomic_table::{Seat, TableRule};
use std::collections::LinkedList;
use std::marker::PhantomData;

/// How many places a list has.
pub const PLACES: usize = 64;

/// The word that has a bit for each place whose request waits.
pub const WAITING: usize = 128;

/// How many words the table has.
pub const WORDS: usize = 129;

/// Nobody has the place.
pub const FREE: u64 = 0;

/// One seat has the place and its slot.
pub const HELD: u64 = 1;

/// The slot has a request.
pub const PUBLISHED: u64 = 2;

/// A server has the slot, and owes the reply.
pub const CLAIMED: u64 = 3;

/// The slot has the reply.
pub const ANSWERED: u64 = 4;

/// What lies in a slot.
#[derive(Drop)]
pub enum Letter<A, B> {
    Request(A),
    Reply(B),
}

/// What a seat knows. No value of it is made.
pub struct View<A, K> {
    /// What the list was told when it was made.
    pub key: K,
    /// The place that it has, with its request from the publishing on until the reply or the withdrawal.
    pub asks: LinkedList<(u64, Option<A>)>,
    /// The requests that it has claimed and not answered, with their places, the oldest first.
    pub claims: LinkedList<(u64, A)>,
}

pub(crate) type SeatOf<A, B, K> = Seat<Option<Letter<A, B>>, View<A, K>>;

/// The rule of the table.
pub struct PlaceRule<P> {
    service: PhantomData<P>,
}

impl<A, B, K, P: Service<A, B, K>> TableRule<Option<Letter<A, B>>, View<A, K>, K> for PlaceRule<P> {
    ghost use Rattle.publication_list.specs.Places.{Kept, idle};

    ghost holds = { λ key. Kept (P.fits key) P.answers key };

    ghost first = { idle };
}
