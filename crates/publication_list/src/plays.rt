//! What each step at the table tells. These types are for the proofs alone: no value of them is made.

use crate::rule::{Letter, View};
use crate::service::Service;
use atomic_table::Play;
use std::marker::PhantomData;

/// A seat is made, which has no place and no claims.
pub struct Sit;

impl<A, B, K> Play<Option<Letter<A, B>>, View<A, K>> for Sit {
    ghost use Rattle.publication_list.specs.Plays.{sat};

    ghost then = { λ s m n w. sat m w };
}

/// A word of which the rule says nothing becomes another.
pub struct Signal;

impl<A, B, K> Play<Option<Letter<A, B>>, View<A, K>> for Signal {
    ghost use Rattle.publication_list.specs.Plays.{signalled};

    ghost then = { λ s m n w. signalled m w };
}

/// A place that is free is taken.
pub struct Reserve;

impl<A, B, K> Play<Option<Letter<A, B>>, View<A, K>> for Reserve {
    ghost use Rattle.publication_list.specs.Plays.{reserved};

    ghost then = { reserved };
}

/// The request in hand is published.
pub struct Publish;

impl<A, B, K> Play<Option<Letter<A, B>>, View<A, K>> for Publish {
    ghost use Rattle.publication_list.specs.Plays.{published};

    ghost then = { λ s m n w. published s m w };
}

/// The reply is taken, where there is one.
pub struct Collect<K, P> {
    service: PhantomData<(K, P)>,
}

impl<A, B, K, P: Service<A, B, K>> Play<Option<Letter<A, B>>, View<A, K>> for Collect<K, P> {
    ghost use Rattle.publication_list.specs.Plays.{collected};

    ghost then = { collected P.answers };
}

/// The request is taken back, where no server has claimed it.
pub struct Withdraw;

impl<A, B, K> Play<Option<Letter<A, B>>, View<A, K>> for Withdraw {
    ghost use Rattle.publication_list.specs.Plays.{withdrawn};

    ghost then = { withdrawn };
}

/// A place is free again.
pub struct Free;

impl<A, B, K> Play<Option<Letter<A, B>>, View<A, K>> for Free {
    ghost use Rattle.publication_list.specs.Plays.{freed};

    ghost then = { λ s m n w. freed m w };
}

/// A request is claimed, where one is published.
pub struct Claim<P> {
    service: PhantomData<P>,
}

impl<A, B, K, P: Service<A, B, K>> Play<Option<Letter<A, B>>, View<A, K>> for Claim<P> {
    ghost use Rattle.publication_list.specs.Plays.{claimed};

    ghost then = { claimed P.fits };
}

/// The reply in hand is given.
pub struct Answer;

impl<A, B, K> Play<Option<Letter<A, B>>, View<A, K>> for Answer {
    ghost use Rattle.publication_list.specs.Plays.{answered};

    ghost then = { λ s m n w. answered m w };
}
