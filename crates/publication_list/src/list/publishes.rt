//! What is done by who published a request.
ghost use Rattle.std.specs.Prelude.{◌≡◌, ◌<◌, Some, IfOk, IfErr};
ghost use Rattle.publication_list.specs.declared.rule.TheConstants.{PLACES};
ghost use Rattle.publication_list.specs.Tokens.{IsPublishedIn, asked, key_of, place_of, IsReplyTo};

use super::PublicationList;
use crate::plays::{Collect, Free, Publish, Reserve, Signal, Sit, Withdraw};
use crate::published::Published;
use crate::rule::{ANSWERED, FREE, HELD, Letter, PLACES, PUBLISHED, WAITING};
use crate::service::Service;
use std::sync::Wait;

impl<A, B, K, P: Service<A, B, K>> PublicationList<A, B, K, P> {
    /// Publishes a request at a place. Where the place is taken, the request comes back.
    pub fn publish(&self, place: usize, request: A) -> Result<Published<A, B, K>, A>
        requires lies { place < PLACES }
        requires fits { P.fits (key_of self.now) request }
        ensures own { IfOk result (λ p. IsPublishedIn self.now p) }
        ensures asked { IfOk result (λ p. asked p ≡ Some request) }
        ensures place { IfOk result (λ p. place_of p ≡ place) }
        ensures taken { IfErr result (λ back. back ≡ request) }
    {
        let table = &self.table.shared;
        let (_, mut seat) = table.load_new_seat::<Sit>(place);
        if table.compare_exchange::<Reserve>(&mut seat, place, FREE, HELD) != FREE {
            return Err(request);
        }
        let empty = table.exchange(&mut seat, place, Some(Letter::Request(request)));
        let None = empty else { unreachable!() };
        table.fetch_or::<Signal>(&mut seat, WAITING, 1 << place);
        table.store::<Publish>(&mut seat, place, PUBLISHED);
        Ok(Published { seat, place })
    }

    /// The reply, if there is one. If not, the request waits on.
    pub fn collect(&self, published: Published<A, B, K>) -> Result<B, Published<A, B, K>>
        requires own { IsPublishedIn self.now published }
        ensures reply { IfOk result (λ reply. IsReplyTo P.answers (asked published) reply) }
        ensures own { IfErr result (λ p. IsPublishedIn self.now p) }
        ensures waits { IfErr result (λ p. asked p ≡ asked published) }
        ensures stays { IfErr result (λ p. place_of p ≡ place_of published) }
    {
        let Published { mut seat, place } = published;
        let table = &self.table.shared;
        if table.compare_exchange::<Collect<K, P>>(&mut seat, place, ANSWERED, HELD) != ANSWERED {
            return Err(Published { seat, place });
        }
        let letter = table.exchange(&mut seat, place, None);
        let Some(Letter::Reply(reply)) = letter else {
            unreachable!()
        };
        table.store::<Free>(&mut seat, place, FREE);
        Ok(reply)
    }

    /// Takes the request back, if no server has claimed it. If one has, the request waits on.
    pub fn withdraw(&self, published: Published<A, B, K>) -> Result<A, Published<A, B, K>>
        requires own { IsPublishedIn self.now published }
        ensures request { IfOk result (λ request. asked published ≡ Some request) }
        ensures own { IfErr result (λ p. IsPublishedIn self.now p) }
        ensures waits { IfErr result (λ p. asked p ≡ asked published) }
        ensures stays { IfErr result (λ p. place_of p ≡ place_of published) }
    {
        let Published { mut seat, place } = published;
        let table = &self.table.shared;
        if table.compare_exchange::<Withdraw>(&mut seat, place, PUBLISHED, HELD) != PUBLISHED {
            return Err(Published { seat, place });
        }
        table.fetch_and::<Signal>(&mut seat, WAITING, !(1 << place));
        let letter = table.exchange(&mut seat, place, None);
        let Some(Letter::Request(request)) = letter else {
            unreachable!()
        };
        table.store::<Free>(&mut seat, place, FREE);
        Ok(request)
    }

    /// Whether there is a reply, as far as one look tells. Then `collect` gives it.
    pub fn is_answered(&self, published: &Published<A, B, K>) -> bool
        requires { IsPublishedIn self.now published.now }
    {
        self.table.shared.peek(published.place) == ANSWERED
    }

    /// Makes it known that somebody will sleep at the place, and tells the number to do so with.
    pub fn bell(&self, published: &Published<A, B, K>) -> u32
        requires { IsPublishedIn self.now published.now }
    {
        let table = &self.table.shared;
        let (_, mut seat) = table.load_new_seat::<Sit>(0);
        let found = table.fetch_or::<Signal>(&mut seat, PLACES + published.place, 1);
        (found % (1 << 32)) as u32 | 1
    }

    /// Sleeps until the bell of the place rings, unless it has rung since `bell` told `rung`. It may also return for no reason.
    pub fn wait<R: Wait>(&self, rt: &R, published: &Published<A, B, K>, rung: u32)
        requires { IsPublishedIn self.now published.now }
    {
        self.table.shared.park(rt, PLACES + published.place, rung);
    }
}
