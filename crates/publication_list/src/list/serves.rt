//! What is done by who serves.
ghost use Rattle.std.specs.Prelude.{◌≡◌, ◌<◌, [], ◌∷◌, ◌++◌, drop, IfSome, IfNone};
ghost use Rattle.publication_list.specs.declared.rule.TheConstants.{PLACES};
ghost use Rattle.publication_list.specs.Tokens.{IsServerOf, claims, places_of, key_of, AnswersFirst};

use super::PublicationList;
use crate::plays::{Answer, Claim, Signal, Sit};
use crate::rule::{ANSWERED, CLAIMED, Letter, PLACES, PUBLISHED, WAITING};
use crate::server::Server;
use crate::service::Service;
use arrayvec::ArrayVec;

impl<A, B, K, P: Service<A, B, K>> PublicationList<A, B, K, P> {
    /// A server that has claimed nothing.
    pub fn server(&self) -> Server<A, B, K>
        ensures own { IsServerOf self.now result }
        ensures claims { claims result ≡ [] }
        ensures places { places_of result ≡ [] }
    {
        let (_, seat) = self.table.shared.load_new_seat::<Sit>(0);
        Server {
            seat,
            places: ArrayVec::new(),
        }
    }

    /// Claims the request at the place, if one waits there. It is the last that the server answers.
    pub fn claim(&self, server: &mut Server<A, B, K>, place: usize) -> Option<A>
        requires lies { place < PLACES }
        requires own { IsServerOf self.now server.old }
        ensures own { IsServerOf self.now server.new }
        ensures fits { IfSome result (λ request. P.fits (key_of self.now) request) }
        ensures claimed { IfSome result (λ request. claims server.new ≡ claims server.old ++ request ∷ []) }
        ensures at { IfSome result (λ request. places_of server.new ≡ places_of server.old ++ place ∷ []) }
        ensures none { IfNone result (claims server.new ≡ claims server.old) }
        ensures stays { IfNone result (places_of server.new ≡ places_of server.old) }
    {
        let table = &self.table.shared;
        if table.peek(place) != PUBLISHED || server.places.is_full() {
            return None;
        }
        if table.compare_exchange::<Claim<P>>(&mut server.seat, place, PUBLISHED, CLAIMED)
            != PUBLISHED
        {
            return None;
        }
        table.fetch_and::<Signal>(&mut server.seat, WAITING, !(1 << place));
        let letter = table.exchange(&mut server.seat, place, None);
        let Some(Letter::Request(request)) = letter else {
            unreachable!()
        };
        server.seat.turn();
        server.places.push(place as u8);
        Some(request)
    }

    /// Answers the first of the claims, and tells its place. Who waits there is still to be woken, by `ring`.
    pub fn answer(&self, server: &mut Server<A, B, K>, reply: B) -> usize
        requires own { IsServerOf self.now server.old }
        requires reply { AnswersFirst P.answers (claims server.old) reply }
        ensures own { IsServerOf self.now server.new }
        ensures rest { claims server.new ≡ drop 1 (claims server.old) }
        ensures first { places_of server.old ≡ result ∷ places_of server.new }
        ensures place { result < PLACES }
    {
        let table = &self.table.shared;
        let place = server.places.remove(0) as usize;
        let empty = table.exchange(&mut server.seat, place, Some(Letter::Reply(reply)));
        let None = empty else { unreachable!() };
        table.store::<Answer>(&mut server.seat, place, ANSWERED);
        place
    }

    /// Ends a server that owes no reply.
    pub fn leave(&self, server: Server<A, B, K>)
        requires own { IsServerOf self.now server }
        requires none { claims server ≡ [] }
    {
        let Server { seat: _, places: _ } = server;
    }
}
