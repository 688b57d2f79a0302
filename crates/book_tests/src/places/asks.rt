//! A list whose replies double their requests, and its two sides.
ghost use Rattle.std.specs.Prelude.{◌≡◌, ◌<◌, ◌≤◌, ◌*◌, Some, IfSome};
ghost use Rattle.publication_list.specs.declared.rule.TheConstants.{PLACES};
ghost use Rattle.publication_list.specs.Tokens.{IsPublishedIn, IsServerOf, key_of, claims};

use arrayvec::ArrayVec;
use publication_list::{PLACES, PublicationList, Published, Server, Service};
use std::sync::Wait;

/// A reply is its request's double.
pub struct Doubling;

impl Service<u32, u64, u32> for Doubling {
    ghost use Rattle.std.specs.Prelude.{◌≡◌, ◌*◌, ◌≤◌};

    ghost fits = { λ most request. request ≤ most };

    ghost answers = { λ request reply. reply ≡ 2 * request };
}

pub type List = PublicationList<u32, u64, u32, Doubling>;

/// Publishes a request, and sleeps until somebody has answered it. None tells that the place was taken.
pub fn ask<R: Wait>(rt: &R, list: &List, place: usize, request: u32) -> Option<u64>
    requires lies { place < PLACES }
    requires fits { request ≤ key_of list.now }
    ensures { IfSome result (λ reply. reply ≡ 2 * request) }
{
    let mut published = list.publish(place, request).ok()?;
    for _ in rt.forever() {
        let rung = list.bell(&published);
        match list.collect(published) {
            Ok(reply) => return Some(reply),
            Err(waits) => published = waits,
        }
        list.wait(rt, &published, rung);
    }
    unreachable!()
}

/// Takes the request back, or waits for its reply and tells that.
pub fn take_back<R: Wait>(
    rt: &R,
    list: &List,
    mut published: Published<u32, u64, u32>,
) -> Option<u64>
    requires { IsPublishedIn list.now published }
{
    for _ in rt.forever() {
        match list.withdraw(published) {
            Ok(_) => return None,
            Err(waits) => published = waits,
        }
        match list.collect(published) {
            Ok(reply) => return Some(reply),
            Err(waits) => published = waits,
        }
    }
    unreachable!()
}

/// Whether nothing more can be published at the place.
pub fn is_taken<R: Wait>(rt: &R, list: &List, place: usize) -> bool
    requires lies { place < PLACES }
    requires fits { 7 ≤ key_of list.now }
{
    match list.publish(place, 7) {
        Ok(published) => {
            take_back(rt, list, published);
            false
        }
        Err(request) => request == 7,
    }
}

/// A server, beside the requests that it has claimed.
pub struct Hand {
    server: Server<u32, u64, u32>,
    requests: ArrayVec<u32, PLACES>,
    ghost same: { claims server ≡ requests.items },
}

impl Hand {
    pub fn new(list: &List) -> Hand
        ensures { IsServerOf list.now result.server }
    {
        Hand {
            server: list.server(),
            requests: ArrayVec::new(),
        }
    }

    /// Claims the request that waits at the place, and tells whether one does.
    pub fn claim(&mut self, list: &List, place: usize) -> bool
        requires lies { place < PLACES }
        requires own { IsServerOf list.now self.old.server }
        ensures own { IsServerOf list.now self.new.server }
    {
        if self.requests.is_full() {
            return false;
        }
        match list.claim(&mut self.server, place) {
            Some(request) => {
                self.requests.push(request);
                true
            }
            None => false,
        }
    }

    /// Answers all, in the order of the claims, and tells their places as bits.
    pub fn answer_all(self, list: &List) -> u64
        requires { IsServerOf list.now self.server }
    {
        let Hand {
            mut server,
            mut requests,
        } = self;
        let mut served = 0u64;
        while !requests.is_empty() {
            let request = requests.remove(0);
            served |= 1 << list.answer(&mut server, 2 * request as u64);
        }
        list.leave(server);
        served
    }
}
