//! The list of places: both sides in one thread, and threads that ask while another serves.

mod asks;
mod threads;

ghost use Rattle.std.specs.Prelude.{◌≤◌};
ghost use Rattle.publication_list.specs.Tokens.{key_of};

use asks::{Hand, List, is_taken, take_back};
use std::alloc::{AllocError, Global};
use std::sync::Wait;
use std::test::Fail;

// Whether a request at place 3 and one at place 40 are claimed and answered so, in one thread.
fn both_sides<R: Wait>(rt: &R, list: &List) -> bool
    requires { 100 ≤ key_of list.now }
{
    let Ok(first) = list.publish(3, 20) else {
        return false;
    };
    let Ok(second) = list.publish(40, 1) else {
        take_back(rt, list, first);
        return false;
    };
    let taken = list.waiting() == (1 << 3) + (1 << 40) && is_taken(rt, list, 3);
    let mut hand = Hand::new(list);
    let claimed = hand.claim(list, 40) && hand.claim(list, 3);
    let gone = list.waiting() == 0 && !hand.claim(list, 3) && !hand.claim(list, 5);
    let early = list.is_answered(&first);
    let places = hand.answer_all(list);
    let told = places == (1 << 3) + (1 << 40) && list.is_answered(&first) && is_taken(rt, list, 40);
    let replies = (take_back(rt, list, first), take_back(rt, list, second));
    taken
        && claimed
        && gone
        && !early
        && told
        && replies == (Some(40), Some(2))
        && !is_taken(rt, list, 3)
}

#[test]
fn a_request_is_claimed_once_and_answered(rt: HostRuntime) -> Result<(), Fail> {
    let list = List::new(rt.alloc(), &100)?;
    assert!(rt; both_sides(&rt, &list) && both_sides(&rt, &list));
    Ok(())
}

#[test]
fn what_waits_is_taken_back(rt: HostRuntime) -> Result<(), Fail> {
    let list = List::new(rt.alloc(), &100)?;
    assert!(rt; !is_taken(&rt, &list, 0) && !is_taken(&rt, &list, 63) && list.waiting() == 0);
    Ok(())
}

#[test]
fn threads_are_answered(rt: HostRuntime) -> Result<(), Fail> {
    for (askers, requests) in [(1, 2000), (8, 500), (63, 50)] {
        assert!(rt; threads::all_answered(&rt, rt.alloc(), askers, requests)?);
    }
    Ok(())
}
