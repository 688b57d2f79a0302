//! Rings of places. Each place has one before it and one after it, so a ring has no end at which it would differ:
//! taking a place out, and putting one in, is to join others.
//!
//! ```text
//!     +--> end <--> a <--> b <--+      after end is the first, before it the last;
//!     +-------------------------+      alone, an end is before and after itself
//! ```

ghost use Rattle.std.specs.Prelude.{◌≡◌, ◌<◌, ◌^◌, length, IfOk, vec_len, vec_capacity};
ghost use Rattle.linked_rows.specs.Links.{after, before, joined, without_place, with_last_place, ends_alone};

use std::alloc::{AllocError, Global};

/// The place before one, and the place after it.
#[derive(Clone, Copy, Debug)]
pub struct Link {
    pub before: u64,
    pub after: u64,
}

/// Makes a place follow another.
pub(super) fn join(links: &mut Vec<Link>, first: u64, next: u64)
    requires first { first < length links.old.items }
    requires next { next < length links.old.items }
    ensures items { links.new.items ≡ joined links.old.items first next }
    ensures len { vec_len links.new ≡ vec_len links.old }
    ensures capacity { vec_capacity links.new ≡ vec_capacity links.old }
{
    links[first as usize].after = next;
    links[next as usize].before = first;
}

/// Takes a place out of its ring.
pub(super) fn take_out(links: &mut Vec<Link>, place: u64)
    requires place { place < length links.old.items }
    requires first { before links.old.items place < length links.old.items }
    requires next { after links.old.items place < length links.old.items }
    ensures items { links.new.items ≡ without_place links.old.items place }
    ensures len { vec_len links.new ≡ vec_len links.old }
    ensures capacity { vec_capacity links.new ≡ vec_capacity links.old }
{
    let link = links[place as usize];
    join(links, link.before, link.after);
}

/// Puts a place that is in no ring last into the ring of an end.
pub(super) fn put_last(links: &mut Vec<Link>, end: u64, place: u64)
    requires end { end < length links.old.items }
    requires place { place < length links.old.items }
    requires last { before links.old.items end < length links.old.items }
    ensures items { links.new.items ≡ with_last_place links.old.items end place }
    ensures len { vec_len links.new ≡ vec_len links.old }
    ensures capacity { vec_capacity links.new ≡ vec_capacity links.old }
{
    let last = links[end as usize].before;
    join(links, last, place);
    join(links, place, end);
}

/// So many ends, each alone in its ring.
pub(super) fn ends_alone(alloc: Global, count: u64) -> Result<Vec<Link>, AllocError>
    requires { count < 2 ^ 33 }
    ensures { IfOk result (λ links. links.items ≡ ends_alone count) }
{
    let mut links = Vec::with_capacity(alloc, count as usize)?;
    for end in 0..count {
        links.push(Link {
            before: end,
            after: end,
        })?;
    }
    Ok(links)
}
