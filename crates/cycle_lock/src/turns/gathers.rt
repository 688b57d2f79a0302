//! Who waits is claimed.
ghost use Rattle.std.specs.Prelude.{◌≡◌, ◌<◌};
ghost use Rattle.cycle_lock.specs.Passes.{lock_of};
ghost use Rattle.cycle_lock.specs.Turn.{Gathers};
ghost use Rattle.publication_list.specs.declared.rule.TheConstants.{PLACES};
ghost use Rattle.publication_list.specs.Tokens.{IsServerOf, claims, key_of};

use crate::errands::{Clerk, Places};
use crate::home::Batch;
use publication_list::PLACES;

// Claims who waits at this place, if there is room for one more in this turn.
fn claim(list: &Places, clerk: &mut Clerk, batch: &mut Batch, place: usize)
    requires lies { place < PLACES }
    requires own { IsServerOf list.now clerk.old }
    ensures own { IsServerOf list.now clerk.new }
    ensures gathers { Gathers (lock_of (key_of list.now).value) batch.old batch.new (claims clerk.old) (claims clerk.new) }
{
    if batch.has_room() {
        if let Some(errand) = list.claim(clerk, place) {
            batch.add(errand);
        }
    }
}

// The same, where the place's bit tells that somebody may wait there.
fn claim_if(list: &Places, clerk: &mut Clerk, batch: &mut Batch, waiting: u64, place: usize)
    requires lies { place < PLACES }
    requires own { IsServerOf list.now clerk.old }
    ensures own { IsServerOf list.now clerk.new }
    ensures gathers { Gathers (lock_of (key_of list.now).value) batch.old batch.new (claims clerk.old) (claims clerk.new) }
{
    if (waiting >> place) & 1 == 0 {
        return;
    }
    claim(list, clerk, batch, place);
}

// Claims all who wait.
pub(super) fn claim_all(list: &Places, clerk: &mut Clerk, batch: &mut Batch)
    requires own { IsServerOf list.now clerk.old }
    ensures own { IsServerOf list.now clerk.new }
    ensures gathers { Gathers (lock_of (key_of list.now).value) batch.old batch.new (claims clerk.old) (claims clerk.new) }
{
    let waiting = list.waiting();
    for place in 0..PLACES {
        claim_if(list, clerk, batch, waiting, place);
    }
}
