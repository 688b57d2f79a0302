//! The passes that wait get their replies, one behind the other.
ghost use Rattle.std.specs.Prelude.{◌≡◌, ◌+◌, ◌<◌, Bool, List, [], ◌∷◌, All, drop, map, vec_len, None};
ghost use Rattle.command_types.specs.declared.ask.Entry.{Entry};
ghost use Rattle.cycle_lock.specs.declared.errands.Errand.{Errand};
ghost use Rattle.cycle_lock.specs.Errands.{command_of, pass_of};
ghost use Rattle.cycle_lock.specs.Home.{of_desk};
ghost use Rattle.cycle_lock.specs.Kept.{IsDesk};
ghost use Rattle.cycle_lock.specs.Passes.{lock_of};
ghost use Rattle.cycle_lock.specs.declared.rule.Stage.TheVariants.{HasTurn};
ghost use Rattle.cycle_lock.specs.Turn.{IsAhead, IsFirst};
ghost use Rattle.publication_list.specs.Tokens.{IsServerOf, claims};

use super::Turns;
use super::steps::SeatOf;
use crate::errands::{Clerk, Done, Places};
use crate::home::Home;
use crate::plays::Next;
use command_types::Desk;
use publication_list::PLACES;
use std::marker::Brand;

// Rings at each of these places, a bit each.
pub(super) fn ring_all(list: &Places, served: u64) {
    if served == 0 {
        return;
    }
    for place in 0..PLACES {
        if (served >> place) & 1 == 1 {
            list.ring(place);
        }
    }
}

impl<T: Desk> Turns<T> {
    // The pass whose reply is next notes it, and gets it.
    fn serve_next<M: Next>(
        &self,
        seat: &mut SeatOf<T>,
        home: &mut Home<T>,
        list: &Places,
        clerk: &mut Clerk,
    )
        requires own { (seat.old.table_id ≡ self.now.table.shared.table_id) × IsServerOf list.now clerk.old }
        requires guests { All (λ (e : Errand). lock_of e.pass ≡ self.now.table.shared.table_id) (claims clerk.old) }
        requires some { (0 < vec_len home.old.batch.passes) × (0 < vec_len home.old.batch.replies) }
        requires ahead { IsAhead T.history T.figures T.stopped seat.old.me home.old (map command_of (claims clerk.old)) (map pass_of (claims clerk.old)) }
        requires to { (log : List Entry) (stop : Bool) → IsFirst T.history T.figures T.stopped seat.old.me home.old (claims clerk.old) log stop → M.next log stop }
        requires from { (log : List Entry) (stop : Bool) → M.next log stop → IsFirst T.history T.figures T.stopped seat.old.me home.old (claims clerk.old) log stop }
        ensures own { (seat.new.table_id ≡ seat.old.table_id) × (seat.new.id ≡ seat.old.id) × IsServerOf list.now clerk.new }
        ensures account { seat.new.me.0.account ≡ seat.old.me.0.account }
        ensures rest { claims clerk.new ≡ drop 1 (claims clerk.old) }
        ensures ahead { IsAhead T.history T.figures T.stopped seat.new.me home.new (map command_of (claims clerk.new)) (map pass_of (claims clerk.new)) }
        ensures one { vec_len home.new.batch.passes + 1 ≡ vec_len home.old.batch.passes }
    {
        let pass = home.batch.next_pass();
        let reply = home.batch.next_reply();
        let more = reply.at - home.batch.at;
        home.batch.at = reply.at;
        let pass = self.note_guest::<M>(seat, pass, more, reply.at);
        let place = list.answer(clerk, Done { pass, reply });
        home.batch.served |= 1 << place;
    }

    // The next pass gets its reply, and the desk is asked before where none is left.
    fn serve_one(&self, seat: &mut SeatOf<T>, home: &mut Home<T>, list: &Places, clerk: &mut Clerk)
        requires own { (seat.old.table_id ≡ self.now.table.shared.table_id) × IsServerOf list.now clerk.old }
        requires guests { All (λ (e : Errand). lock_of e.pass ≡ self.now.table.shared.table_id) (claims clerk.old) }
        requires some { 0 < vec_len home.old.batch.passes }
        requires ahead { IsAhead T.history T.figures T.stopped seat.old.me home.old (map command_of (claims clerk.old)) (map pass_of (claims clerk.old)) }
        ensures own { (seat.new.table_id ≡ seat.old.table_id) × (seat.new.id ≡ seat.old.id) × IsServerOf list.now clerk.new }
        ensures account { seat.new.me.0.account ≡ seat.old.me.0.account }
        ensures guests { All (λ (e : Errand). lock_of e.pass ≡ self.now.table.shared.table_id) (claims clerk.new) }
        ensures ahead { IsAhead T.history T.figures T.stopped seat.new.me home.new (map command_of (claims clerk.new)) (map pass_of (claims clerk.new)) }
        ensures one { vec_len home.new.batch.passes + 1 ≡ vec_len home.old.batch.passes }
    {
        ring_all(list, home.batch.to_ring());
        home.ready();
        self.serve_next::<Brand>(seat, home, list, clerk);
    }

    // All passes that wait get their replies.
    pub(super) fn serve_all(
        &self,
        seat: &mut SeatOf<T>,
        home: &mut Home<T>,
        list: &Places,
        clerk: &mut Clerk,
    )
        requires own { (seat.old.table_id ≡ self.now.table.shared.table_id) × IsServerOf list.now clerk.old }
        requires guests { All (λ (e : Errand). lock_of e.pass ≡ self.now.table.shared.table_id) (claims clerk.old) }
        requires ahead { IsAhead T.history T.figures T.stopped seat.old.me home.old (map command_of (claims clerk.old)) (map pass_of (claims clerk.old)) }
        ensures own { (seat.new.table_id ≡ seat.old.table_id) × (seat.new.id ≡ seat.old.id) × IsServerOf list.now clerk.new }
        ensures account { seat.new.me.0.account ≡ seat.old.me.0.account }
        ensures none { claims clerk.new ≡ [] }
        ensures slot { (seat.new.me.0.stage ≡ HasTurn) × (seat.new.me.1 ≡ (0, None) ∷ []) }
        ensures desk { IsDesk (of_desk T.history) (of_desk T.figures) (of_desk T.stopped) seat.new.me.0.known seat.new.me.0.halted seat.new.me.0.account.figures home.new }
    {
        while !home.batch.passes.is_empty() {
            self.serve_one(seat, home, list, clerk);
        }
    }
}
