//! One turn for several passes.
ghost use Rattle.std.specs.Prelude.{◌≡◌, ◌<◌, ◌≤◌, Bool, List, [], ◌∷◌, map, vec_len, Some, None, false};
ghost use Rattle.command_types.specs.declared.ask.Entry.{Entry};
ghost use Rattle.cycle_lock.specs.Accounts.{times};
ghost use Rattle.cycle_lock.specs.declared.rule.Stage.TheVariants.{HasTurn};
ghost use Rattle.cycle_lock.specs.Errands.{IsCalled, command_of, pass_of};
ghost use Rattle.cycle_lock.specs.Home.{of_desk};
ghost use Rattle.cycle_lock.specs.Passes.{IsPassOf, lock_of};
ghost use Rattle.cycle_lock.specs.Plays.{Took};
ghost use Rattle.cycle_lock.specs.Turn.{HoldsDesk, IsAhead, IsNoted, IsOwnFirst};
ghost use Rattle.publication_list.specs.Tokens.{claims, key_of};

use super::Turns;
use super::gathers::claim_all;
use super::serves::ring_all;
use super::steps::SeatOf;
use crate::errands::{Clerk, Places};
use crate::home::Home;
use crate::pass::Pass;
use crate::plays::Next;
use atomic_table::Badge;
use command_types::{Ask, Desk, Entry, Reply};
use std::marker::Brand;
use std::mem;
use std::snapshot::Snapshot;
use std::sync::Wait;

impl<T: Desk> Turns<T> {
    // The first reply is the own pass's, which notes it.
    fn note_own<M: Next>(
        &self,
        seat: &mut SeatOf<T>,
        home: &mut Home<T>,
        own: &Snapshot<Entry>,
        clerk: &Clerk,
    ) -> Reply
        requires own { seat.old.table_id ≡ self.now.table.shared.table_id }
        requires some { 0 < vec_len home.old.batch.replies }
        requires mine { (own.now.value.seat ≡ seat.old.me.0.account.number) × (1 ≤ times seat.old.me.0.account.number seat.old.me.0.account.stands) }
        requires ahead { IsAhead T.history T.figures T.stopped seat.old.me home.old (own.now.value ∷ map command_of (claims clerk.now)) (map pass_of (claims clerk.now)) }
        requires to { (log : List Entry) (stop : Bool) → IsOwnFirst T.history T.figures T.stopped seat.old.me home.old own.now.value (claims clerk.now) log stop → M.next log stop }
        requires from { (log : List Entry) (stop : Bool) → M.next log stop → IsOwnFirst T.history T.figures T.stopped seat.old.me home.old own.now.value (claims clerk.now) log stop }
        ensures own { (seat.new.table_id ≡ seat.old.table_id) × (seat.new.id ≡ seat.old.id) }
        ensures noted { IsNoted seat.old.me.0 own.now.value result seat.new.me.0.account }
        ensures ahead { IsAhead T.history T.figures T.stopped seat.new.me home.new (map command_of (claims clerk.now)) (map pass_of (claims clerk.now)) }
    {
        let reply = home.batch.next_reply();
        let more = reply.at - home.batch.at;
        home.batch.at = reply.at;
        self.keep::<M>(seat, more);
        reply
    }

    // The desk is back in its slot.
    fn put_in(&self, seat: &mut SeatOf<T>, home: Home<T>)
        requires own { seat.old.table_id ≡ self.now.table.shared.table_id }
        requires slot { seat.old.me.1 ≡ (0, None) ∷ [] }
        ensures own { (seat.new.table_id ≡ seat.old.table_id) × (seat.new.id ≡ seat.old.id) }
        ensures seat { seat.new.me ≡ (seat.old.me.0, (0, Some home) ∷ []) }
    {
        let None = self.table.shared.exchange(seat, 0, Some(home)) else {
            unreachable!()
        };
    }

    // In the seat's turn its own command is asked, and those of all who wait. It tells which places are still to be rung.
    fn lead_turn(&self, seat: &mut SeatOf<T>, list: &Places, own: Entry) -> (Reply, u64)
        requires own { (seat.old.table_id ≡ self.now.table.shared.table_id) × (lock_of (key_of list.now).value ≡ self.now.table.shared.table_id) }
        requires took { Took (of_desk T.history) (of_desk T.figures) (of_desk T.stopped) [] seat.old.me }
        requires mine { (own.seat ≡ seat.old.me.0.account.number) × (seat.old.me.0.account.spent ≡ false) }
        ensures own { (seat.new.table_id ≡ seat.old.table_id) × (seat.new.id ≡ seat.old.id) }
        ensures noted { IsNoted seat.old.me.0 own result.0 seat.new.me.0.account }
        ensures turn { seat.new.me.0.stage ≡ HasTurn }
        ensures home { HoldsDesk T.history T.figures T.stopped seat.new.me }
    {
        let mut home = self.take_out(seat);
        let at = home.desk.length();
        let what = Snapshot::of(&own);
        home.batch.begin(own, at);
        let mut clerk = list.server();
        claim_all(list, &mut clerk, &mut home.batch);
        home.batch.turn_round();
        home.refill(0);
        let reply = self.note_own::<Brand>(seat, &mut home, &what, &clerk);
        self.serve_all(seat, &mut home, list, &mut clerk);
        list.leave(clerk);
        let served = home.batch.served;
        self.put_in(seat, home);
        (reply, served)
    }

    // Waits for its turn, and asks in it for all who wait.
    pub(super) fn lead<R: Wait>(&self, rt: &R, list: &Places, pass: &mut Pass, ask: Ask) -> Reply
        requires own { IsPassOf self.now pass.old }
        requires list { lock_of (key_of list.now).value ≡ self.now.table.shared.table_id }
        ensures called { IsCalled pass.old ask pass.new result }
    {
        if list.waiting() == 0 {
            return self.call_alone(rt, pass, ask);
        }
        let mut seat: SeatOf<T> = mem::replace(&mut pass.badge, Badge::blank()).into_seat();
        self.enter(rt, &mut seat);
        let own = Entry {
            seat: pass.number,
            ask,
        };
        let (reply, served) = self.lead_turn(&mut seat, list, own);
        self.pass_on(&mut seat);
        ring_all(list, served);
        pass.badge = seat.into_badge();
        pass.at = reply.at;
        reply
    }
}
