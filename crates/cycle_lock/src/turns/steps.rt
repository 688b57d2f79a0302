//! One turn, step by step.
ghost use Rattle.std.specs.Prelude.{◌≡◌, ◌<◌, ◌≤◌, false, [], ◌∷◌, Some, None};
ghost use Rattle.cycle_lock.specs.declared.rule.Stage.TheVariants.{Resting, HasTurn, Passed};
ghost use Rattle.cycle_lock.specs.Line.{bell};
ghost use Rattle.cycle_lock.specs.Home.{of_desk};
ghost use Rattle.cycle_lock.specs.declared.home.Home.{Home};
ghost use Rattle.cycle_lock.specs.Plays.{Took, noted, HasBecome};
ghost use Rattle.cycle_lock.specs.Turn.{HoldsDesk};
ghost use Rattle.cycle_lock.specs.Views.{resting};
ghost use Rattle.cycle_lock.specs.declared.rule.TheConstants.{WORDS};

use super::Turns;
use crate::home::Home;
use crate::plays::{Draw, Look, LookBehind, Note, Outcome, PassOn, Ring};
use crate::rule::{View, WORDS};
use atomic_table::Seat;
use command_types::Desk;
use publication_list::PLACES;
use std::hint::spin_loop;
use std::sync::Wait;
use std::time::Duration;

pub(super) type SeatOf<T> = Seat<Option<Home<T>>, View>;

// How many looks a seat takes, for a free lock or for its ticket, before it sleeps.
pub(super) const LOOKS: u32 = 200;

// How often a seat sleeps for a moment where the lock is not free, before it draws a ticket all the same.
const PAUSES: u32 = 20;

const PAUSE_MICROS: u64 = 50;

// The bell of a ticket.
fn bell_of(ticket: u64) -> usize
    ensures is { result ≡ bell ticket }
    ensures lies { (4 ≤ result) × (result < WORDS) }
{
    4 + (ticket % (WORDS as u64 - 4)) as usize
}

impl<T: Desk> Turns<T> {
    // Whether each ticket that was drawn has been served.
    pub(super) fn looks_free(&self) -> bool {
        self.table.shared.peek(1) == self.table.shared.peek(2)
    }

    // The same, looking for a little while.
    pub(super) fn is_free(&self) -> bool {
        for _ in 0..LOOKS {
            if self.looks_free() {
                return true;
            }
            spin_loop();
        }
        false
    }

    // Stands back while others have tickets. Tickets are served in their order, so that each that is drawn behind a seat
    // that sleeps waits for that seat to wake.
    pub(super) fn stand_back<R: Wait>(&self, rt: &R) {
        for _ in 0..PAUSES {
            if self.is_free() {
                return;
            }
            let number = self.table.shared.peek(3);
            self.table.shared.park_timeout(
                rt,
                3,
                (number % (1 << 32)) as u32,
                Duration::from_micros(PAUSE_MICROS),
            );
        }
    }

    // Looks at the ticket that is served until it is this one, but not for long: most turns are short.
    fn watch(&self, ticket: u64) {
        for _ in 0..LOOKS {
            if self.table.shared.peek(2) == ticket {
                return;
            }
            spin_loop();
        }
    }

    // Draws a ticket, and waits until it is served. Then the seat has the slot.
    pub(super) fn enter<R: Wait>(&self, rt: &R, seat: &mut SeatOf<T>)
        requires own { seat.old.table_id ≡ self.now.table.shared.table_id }
        requires resting { (seat.old.me.0.stage ≡ Resting) × (seat.old.me.0.account.spent ≡ false) }
        ensures own { (seat.new.table_id ≡ seat.old.table_id) × (seat.new.id ≡ seat.old.id) }
        ensures same { seat.new.me.0.account ≡ seat.old.me.0.account }
        ensures took { Took (of_desk T.history) (of_desk T.figures) (of_desk T.stopped) seat.old.me.1 seat.new.me }
    {
        let ticket = self.table.shared.fetch_add::<Draw>(seat, 1, 1);
        let bell = bell_of(ticket);
        for _ in rt.forever() {
            self.watch(ticket);
            // A bell that rings behind this look is no longer what the seat sleeps on, so no ringing is missed.
            let rung = self.table.shared.peek(bell);
            let served = self.table.shared.load::<Look<T>>(seat, 2);
            if served == ticket {
                return;
            }
            self.table.shared.park(rt, bell, (rung % (1 << 32)) as u32);
        }
        unreachable!()
    }

    // The turn is over: it is passed on, and the seat of the next ticket is woken.
    pub(super) fn pass_on(&self, seat: &mut SeatOf<T>)
        requires own { seat.old.table_id ≡ self.now.table.shared.table_id }
        requires turn { (seat.old.me.0.stage ≡ HasTurn) × (seat.old.me.0.account.spent ≡ false) }
        requires home { HoldsDesk T.history T.figures T.stopped seat.old.me }
        ensures own { (seat.new.table_id ≡ seat.old.table_id) × (seat.new.id ≡ seat.old.id) }
        ensures rests { seat.new.me ≡ (resting seat.old.me.0.account, []) }
    {
        let ticket = self.table.shared.fetch_add::<PassOn>(seat, 2, 1);
        self.wake(seat, ticket.wrapping_add(1));
    }

    // Wakes the seat of the next ticket, if that was drawn. Who draws it behind this look finds it served. Where it was not drawn, one
    // of those at places is woken: who leaves a call there behind this look finds the lock free.
    fn wake(&self, seat: &mut SeatOf<T>, next: u64)
        requires own { seat.old.table_id ≡ self.now.table.shared.table_id }
        requires passed { (seat.old.me.0.stage ≡ Passed) × (seat.old.me.0.ticket ≡ next) }
        ensures own { (seat.new.table_id ≡ seat.old.table_id) × (seat.new.id ≡ seat.old.id) }
        ensures rests { seat.new.me ≡ (resting seat.old.me.0.account, seat.old.me.1) }
    {
        if self.table.shared.load::<LookBehind>(seat, 1) != next {
            let bell = bell_of(next);
            self.table.shared.fetch_add::<Ring>(seat, bell, 1);
            self.table.shared.wake_all(bell);
        } else {
            self.ring_one();
        }
    }

    // Wakes one of those whose calls wait at places, if there are any, so that it leads a turn.
    pub(super) fn ring_one(&self) {
        let Some(list) = &self.places else {
            return;
        };
        let waiting = list.waiting();
        if waiting == 0 {
            return;
        }
        for place in 0..PLACES {
            if (waiting >> place) & 1 == 1 {
                list.ring(place);
                return;
            }
        }
    }

    // The desk leaves the slot.
    pub(super) fn take_out(&self, seat: &mut SeatOf<T>) -> Home<T>
        requires own { seat.old.table_id ≡ self.now.table.shared.table_id }
        requires took { (d : Home T) × (seat.old.me.1 ≡ (0, Some d) ∷ []) }
        ensures own { (seat.new.table_id ≡ seat.old.table_id) × (seat.new.id ≡ seat.old.id) }
        ensures seat { seat.new.me ≡ (seat.old.me.0, (0, None) ∷ []) }
        ensures desk { seat.old.me.1 ≡ (0, Some result) ∷ [] }
    {
        match self.table.shared.exchange(seat, 0, None) {
            Some(home) => home,
            None => unreachable!(),
        }
    }

    // The history's length follows the desk in the slot, which has so many entries more, and what the desk has become is seen.
    pub(super) fn note<M: Outcome>(&self, seat: &mut SeatOf<T>, more: u64)
        requires own { seat.old.table_id ≡ self.now.table.shared.table_id }
        requires turn { seat.old.me.0.stage ≡ HasTurn }
        requires desk { HasBecome (of_desk T.history) (of_desk T.stopped) seat.old.me more M.log M.stop }
        ensures own { (seat.new.table_id ≡ seat.old.table_id) × (seat.new.id ≡ seat.old.id) }
        ensures noted { noted M.log M.stop seat.old.me seat.new.me }
    {
        if more > 0 {
            self.table.shared.fetch_add::<Note<M>>(seat, 0, more);
        } else {
            self.table.shared.load::<Note<M>>(seat, 0);
        }
    }
}
