//! A call that waits at a place, for whoever has the turn to make it.
ghost use Rattle.std.specs.Prelude.{◌≡◌, IfOk, IfErr, IfSome};
ghost use Rattle.publication_list.specs.Tokens.{key_of, asked, IsPublishedIn};
ghost use Rattle.cycle_lock.specs.Errands.{IsCalled, IsDoneFor};
ghost use Rattle.cycle_lock.specs.Passes.{IsPassOf, lock_of};

use super::Turns;
use super::steps::LOOKS;
use crate::errands::{Done, Errand, Places, Posted};
use crate::pass::Pass;
use atomic_table::Badge;
use command_types::{Ask, Desk, Reply};
use publication_list::PLACES;
use std::hint::spin_loop;
use std::mem;
use std::sync::Wait;

// How often a seat sleeps at its place, before it draws a ticket all the same.
const PATIENCE: u32 = 3;

impl<T: Desk> Turns<T> {
    // Asks the desk in a turn of its own, which others may share, or has it asked in the turn of another pass.
    pub(super) fn make<R: Wait>(&self, rt: &R, pass: &mut Pass, ask: Ask) -> Reply
        requires own { IsPassOf self.now pass.old }
        ensures called { IsCalled pass.old ask pass.new result }
    {
        let Some(list) = &self.places else {
            return self.call_alone(rt, pass, ask);
        };
        if self.is_free() {
            return self.lead(rt, list, pass, ask);
        }
        self.post(rt, list, pass, ask)
    }

    // Leaves the pass with its command at a place, and takes it back with the reply.
    fn post<R: Wait>(&self, rt: &R, list: &Places, pass: &mut Pass, ask: Ask) -> Reply
        requires own { IsPassOf self.now pass.old }
        requires list { lock_of (key_of list.now).value ≡ self.now.table.shared.table_id }
        ensures called { IsCalled pass.old ask pass.new result }
    {
        let badge = mem::replace(&mut pass.badge, Badge::blank());
        let errand = Errand {
            pass: Pass {
                badge,
                number: pass.number,
                at: pass.at,
            },
            ask,
        };
        let Done { pass: back, reply } = self.send(rt, list, errand);
        let Pass { badge, at, .. } = back;
        pass.badge = badge;
        pass.at = at;
        reply
    }

    // Waits at a place for the reply. Where the place is taken, the pass leads a turn.
    fn send<R: Wait>(&self, rt: &R, list: &Places, errand: Errand) -> Done
        requires own { IsPassOf self.now errand.pass }
        requires list { lock_of (key_of list.now).value ≡ self.now.table.shared.table_id }
        ensures called { IsCalled errand.pass errand.ask result.pass result.reply }
    {
        let place = errand.pass.number as usize % PLACES;
        match list.publish(place, errand) {
            Ok(posted) => self.await_reply(rt, list, posted),
            Err(errand) => self.carry_out(rt, list, errand),
        }
    }

    // Leads a turn for an errand that nobody has claimed.
    fn carry_out<R: Wait>(&self, rt: &R, list: &Places, errand: Errand) -> Done
        requires own { IsPassOf self.now errand.pass }
        requires list { lock_of (key_of list.now).value ≡ self.now.table.shared.table_id }
        ensures called { IsCalled errand.pass errand.ask result.pass result.reply }
    {
        let Errand { mut pass, ask } = errand;
        let reply = self.lead(rt, list, &mut pass, ask);
        Done { pass, reply }
    }

    // Waits until there is a reply, or the lock is free.
    fn await_reply<R: Wait>(&self, rt: &R, list: &Places, given: Posted) -> Done
        requires own { IsPublishedIn list.now given × IfSome (asked given) (λ errand. IsPassOf self.now errand.pass) }
        requires list { lock_of (key_of list.now).value ≡ self.now.table.shared.table_id }
        ensures done { IsDoneFor (asked given) result }
    {
        let mut posted = given;
        let mut rings = 0u32;
        for _ in rt.forever() {
            self.watch_place(list, &posted);
            // A bell that rings behind this is no longer what the seat sleeps on, so no ringing is missed.
            let rung = list.bell(&posted);
            match self.look(rt, list, posted, rings >= PATIENCE) {
                Ok(done) => return done,
                Err(back) => posted = back,
            }
            list.wait(rt, &posted, rung);
            rings = rings.wrapping_add(1);
        }
        unreachable!()
    }

    // The reply, if there is one. Where there is none, and the lock is free or the seat is tired of waiting, it leads a turn,
    // unless somebody has claimed its errand.
    fn look<R: Wait>(
        &self,
        rt: &R,
        list: &Places,
        posted: Posted,
        is_tired: bool,
    ) -> Result<Done, Posted>
        requires own { IsPublishedIn list.now posted × IfSome (asked posted) (λ errand. IsPassOf self.now errand.pass) }
        requires list { lock_of (key_of list.now).value ≡ self.now.table.shared.table_id }
        ensures done { IfOk result (λ done. IsDoneFor (asked posted) done) }
        ensures own { IfErr result (λ p. IsPublishedIn list.now p) }
        ensures waits { IfErr result (λ p. asked p ≡ asked posted) }
    {
        let posted = match list.collect(posted) {
            Ok(done) => return Ok(done),
            Err(back) => back,
        };
        if !is_tired && !self.looks_free() {
            return Err(posted);
        }
        match list.withdraw(posted) {
            Ok(errand) => Ok(self.carry_out(rt, list, errand)),
            Err(back) => Err(back),
        }
    }

    // Looks at the place until there is a reply or the lock is free, but not for long: most turns are short.
    fn watch_place(&self, list: &Places, posted: &Posted)
        requires own { IsPublishedIn list.now posted.now }
    {
        for _ in 0..LOOKS {
            if list.is_answered(posted) || self.looks_free() {
                return;
            }
            spin_loop();
        }
    }
}
