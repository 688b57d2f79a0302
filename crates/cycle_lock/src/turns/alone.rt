//! A call in a turn of its own.
ghost use Rattle.cycle_lock.specs.Errands.{IsCalled};
ghost use Rattle.cycle_lock.specs.Passes.{IsPassOf};

use super::Turns;
use super::steps::SeatOf;
use crate::pass::Pass;
use atomic_table::Badge;
use command_types::{Ask, Desk, Reply};
use std::marker::Brand;
use std::mem;
use std::sync::Wait;

impl<T: Desk> Turns<T> {
    // Waits for its turn, and asks the desk in it.
    pub(super) fn call_alone<R: Wait>(&self, rt: &R, pass: &mut Pass, ask: Ask) -> Reply
        requires own { IsPassOf self.now pass.old }
        ensures called { IsCalled pass.old ask pass.new result }
    {
        let mut seat: SeatOf<T> = mem::replace(&mut pass.badge, Badge::blank()).into_seat();
        self.stand_back(rt);
        self.enter(rt, &mut seat);
        let Some(home) = seat.slot_mut(&self.table.shared, 0) else {
            unreachable!()
        };
        let before = home.length();
        let reply = home.ask(pass.number, ask);
        self.note::<Brand>(&mut seat, reply.at - before);
        self.pass_on(&mut seat);
        pass.badge = seat.into_badge();
        pass.at = reply.at;
        reply
    }
}
