//! What each step at the table tells. These types are for the proofs alone: no value of them is made.

use crate::home::Home;
use crate::rule::View;
use atomic_table::{Join, Play, Split};
use command_types::Desk;
use std::marker::{Brand, PhantomData};

/// A ticket is drawn.
pub struct Draw;

impl<T> Play<Option<T>, View> for Draw {
    ghost use Rattle.cycle_lock.specs.Plays.{drew};

    ghost then = { drew };
}

/// The ticket that is served is looked at. Where it is the seat's, the seat takes the slot.
pub struct Look<T> {
    desk: PhantomData<T>,
}

impl<T: Desk> Play<Option<Home<T>>, View> for Look<T> {
    ghost use Rattle.cycle_lock.specs.Home.{of_desk};
    ghost use Rattle.cycle_lock.specs.Plays.{looked};

    ghost then = { looked (of_desk T.history) (of_desk T.figures) (of_desk T.stopped) };
}

/// What the desk in hand has become. Each call picks it.
pub trait Outcome {
    ghost use Rattle.std.specs.Prelude.{Bool, List};
    ghost use Rattle.command_types.specs.declared.ask.Entry.{Entry};

    ghost log: { List Entry };

    ghost stop: { Bool };
}

impl Outcome for Brand {
    ghost use Rattle.std.specs.Prelude.{false, []};

    ghost log = { [] };

    ghost stop = { false };
}

/// The desk's history is seen, with the entry if it was recorded.
pub struct Note<M> {
    outcome: PhantomData<M>,
}

impl<T, M: Outcome> Play<Option<T>, View> for Note<M> {
    ghost use Rattle.cycle_lock.specs.Plays.{noted};

    ghost then = { λ s m n w. noted M.log M.stop m w };
}

/// Which history and which stop a pass may see next. Each call picks it.
pub trait Next {
    ghost use Rattle.std.specs.Prelude.{Bool, List};
    ghost use Rattle.command_types.specs.declared.ask.Entry.{Entry};

    ghost next: { List Entry → Bool → Type 0 };
}

impl Next for Brand {
    ghost next = { λ log stop. Unit {0} };
}

/// The seat's own pass sees what comes next.
pub struct Keep<M> {
    next: PhantomData<M>,
}

impl<T, M: Next> Play<Option<T>, View> for Keep<M> {
    ghost use Rattle.cycle_lock.specs.Plays.{kept};

    ghost then = { λ s m n w. kept M.next m w };
}

/// The pass that is served sees what comes next.
pub struct NoteGuest<M> {
    next: PhantomData<M>,
}

impl<T, M: Next> Play<Option<T>, View> for NoteGuest<M> {
    ghost use Rattle.cycle_lock.specs.Plays.{served};

    ghost then = { λ s m n w. served M.next m w };
}

/// Another pass comes in to the seat that has the turn.
pub struct TakeIn;

impl Join<View> for TakeIn {
    ghost use Rattle.cycle_lock.specs.Views.{serving, resting, blank};

    ghost both = { serving };

    ghost spent = { resting blank };
}

/// It goes out again.
pub struct LetOut;

impl Split<View> for LetOut {
    ghost use Rattle.cycle_lock.specs.Views.{by_itself, let_out};

    ghost left = { by_itself };

    ghost right = { let_out };
}

/// The turn is passed on, and the next ticket is known.
pub struct PassOn;

impl<T> Play<Option<T>, View> for PassOn {
    ghost use Rattle.cycle_lock.specs.Plays.{passed};

    ghost then = { λ s m n w. passed m n w };
}

/// Behind its turn the seat looks whether the next ticket was drawn. Where it was not, the seat rests.
pub struct LookBehind;

impl<T> Play<Option<T>, View> for LookBehind {
    ghost use Rattle.cycle_lock.specs.Plays.{looked_behind};

    ghost then = { λ s m n w. looked_behind m n w };
}

/// The bell of the next ticket rings, and the seat rests.
pub struct Ring;

impl<T> Play<Option<T>, View> for Ring {
    ghost use Rattle.cycle_lock.specs.Plays.{rang};

    ghost then = { λ s m n w. rang s m w };
}

/// A number is drawn.
pub struct Number;

impl<T> Play<Option<T>, View> for Number {
    ghost use Rattle.cycle_lock.specs.Plays.{numbered};

    ghost then = { λ s m n w. numbered m n w };
}

/// The number that was drawn goes to a new seat.
pub struct Cut;

impl Split<View> for Cut {
    ghost use Rattle.cycle_lock.specs.Views.{parent, child};

    ghost left = { parent };

    ghost right = { child };
}

/// Another seat is taken in.
pub struct Host;

impl Join<View> for Host {
    ghost use Rattle.cycle_lock.specs.Views.{hosting, resting, blank};

    ghost both = { hosting };

    ghost spent = { resting blank };
}

/// What two seats have seen is laid together.
pub struct Settle;

impl<T> Play<Option<T>, View> for Settle {
    ghost use Rattle.cycle_lock.specs.Plays.{settled};

    ghost then = { λ s m n w. settled m w };
}
