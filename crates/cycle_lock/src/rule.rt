//! What a seat at the table knows, and the rule that every step keeps. Word 0 of the table is the history's length,
//! word 1 the next ticket, word 2 the ticket that is served, word 3 the next number. The others are bells, on which seats sleep,
//! and may be any numbers. The one slot has the desk.
//!
//! The stages of a seat, with the steps between them (`plays.rt`):
//!
//! ```text
//!     Resting --Draw, word 1--> Waiting --Look, word 2 is its ticket--> HasTurn --PassOn, word 2--> Passed
//!        ^                                                                 |                          |
//!        |                                         the desk is asked, and then Note, word 0           |
//!        +------ LookBehind, word 1, where nobody drew the next ticket; else Ring, its bell ----------+
//!
//!     HasTurn --TakeIn, a pass comes in--> Serving --NoteGuest, word 0--> Serving --LetOut, it goes out--> HasTurn
//!
//!     Resting --Number, word 3--> Drawn --Cut, a seat is split off--> Resting
//!     Resting --Host, a seat is taken in--> Joined --Settle, word 0--> Resting
//! ```
//!
//! `call` goes the first way (`turns/calls.rt`, `steps.rt`), and the second for each pass that it serves (`turns/guests.rt`), `split`
//! and `join` the others (`turns/shares.rt`). The rule says nothing of a desk that is out of the slot: it may be ahead of what the seat
//! knows, until all that it answered is noted.

use crate::home::Home;
use atomic_table::TableRule;
use command_types::{Desk, Entry, Figures};
use std::collections::LinkedList;
use std::marker::PhantomData;
use std::snapshot::Snapshot;

/// How many words the table has. With no more passes than bells, each seat that waits has a bell of its own.
pub const WORDS: usize = 68;

/// How far a seat has come.
pub enum Stage {
    /// It is between two calls.
    Resting,
    /// It has a ticket.
    Waiting,
    /// Its ticket is served, and it has the slot.
    HasTurn,
    /// It has the turn, and has taken in a pass for which it calls.
    Serving,
    /// It has passed its turn on, and has still to ring the bell of the ticket that it knows, or to see that nobody drew it.
    Passed,
    /// The first of the numbers that it stands for is still to be given.
    Drawn,
    /// It has taken in another pass.
    Joined,
}

/// What a pass has seen. No value of it is made.
pub struct Account {
    pub number: u32,
    /// The numbers whose entries are its own.
    pub stands: LinkedList<u32>,
    /// How many passes it may still split off.
    pub left: u64,
    pub spent: bool,
    pub seen: LinkedList<Entry>,
    pub stop: bool,
    pub figures: Figures,
}

/// What a seat knows. No value of it is made.
pub struct View {
    pub stage: Stage,
    pub ticket: u64,
    pub known: LinkedList<Entry>,
    pub halted: bool,
    pub account: Account,
    pub guest: Account,
}

/// The rule of the table.
pub struct TurnRule<T> {
    desk: PhantomData<T>,
}

impl<T: Desk> TableRule<Option<Home<T>>, View, Snapshot<T>> for TurnRule<T> {
    ghost use Rattle.cycle_lock.specs.Home.{of_desk};
    ghost use Rattle.cycle_lock.specs.Kept.{Kept};
    ghost use Rattle.cycle_lock.specs.Views.{newcomer};

    ghost holds = { λ key. Kept (of_desk T.history) (of_desk T.figures) (of_desk T.stopped) (T.figures key.value) };

    ghost first = { λ key. newcomer (T.history key.value).entries (T.stopped key.value) (T.figures key.value) };
}
