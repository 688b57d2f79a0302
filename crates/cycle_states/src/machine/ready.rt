//! A change that the machine is ready to make.

ghost use Rattle.std.specs.Prelude.{◌≡◌};

use super::ballot::Ballot;
use super::effect::Effect;
use command_types::{Answer, Entry};
use std::marker::Model;

/// What a change is answered, what it does, and the ballot once it is made.
#[derive(Drop)]
pub(super) struct Made {
    pub(super) answer: Answer,
    pub(super) effect: Effect,
    pub(super) ballot: Ballot,
}

/// An accepted change for which the machine has room, what it is answered, what it does, and the ballot once it is made.
#[derive(Drop)]
pub struct Ready {
    entry: Entry,
    answer: Answer,
    effect: Effect,
    ballot: Ballot,
}

impl Model for Ready {
    ghost use Rattle.cycle_states.specs.Ready.{ReadyView};

    ghost Value = { ReadyView };

    ghost view = { λ ready. record { entry = ready.entry; answer = ready.answer; effect = ready.effect; ballot = ready.ballot } };
}

impl Ready {
    /// Of this change, of what it is answered, of what it does, and of the ballot then. The machine has made the room.
    pub(super) fn new(entry: Entry, made: Made) -> Ready
        ensures { result ≡ record { entry = entry; answer = made.answer; effect = made.effect; ballot = made.ballot } }
    {
        Ready {
            entry,
            answer: made.answer,
            effect: made.effect,
            ballot: made.ballot,
        }
    }

    /// The change. It takes no memory.
    pub fn entry(&self) -> &Entry
        ensures { result.now ≡ self.now.entry }
    {
        &self.entry
    }

    /// What it does.
    pub(super) fn effect(&self) -> &Effect
        ensures { result.now ≡ self.now.effect }
    {
        &self.effect
    }

    /// The change, given back. It takes no memory.
    pub fn into_entry(self) -> Entry
        ensures { result ≡ self.entry }
    {
        self.entry
    }

    /// The change, what it is answered, what it does, and the ballot then, given back.
    pub(super) fn into_parts(self) -> (Entry, Answer, Effect, Ballot)
        ensures entry { result.0 ≡ self.entry }
        ensures answer { result.1 ≡ self.answer }
        ensures effect { result.2 ≡ self.effect }
        ensures ballot { result.3 ≡ self.ballot }
    {
        (self.entry, self.answer, self.effect, self.ballot)
    }
}
