//! A desk without a journal: a machine, and the list of its changes.

ghost use Rattle.std.specs.Prelude.{◌≡◌, ◌<◌, [], ◌∷◌, ◌++◌, All, IfOk, OnOk, OnErr, unwrap_or, vec_len, vec_capacity};
ghost use Rattle.command_types.specs.Machine.{answer_to, state_after};
ghost use Rattle.network_laws.specs.Solutions.{IsSolution};
ghost use Rattle.command_types.specs.History.{solutions_posted};
ghost use Rattle.cycle_states.specs.Decision.{MayCommit};
ghost use Rattle.cycle_states.specs.Machine.{IsYoung};

use crate::machine::{Decision, Machine, Ready};
use crate::offers::{Places, filled, is_begin, open_ask};
use command_types::{Answer, Ask, Desk, Entry, Refusal, Reply};
use std::alloc::{AllocError, Global};
use std::marker::Model;
use std::snapshot::Snapshot;

// The reply where no memory is to be had.
fn no_memory(at: u64) -> Reply
    ensures { result ≡ record { at = at; answer = Answer.No Refusal.Memory } }
{
    Reply {
        at,
        answer: Answer::No(Refusal::Memory),
    }
}

// The reply with this answer; one that would need an entry finds no memory, since entries have no bytes here.
fn told(answer: Option<Answer>, at: u64) -> Reply
    ensures { result ≡ record { at = at; answer = unwrap_or answer (Answer.No Refusal.Memory) } }
{
    match answer {
        Some(answer) => Reply { at, answer },
        None => no_memory(at),
    }
}

// Makes room for one more entry.
fn make_room(entries: &mut Vec<Entry>) -> Result<(), AllocError>
    ensures items { entries.new.items ≡ entries.old.items }
    ensures room { OnOk result (vec_len entries.new < vec_capacity entries.new) }
{
    entries.reserve(1)?;
    Ok(())
}

// Makes a change that is ready, and puts it last. Nothing changes where no memory is to be had.
fn record(
    machine: &mut Machine,
    entries: &mut Vec<Entry>,
    ready: Ready,
) -> Result<Answer, AllocError>
    requires ready { MayCommit machine.old ready }
    requires young { IsYoung machine.old.state.cycle }
    ensures answer { IfOk result (λ answer. answer ≡ answer_to machine.old.state ready.entry.ask) }
    ensures state { OnOk result (machine.new.state ≡ state_after machine.old.state ready.entry.ask) }
    ensures entries { OnOk result (entries.new.items ≡ entries.old.items ++ ready.entry ∷ []) }
    ensures solutions { OnOk result (All IsSolution (solutions_posted ready.entry.ask.what)) }
    ensures same_state { OnErr result (machine.new.state ≡ machine.old.state) }
    ensures same_entries { OnErr result (entries.new.items ≡ entries.old.items) }
{
    make_room(entries)?;
    let (entry, answer) = machine.commit(ready);
    entries.push_reserved(entry);
    Ok(answer)
}

/// A machine, and its accepted changes. It has no journal, and is never stopped.
#[derive(Drop)]
pub struct PlainDesk {
    machine: Machine,
    entries: Vec<Entry>,
    // The length of the history behind the last BEGIN; 0 where there is none.
    begun_at: u64,
    // The machine as it was before the first entry, for contracts alone.
    first: Snapshot<Machine>,
}

impl Model for PlainDesk {
    ghost use Rattle.command_types.specs.History.{History};
    ghost use Rattle.cycle_states.specs.PlainDesk.{IsPlain};
    ghost use Rattle.cycle_states.specs.Replayed.{history_from};

    ghost Value = { History };

    ghost view = { λ desk. history_from 0 desk.first.value.state desk.entries.items };

    ghost invariant = { λ desk. IsPlain desk.machine.state desk.begun_at (history_from 0 desk.first.value.state desk.entries.items) };
}

impl PlainDesk {
    ghost use Rattle.command_types.specs.Machine.{empty_state};
    ghost use Rattle.command_types.specs.History.{new_history};

    /// A desk before the first command. It takes no memory.
    pub fn new(alloc: Global, machine: Machine) -> PlainDesk
        requires { machine.state ≡ empty_state machine.state.roster }
        ensures { result ≡ new_history machine.state }
    {
        PlainDesk {
            first: Snapshot::of(&machine),
            machine,
            entries: Vec::new(alloc),
            begun_at: 0,
        }
    }
}

impl PlainDesk {
    ghost use Rattle.cycle_states.specs.Offers.{ArePlaces};

    // Where the history begins and ends, and where its last version began.
    fn places(&self) -> Places
        ensures { ArePlaces self.now.base self.now.entries result }
    {
        Places {
            base: 0,
            end: self.entries.len() as u64,
            begun: self.begun_at,
        }
    }
}

impl Desk for PlainDesk {
    ghost use Rattle.std.specs.Prelude.{false};
    ghost use Rattle.cycle_states.specs.PlainDesk.{plain_figures};

    ghost history = { λ desk. desk };

    ghost figures = { plain_figures };

    ghost stopped = { λ _. false };

    fn ask(&mut self, seat: u32, ask: Ask) -> Reply {
        let at = self.entries.len() as u64;
        let asked = open_ask(&ask.what);
        let begins = is_begin(&ask.what);
        let ready = match self.machine.decide(Entry { seat, ask }) {
            Err(_) => return no_memory(at),
            Ok(Decision::Told(answer)) => return told(filled(answer, asked, self.places()), at),
            Ok(Decision::Ready(ready)) => ready,
        };
        let answer = match record(&mut self.machine, &mut self.entries, ready) {
            Ok(answer) => answer,
            Err(_) => return no_memory(at),
        };
        if begins {
            self.begun_at = at + 1;
        }
        Reply { at: at + 1, answer }
    }

    fn ask_all(&mut self, commands: &mut [Entry], replies: &mut Vec<Reply>) {
        replies.clear();
        let Entry { seat, ask } = commands[0].take();
        let reply = self.ask(seat, ask);
        replies.push_reserved(reply);
    }

    fn length(&self) -> u64 {
        // A roster's members say that it keeps its limits.
        let _members = self.machine.roster().members();
        self.entries.len() as u64
    }
}
