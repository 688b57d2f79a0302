//! Calls of several commands, whose changes share an append.
ghost use Rattle.std.specs.Prelude.{◌≡◌, ◌≤◌, ◌<◌, ◌+◌, ◌-◌, ◌^◌, [], ◌∷◌, ◌++◌, length, take, drop, vec_len, vec_capacity, true, false, All, IfSome, IfNone};
ghost use Rattle.command_types.specs.declared.answer.Answer.TheVariants.{No};
ghost use Rattle.command_types.specs.declared.desk.TheConstants.{MOST_TOGETHER};
ghost use Rattle.command_types.specs.declared.refusal.Refusal.TheVariants.{DiskFault};
ghost use Rattle.cycle_states.specs.Machine.{IsYoung};
ghost use Rattle.cycle_states.specs.Undo.{goes_back};
ghost use Rattle.house.specs.Batch.{empty_batch, FitsJournal, is_shared};
ghost use Rattle.house.specs.CallingAll.{IsAskedAlone};
ghost use Rattle.house.specs.Front.{before_more, IsBegun, IsFront};
ghost use Rattle.house.specs.Step.{AreToldAfterFault, GoesOn, HasRecordRoom, IsStep, IsToldAfterFault};

use crate::House;
use crate::batch::Batch;
use crate::calling::refused;
use crate::chronicle::Chronicle;
use crate::sharing::shared;
use command_types::{Entry, MOST_TOGETHER, Refusal, Reply};
use cycle_states::{Decision, Machine};
use outside::Disk;
use record_codec::length as record_length;

// Asks the machine a command behind the changes of a batch, and makes its change in memory. Nothing is told where it is a change that
// can't be taken back: that is to be asked in a call of its own.
fn step(
    machine: &mut Machine,
    past: &mut Chronicle,
    batch: &mut Batch,
    command: Entry,
) -> Option<Reply>
    requires young { IsYoung machine.old.state.cycle }
    requires few { length batch.old.entries < MOST_TOGETHER }
    requires undos { length batch.old.undos ≡ length batch.old.entries }
    requires records { length batch.old.records ≡ length batch.old.entries }
    requires fits { FitsJournal batch.old }
    requires short { batch.old.at < 2 ^ 63 }
    requires room { HasRecordRoom batch.old past.old }
    ensures told { IfSome result (IsStep machine.old.state machine.new.state batch.old batch.new command) }
    ensures apart { IfNone result (goes_back machine.old.state command.ask.what ≡ false) }
    ensures same { IfNone result ((machine.new.state ≡ machine.old.state) × (batch.new ≡ batch.old)) }
    ensures goes_on { GoesOn batch.old batch.new past.old past.new }
{
    let at = batch.end();
    let ready = match machine.decide(command) {
        Err(_) => return Some(refused(at, Refusal::Memory)),
        Ok(Decision::Told(answer)) => return Some(Reply { at, answer }),
        Ok(Decision::Ready(ready)) => ready,
    };
    if !batch.fits(record_length(ready.entry())) {
        let size = batch.size();
        return Some(refused(at, Refusal::JournalFull { size }));
    }
    let undo = match machine.undo_of(&ready) {
        Some(undo) => undo,
        None => return None,
    };
    if let Err(_) = batch.write(past, ready.entry()) {
        return Some(refused(at, Refusal::Memory));
    }
    let (entry, answer) = machine.commit(ready);
    batch.push(entry, undo);
    Some(Reply { at: at + 1, answer })
}

// How many commands stand before the first change of a batch, or at all where it has none, where one more was answered.
fn before_first(batch: &Batch, before: usize) -> usize
    requires { before < 2 ^ 63 }
    ensures { result ≡ before_more before batch.now.entries }
{
    if batch.any() { before } else { before + 1 }
}

// Answers the front of these commands that may stand together, and makes its changes in memory. It tells how many were answered
// before the first change, if there is one, else how many were.
fn make_front(
    machine: &mut Machine,
    past: &mut Chronicle,
    batch: &mut Batch,
    commands: &[Entry],
    replies: &mut Vec<Reply>,
) -> usize
    requires empty { batch.old ≡ empty_batch batch.old.at batch.old.size }
    requires begun { IsBegun machine.old.state batch.old.at batch.old.size }
    requires short { batch.old.at < 2 ^ 63 }
    requires few { length commands.now ≤ MOST_TOGETHER }
    requires none { replies.old.items ≡ [] }
    requires room { length commands.now ≤ vec_capacity replies.old }
    ensures front { IsFront machine.old.state machine.new.state batch.new result (take (vec_len replies.new) commands.now) replies.new.items }
    ensures stops { IsAskedAlone machine.new.state (drop (vec_len replies.new) commands.now) }
    ensures within { vec_len replies.new ≤ length commands.now }
    ensures capacity { vec_capacity replies.new ≡ vec_capacity replies.old }
    ensures goes_on { GoesOn batch.old batch.new past.old past.new }
{
    let mut first = 0;
    for asked in commands {
        let Some(command) = shared(asked) else {
            return first;
        };
        match step(machine, past, batch, command) {
            Some(reply) => replies.push_reserved(reply),
            None => return first,
        }
        first = before_first(batch, first);
    }
    first
}

// Asks the machine a command after the disk failed on the changes of a batch, which were taken back.
fn ask_again(machine: &mut Machine, batch: &Batch, command: Entry) -> Reply
    requires young { IsYoung machine.old.state.cycle }
    requires empty { batch.now.records ≡ [] }
    ensures state { machine.new.state ≡ machine.old.state }
    ensures told { IsToldAfterFault machine.old.state batch.now.size batch.now.at command result }
{
    let at = batch.at();
    match machine.decide(command) {
        Err(_) => refused(at, Refusal::Memory),
        Ok(Decision::Told(answer)) => Reply { at, answer },
        Ok(Decision::Ready(ready)) => {
            if batch.fits(record_length(ready.entry())) {
                refused(at, Refusal::Stopped { at })
            } else {
                let size = batch.size();
                refused(at, Refusal::JournalFull { size })
            }
        }
    }
}

// Answers commands again after the disk failed on the changes of a batch, which were taken back.
fn ask_all_again(machine: &mut Machine, batch: &Batch, commands: &[Entry], replies: &mut Vec<Reply>)
    requires shared { All (λ command. is_shared command.ask.what ≡ true) commands.now }
    requires young { IsYoung machine.old.state.cycle }
    requires empty { batch.now.records ≡ [] }
    requires room { vec_len replies.old + length commands.now ≤ vec_capacity replies.old }
    ensures state { machine.new.state ≡ machine.old.state }
    ensures told { AreToldAfterFault machine.old.state batch.now.size batch.now.at commands.now (drop (length replies.old.items) replies.new.items) }
    ensures same { take (length replies.old.items) replies.new.items ≡ replies.old.items }
    ensures len { vec_len replies.new ≡ vec_len replies.old + length commands.now }
    ensures capacity { vec_capacity replies.new ≡ vec_capacity replies.old }
{
    for asked in commands {
        let Some(command) = shared(asked) else {
            unreachable!()
        };
        replies.push_reserved(ask_again(machine, batch, command));
    }
}

// The commands from one place to another.
fn part(commands: &[Entry], from: usize, to: usize) -> &[Entry]
    requires ordered { from ≤ to }
    requires within { to ≤ length commands.now }
    ensures { result.now ≡ drop from (take to commands.now) }
{
    &commands[from..to]
}

impl<D: Disk> House<D> {
    ghost use Rattle.command_types.specs.History.{end_of, longer, replayed};
    ghost use Rattle.house.specs.CallingAll.{tried, CallsAll};
    ghost use Rattle.house.specs.House.{is_stopped};

    /// Answers the front of these commands that may stand together, each as the machine does behind the one before it, and puts their
    /// changes on the disk at once. Where the disk fails, none of them is made: the house is stopped and keeps them, and each command
    /// is answered from the history before the call. The first of them is told the fault, and a later change that the machine accepts
    /// there is told 26. The replies take the place of those before. The first command that is not answered is of a kind that is asked
    /// alone, or an END that ends: `call` is for these.
    pub fn call_all(&mut self, commands: &[Entry], replies: &mut Vec<Reply>)
        requires runs { is_stopped self.old ≡ false }
        requires few { length commands.now ≤ MOST_TOGETHER }
        requires room { length commands.now ≤ vec_capacity replies.old }
        ensures calls { CallsAll self.old self.new (take (vec_len replies.new) commands.now) replies.new.items }
        ensures stops { IsAskedAlone (replayed (longer self.old.history (tried self.old self.new))) (drop (vec_len replies.new) commands.now) }
        ensures within { vec_len replies.new ≤ length commands.now }
        ensures capacity { vec_capacity replies.new ≡ vec_capacity replies.old }
        ensures short { end_of self.new.history < 2 ^ 63 }
    {
        replies.clear();
        self.batch.begin(self.past.length(), self.journal.bytes());
        let first = make_front(
            &mut self.machine,
            &mut self.past,
            &mut self.batch,
            commands,
            replies,
        );
        if !self.batch.any() {
            return;
        }
        match self.journal.append_all(self.batch.frames()) {
            Ok(()) => {
                self.batch.put_into(&mut self.past);
                self.batch.begin(0, 0);
            }
            Err(_) => {
                self.batch.take_back(&mut self.machine);
                let behind = first + 1;
                let rest = part(commands, behind, replies.len());
                replies.truncate(first);
                replies.push_reserved(refused(self.batch.at(), Refusal::DiskFault));
                ask_all_again(&mut self.machine, &self.batch, rest, replies);
            }
        }
    }

    // The same of a house that runs; one that a fault stopped answers none of them.
    pub(crate) fn call_front(&mut self, commands: &[Entry], replies: &mut Vec<Reply>)
        requires few { length commands.now ≤ MOST_TOGETHER }
        requires room { length commands.now ≤ vec_capacity replies.old }
        ensures calls { CallsAll self.old self.new (take (vec_len replies.new) commands.now) replies.new.items }
        ensures stops { is_stopped self.old ≡ false → IsAskedAlone (replayed (longer self.old.history (tried self.old self.new))) (drop (vec_len replies.new) commands.now) }
        ensures within { vec_len replies.new ≤ length commands.now }
        ensures capacity { vec_capacity replies.new ≡ vec_capacity replies.old }
        ensures short { end_of self.new.history < 2 ^ 63 }
    {
        if self.is_stopped() {
            let _end = self.length();
            replies.clear();
            return;
        }
        self.call_all(commands, replies);
    }
}
