//! A peer over a source and a sink.
ghost use Rattle.std.specs.Prelude.{◌≡◌, [], ◌∷◌, ◌++◌, None, false, IfOk, OnOk, OnErr, Err};
ghost use Rattle.outside.specs.Faults.{CountsFault};
ghost use Rattle.outside.specs.Flow.{Takes, TakesFront};
ghost use Rattle.standby_wire.specs.Replies.{IsFor};
ghost use Rattle.standby_wire.specs.Replied.{Hears, IsHearing, IsSameSource};
ghost use Rattle.standby_wire.specs.declared.reply.Question.TheVariants.{Next, Again};
ghost use Rattle.standby.specs.Ending.{is_cut_after};
ghost use Rattle.standby.specs.Sent.{IsOfChange};
ghost use Rattle.standby_link.specs.Written.{line_text};
ghost use Rattle.standby_link.specs.Compared.{IsAgain};
ghost use Rattle.standby_link.specs.Wire.{IsWire, heard_by, start_of, wire_by};
ghost use Rattle.standby_link.specs.Wired.{IsToldBy};

use crate::comparing::Own;
use crate::login::Login;
use house::House;
use outside::{Disk, Failed, Sink, Source};
use standby::{Heard, Outcome, Peer, Said, SayFault, Shown, note_said};
use standby_wire::{Hearing, Question, Reply, WaitFault, write_bye, write_hello, write_next};
use std::alloc::Global;
use std::marker::Model;
use std::snapshot::Snapshot;

/// The other end of a link that is greeted, over a source and a sink. Contracts see what was said and heard since, and what the link
/// was then.
#[derive(Drop)]
pub(crate) struct Wire<D: Disk, S: Source, K: Sink> {
    login: Login,
    hearing: Hearing<S>,
    cut: bool,
    said: Vec<Shown<D>>,
    last: Option<Outcome>,
    // What was heard when the link was greeted, and source and sink then, for contracts alone.
    first: Snapshot<Hearing<S>>,
    first_source: Snapshot<S>,
    first_sink: Snapshot<K>,
}

impl<D: Disk, S: Source, K: Sink> Model for Wire<D, S, K> {
    ghost use Rattle.standby_link.specs.Wire.{WireParts};
    ghost use Rattle.standby_link.specs.Wired.{parts_of};

    ghost Value = { WireParts };

    ghost view = { λ w. parts_of w.login w.first.value (S.flow w.first_source.value) (S.faults w.first_source.value) (K.taken w.first_sink.value) (K.faults w.first_sink.value)
        w.said.items w.cut w.hearing w.last };
}

// Writes the text of a line; where that fails, a front of it.
fn write<K: Sink>(sink: &mut K, login: &Login, line: Said) -> Result<(), Failed>
    ensures takes { OnOk result (Takes (K.taken sink.old) (K.taken sink.new) (line_text login.now line)) }
    ensures front { OnErr result (TakesFront (K.taken sink.old) (K.taken sink.new) (line_text login.now line)) }
    ensures counts { CountsFault result (K.faults sink.old) (K.faults sink.new) }
{
    match line {
        Said::Hello => write_hello(sink, &login.name, &login.key),
        Said::Next { position } => write_next(sink, position),
        Said::Bye => write_bye(sink),
    }
}

// What a wait for the reply to a NEXT of this position, which was due at an offset, tells.
fn told(position: u64, due: u64, answer: Result<Reply, WaitFault>) -> Result<Heard, Failed>
    requires { IfOk answer (λ reply. IsFor reply (Next position)) }
    ensures change { IfOk result IsOfChange }
    ensures tells { IsToldBy position due answer result }
{
    match answer {
        Ok(Reply::Entry(entry)) => Ok(Heard::Entry {
            due,
            position: position.saturating_add(1),
            entry,
        }),
        Ok(Reply::Nothing) => Ok(Heard::Nothing),
        Ok(Reply::Refused { number }) => Ok(Heard::Refused { number }),
        Ok(Reply::Greeted | Reply::Same) => unreachable!(),
        Err(WaitFault::Broken { at }) => Ok(Heard::Broken { at }),
        Err(WaitFault::SourceFault) => Err(Failed),
        Err(WaitFault::Memory) => Ok(Heard::Memory),
    }
}

impl<D: Disk, S: Source, K: Sink> Wire<D, S, K> {
    /// A link that is greeted, over which nothing was said since. It takes no memory.
    pub(crate) fn new(
        alloc: Global,
        login: Login,
        hearing: Hearing<S>,
        source: &S,
        sink: &K,
    ) -> Wire<D, S, K>
        ensures start { result.start ≡ start_of login hearing (S.flow source.now) (S.faults source.now) (K.taken sink.now) (K.faults sink.now) }
        ensures said { result.said ≡ [] }
        ensures cut { result.cut ≡ false }
        ensures hearing { result.heard ≡ hearing }
        ensures last { result.last ≡ None }
    {
        Wire {
            login,
            first: Snapshot::of(&hearing),
            first_source: Snapshot::of(source),
            first_sink: Snapshot::of(sink),
            hearing,
            cut: false,
            said: Vec::new(alloc),
            last: None,
        }
    }

    /// How its standby begins.
    pub(crate) fn login(&self) -> Login
        ensures { result ≡ self.now.start.login }
    {
        self.login
    }

    /// Says a line as `say` of `Peer` does. What was heard stays as it is.
    pub(crate) fn tell(
        &mut self,
        sink: &mut K,
        house: &House<D>,
        line: Said,
    ) -> Result<(), SayFault>
        ensures says { OnOk result (self.new.said ≡ self.old.said ++ record { house = house.now; line = line } ∷ []) }
        ensures says_in_part { result ≡ Err SayFault.Failed → self.new.said ≡ self.old.said ++ record { house = house.now; line = line } ∷ [] }
        ensures unsaid { result ≡ Err SayFault.Memory → self.new.said ≡ self.old.said }
        ensures cuts { self.new.cut ≡ is_cut_after (self.old.cut) result }
        ensures stays { self.new ≡ record self.old { said = self.new.said; cut = self.new.cut } }
        ensures holds { let seen = wire_by S.Source K.Sink in (source : S) → IsWire (seen self.old source sink.old) → IsWire (seen self.new source sink.new) }
    {
        if note_said(&mut self.said, house, line).is_err() {
            return Err(SayFault::Memory);
        }
        if self.cut {
            return Err(SayFault::Failed);
        }
        if write(sink, &self.login, line).is_err() {
            self.cut = true;
            return Err(SayFault::Failed);
        }
        Ok(())
    }

    /// Waits for the reply to the question for an entry again. What was said stays as it is.
    pub(crate) fn ask_again(&mut self, source: &mut S, own: Own) -> Result<Reply, WaitFault>
        ensures hears { let seen = heard_by S.Source in Hears (Again own.position own.bytes) (seen self.old.heard source.old) (seen self.new.heard source.new) result }
        ensures fits { IfOk result IsAgain }
        ensures same { let seen = heard_by S.Source in IsSameSource (seen self.old.heard source.old) (seen self.new.heard source.new) }
        ensures heard { let seen = heard_by S.Source in IsHearing (seen self.old.heard source.old) → IsHearing (seen self.new.heard source.new) }
        ensures stays { self.new ≡ record self.old { heard = self.new.heard } }
    {
        let Own { position, bytes } = own;
        self.hearing
            .ask(source, &Question::Again { position, bytes })
    }
}

impl<D: Disk, S: Source, K: Sink> Peer<D, S, K> for Wire<D, S, K> {
    ghost use Rattle.standby_link.specs.Read.{offers_of};
    ghost use Rattle.standby_link.specs.Wire.{WireStart, IsWire, wire_over};

    ghost said = { λ w. w.said };

    ghost heard = { λ w. offers_of w.heard.replied };

    ghost last = { λ w. w.last };

    ghost cut = { λ w. w.cut };

    ghost Start = { WireStart };

    ghost start = { λ w. w.start };

    ghost Holds = { λ w source sink. IsWire (wire_over w (S.flow source) (S.faults source) (K.taken sink) (K.faults sink)) };

    fn say(&mut self, sink: &mut K, house: &House<D>, line: Said) -> Result<(), SayFault> {
        self.tell(sink, house, line)
    }

    fn hear(&mut self, source: &mut S, position: u64) -> Result<Heard, Failed> {
        let due = self.hearing.due();
        let answer = self.hearing.ask(source, &Question::Next { position });
        let came = told(position, due, answer);
        self.last = Some(Outcome::of(position, &came));
        came
    }
}
