//! A standby's last entry, and whether its primary has the same.
ghost use Rattle.std.specs.Prelude.{◌≡◌, None, IfOk};
ghost use Rattle.standby_link.specs.Asked.{WireGoes};
ghost use Rattle.standby_link.specs.Compared.{Compares, IsAgain, IsSaidAgain, IsToldLast, end_asked, last_in};
ghost use Rattle.standby_link.specs.Wire.{IsWire, wire_by};

use crate::wire::Wire;
use command_types::{Answer, Ask, Listed, Moment, Refusal, What};
use house::House;
use outside::{Disk, Sink, Source};
use standby::{FollowEnd, Said, SayFault};
use standby_wire::{Reply, WaitFault};
use units_core::Name;

/// The number of the refusal of a position below the base of the primary's history.
pub(crate) const GONE: u8 = 31;

/// An entry of a house: its bytes, and the position before it.
#[derive(Drop)]
pub(crate) struct Own {
    pub(crate) position: u64,
    pub(crate) bytes: Listed<u8>,
}

/// What a house tells of its last entry.
#[derive(Drop)]
pub(crate) enum Last {
    /// It is this one.
    Entry(Own),
    /// There is none behind the base, or the party is not told it.
    Nothing,
    /// There was no memory for it.
    Memory,
}

// What a house's answer to a NEXT of this position tells.
fn last_in(position: u64, answer: Answer) -> Last
    ensures { result ≡ last_in position answer }
{
    match answer {
        Answer::EntryBytes { position: _, bytes } => Last::Entry(Own { position, bytes }),
        Answer::No(Refusal::Memory) => Last::Memory,
        _ => Last::Nothing,
    }
}

// The last entry of a house, as this party is told it.
fn last_of<D: Disk>(house: &mut House<D>, name: Name) -> Last
    ensures same { house.new ≡ house.old }
    ensures last { IsToldLast house.old name result }
{
    let length = house.length();
    if length == 0 {
        return Last::Nothing;
    }
    let position = length - 1;
    let ask = Ask {
        by: Some(name),
        what: What::Next { position },
        moment: Moment::new(0),
    };
    let reply = house.call(0, ask);
    last_in(position, reply.answer)
}

// Why following ends by the reply to the question for the last entry, if it does.
fn end_asked(reply: Result<Reply, WaitFault>) -> Option<FollowEnd>
    requires { IfOk reply IsAgain }
    ensures { result ≡ end_asked reply }
{
    match reply {
        Ok(Reply::Same) => None,
        Ok(Reply::Refused { number }) if number == GONE => None,
        Ok(Reply::Refused { number }) => Some(FollowEnd::Refused { number }),
        Ok(_) => unreachable!(),
        Err(WaitFault::Broken { at }) => Some(FollowEnd::Broken { at }),
        Err(WaitFault::SourceFault) => Some(FollowEnd::SourceFault),
        Err(WaitFault::Memory) => Some(FollowEnd::Memory),
    }
}

// Asks a primary for an entry of the house again. Where following is to end, it tells why.
fn ask_again<D: Disk, S: Source, K: Sink>(
    house: &House<D>,
    own: Own,
    wire: &mut Wire<D, S, K>,
    source: &mut S,
    sink: &mut K,
) -> Option<FollowEnd>
    requires fresh { wire.old.last ≡ None }
    requires is { let seen = wire_by S.Source K.Sink in IsWire (seen wire.old source.old sink.old) }
    ensures asks { let seen = wire_by S.Source K.Sink in
        WireGoes (IsSaidAgain house.now own.position own.bytes) (seen wire.old source.old sink.old) (seen wire.new source.new sink.new) result }
{
    let position = own.position;
    match wire.tell(sink, house, Said::Next { position }) {
        Ok(()) => {}
        Err(SayFault::Failed) => return Some(FollowEnd::SinkFault),
        Err(SayFault::Memory) => return Some(FollowEnd::Memory),
    }
    end_asked(wire.ask_again(source, own))
}

/// Asks a primary for the house's last entry again, if there is one and its standby compares. Where following is to end, it tells why.
pub(crate) fn compare<D: Disk, S: Source, K: Sink>(
    house: &mut House<D>,
    wire: &mut Wire<D, S, K>,
    source: &mut S,
    sink: &mut K,
) -> Option<FollowEnd>
    requires fresh { wire.old.last ≡ None }
    requires is { let seen = wire_by S.Source K.Sink in IsWire (seen wire.old source.old sink.old) }
    ensures same { house.new ≡ house.old }
    ensures compares { let seen = wire_by S.Source K.Sink in
        WireGoes (Compares wire.old.start.login house.old) (seen wire.old source.old sink.old) (seen wire.new source.new sink.new) result }
{
    let login = wire.login();
    if !login.compare {
        return None;
    }
    match last_of(house, login.name) {
        Last::Entry(own) => ask_again(house, own, wire, source, sink),
        Last::Nothing => None,
        Last::Memory => Some(FollowEnd::Memory),
    }
}
