//! A standby over a source and a sink.
ghost use Rattle.std.specs.Prelude.{◌≡◌, ◌≤◌, [], Some, false};
ghost use Rattle.house.specs.House.{figures_of, is_stopped};
ghost use Rattle.standby.specs.Following.{EndsSo};
ghost use Rattle.standby_wire.specs.Replied.{hearing_over, IsHearing};
ghost use Rattle.standby_link.specs.Followed.{streams_by, Greets, IsGreeting, FollowsOver, IsCounted};

use crate::comparing::compare;
use crate::login::Login;
use crate::wire::Wire;
use house::House;
use outside::{Disk, Sink, Source};
use standby::{FollowEnd, follow_over};
use standby_wire::{Hearing, Question, Reply, WaitFault, write_hello};
use std::alloc::Global;

// Greets a primary, from which nothing was heard. Where it does not greet back, it tells why.
fn greet<S: Source, K: Sink>(
    login: &Login,
    hearing: &mut Hearing<S>,
    source: &mut S,
    sink: &mut K,
) -> Option<FollowEnd>
    requires fresh { hearing.old.replied ≡ [] }
    requires front { hearing.old.pending.due ≡ 0 }
    requires counted { hearing.old.first_faults ≡ S.faults source.old }
    ensures greets { Greets login.now (K.taken sink.old) (K.taken sink.new) result }
    ensures why { IsGreeting login.now (hearing_over hearing.new (S.flow source.new) (S.faults source.new)) (K.faults sink.old) (K.faults sink.new) result }
    ensures same { (hearing.new.first ≡ hearing.old.first) × (hearing.new.first_faults ≡ hearing.old.first_faults) }
    ensures heard { IsHearing (hearing_over hearing.old (S.flow source.old) (S.faults source.old)) → IsHearing (hearing_over hearing.new (S.flow source.new) (S.faults source.new)) }
    ensures never_falls { K.faults sink.old ≤ K.faults sink.new }
{
    if write_hello(sink, &login.name, &login.key).is_err() {
        return Some(FollowEnd::SinkFault);
    }
    let name = login.name;
    match hearing.ask(source, &Question::Hello { name }) {
        Ok(Reply::Greeted) => None,
        Ok(Reply::Refused { number }) => Some(FollowEnd::Refused { number }),
        Ok(_) => unreachable!(),
        Err(WaitFault::Broken { at }) => Some(FollowEnd::Broken { at }),
        Err(WaitFault::SourceFault) => Some(FollowEnd::SourceFault),
        Err(WaitFault::Memory) => Some(FollowEnd::Memory),
    }
}

/// Greets a primary with a name and a key, and follows it over a source and a sink as `follow_over` does. Where it is to compare, it
/// first asks for its last entry again, if it has one behind its base: where the primary has another one there, or none, that is a
/// reply that may not stand there; where the primary has only entries behind it, nothing is compared.
pub fn follow<D: Disk, S: Source, K: Sink>(
    alloc: Global,
    house: &mut House<D>,
    login: Login,
    source: &mut S,
    sink: &mut K,
) -> FollowEnd
    requires runs { is_stopped house.old ≡ false }
    ensures follows { let told = streams_by S.Source K.Sink in FollowsOver login (told source.old sink.old) (told source.new sink.new) house.old house.new result }
    ensures counted { let told = streams_by S.Source K.Sink in IsCounted (told source.old sink.old) (told source.new sink.new) result }
    ensures ends { EndsSo house.old house.new (Some result) }
    ensures figures { figures_of house.new ≡ figures_of house.old }
{
    // What a house keeps, of which its length tells.
    let _length = house.length();
    let mut hearing = Hearing::new(alloc, source);
    match greet(&login, &mut hearing, source, sink) {
        None => {}
        Some(end) => return end,
    }
    let mut wire: Wire<D, S, K> = Wire::new(alloc, login, hearing, source, sink);
    match compare(house, &mut wire, source, sink) {
        None => {}
        Some(end) => return end,
    }
    follow_over(house, &mut wire, source, sink)
}
