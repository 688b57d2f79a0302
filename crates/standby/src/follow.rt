//! A standby asks for one entry after another, and keeps each before it asks for the next.
ghost use Rattle.std.specs.Prelude.{◌≡◌, ◌≢◌, ◌+◌, ◌<◌, ◌^◌, [], IsTrue, IfSome, IfNone, is_none, not, Some, true, false};
ghost use Rattle.command_types.specs.History.{end_of};
ghost use Rattle.command_types.specs.Machine.{changes, is_refusal};
ghost use Rattle.house.specs.House.{is_stopped};
ghost use Rattle.house.specs.Calling.{is_disk_fault};
ghost use Rattle.standby.specs.Following.{FollowsTo, TakesEntry, EndsSo, SaysSo, IsSayEnd, tells_disk_fault, is_whole};
ghost use Rattle.standby.specs.Ending.{SaysLines, EndsBy, Tells, Declines, is_cut_by};

use crate::peer::{Heard, Peer, Said, SayFault};
use command_types::{Answer, Entry, Refusal};
use house::House;
use outside::Disk;

/// How following ended.
#[derive(Clone, Copy, Debug, PartialEq, Eq)]
pub enum FollowEnd {
    /// The standby has all that the peer has.
    Caught,
    /// The peer refused, with this number.
    Refused { number: u8 },
    /// From this offset of the input on there is no reply that may stand there.
    Broken { at: u64 },
    /// The standby's journal, which has `size` bytes, has no room for the entry.
    Full { size: u64 },
    /// No reply could be read.
    SourceFault,
    /// A line could not be written whole.
    SinkFault,
    /// The disk failed, which stopped the house.
    DiskFault,
    /// There was no memory.
    Memory,
}

// Why an entry that was due at an offset was not taken, if it was not.
fn untaken(due: u64, answer: &Answer) -> Option<FollowEnd>
    ensures made { is_none result ≡ not (is_refusal answer.now) }
    ensures fault { tells_disk_fault result ≡ is_disk_fault answer.now }
    ensures caught { is_whole result ≡ true → is_none result ≢ false }
    ensures tells { IfSome result (Tells due answer.now) }
{
    match answer {
        Answer::No(Refusal::JournalFull { size }) => Some(FollowEnd::Full { size: *size }),
        Answer::No(Refusal::DiskFault) => Some(FollowEnd::DiskFault),
        Answer::No(Refusal::Memory) => Some(FollowEnd::Memory),
        Answer::No(_) => Some(FollowEnd::Broken { at: due }),
        _ => None,
    }
}

// Has the house make the change of an entry that was due at an offset. Where it does not, it tells why.
fn take<D: Disk>(house: &mut House<D>, due: u64, entry: Entry) -> Option<FollowEnd>
    requires change { IsTrue (changes entry.ask.what) }
    ensures takes { TakesEntry house.old house.new entry result }
    ensures declines { IfSome result (Declines house.old house.new due entry) }
    ensures short { end_of house.new.history < 2 ^ 63 }
{
    let Entry { seat, ask } = entry;
    let reply = house.call(seat, ask);
    untaken(due, &reply.answer)
}

// Says a line. Where it was not said whole, it tells why.
fn say<D: Disk, S, K, P: Peer<D, S, K>>(
    house: &House<D>,
    peer: &mut P,
    sink: &mut K,
    line: Said,
) -> Option<FollowEnd>
    ensures says { SaysSo house.now line (P.said peer.old) (P.said peer.new) result }
    ensures why { IsSayEnd result }
    ensures hears { P.heard peer.new ≡ P.heard peer.old }
    ensures cuts { P.cut peer.new ≡ is_cut_by (P.cut peer.old) result }
    ensures stays { (P.last peer.new ≡ P.last peer.old) × (P.start peer.new ≡ P.start peer.old) }
    ensures holds { (source : S) → P.Holds peer.old source sink.old → P.Holds peer.new source sink.new }
{
    match peer.say(sink, house, line) {
        Ok(()) => None,
        Err(SayFault::Failed) => Some(FollowEnd::SinkFault),
        Err(SayFault::Memory) => Some(FollowEnd::Memory),
    }
}

// Asks for the next entry, and takes it. Where it does not, it tells why.
fn turn<D: Disk, S, K, P: Peer<D, S, K>>(
    house: &mut House<D>,
    peer: &mut P,
    source: &mut S,
    sink: &mut K,
) -> Option<FollowEnd>
    requires runs { house.old.kept ≡ [] }
    ensures follows { FollowsTo house.old house.new (P.said peer.old) (P.said peer.new) (P.heard peer.old) (P.heard peer.new) result }
    ensures ends { EndsSo house.old house.new result }
    ensures lines { SaysLines house.old house.new (P.said peer.old) (P.said peer.new) result }
    ensures because { IfSome result (EndsBy house.new (P.last peer.new)) }
    ensures cuts { P.cut peer.new ≡ is_cut_by (P.cut peer.old) result }
    ensures stays { P.start peer.new ≡ P.start peer.old }
    ensures holds { P.Holds peer.old source.old sink.old → P.Holds peer.new source.new sink.new }
    ensures goes_on { IfNone result ((house.new.kept ≡ []) × (end_of house.new.history ≡ end_of house.old.history + 1)) }
    ensures short { end_of house.new.history < 2 ^ 63 }
{
    let position = house.length();
    match say(house, peer, sink, Said::Next { position }) {
        None => {}
        Some(end) => return Some(end),
    }
    match peer.hear(source, position) {
        Err(_) => Some(FollowEnd::SourceFault),
        Ok(
            Heard::Entry {
                due,
                position: at,
                entry,
            },
        ) => {
            if at != position + 1 {
                return Some(FollowEnd::Broken { at: due });
            }
            take(house, due, entry)
        }
        Ok(Heard::Nothing) => match say(house, peer, sink, Said::Bye) {
            None => Some(FollowEnd::Caught),
            Some(end) => Some(end),
        },
        Ok(Heard::Refused { number }) => Some(FollowEnd::Refused { number }),
        Ok(Heard::Broken { at }) => Some(FollowEnd::Broken { at }),
        Ok(Heard::Memory) => Some(FollowEnd::Memory),
    }
}

/// Asks for one entry after another, from the end of the house's history on, and makes the change of each before it asks for the
/// next; it goes on until there is none, and then says goodbye. Where it ends otherwise, the entries taken so far stay. A fault of
/// the disk is told exactly where it stopped the house. `FollowsTo` has what was said, heard and taken, and what a crash left at
/// each moment since each line was said; `SaysLines` has the lines in their order, and `EndsBy` why it ended.
pub fn follow_over<D: Disk, S, K, P: Peer<D, S, K>>(
    house: &mut House<D>,
    peer: &mut P,
    source: &mut S,
    sink: &mut K,
) -> FollowEnd
    requires runs { is_stopped house.old ≡ false }
    ensures follows { FollowsTo house.old house.new (P.said peer.old) (P.said peer.new) (P.heard peer.old) (P.heard peer.new) (Some result) }
    ensures ends { EndsSo house.old house.new (Some result) }
    ensures lines { SaysLines house.old house.new (P.said peer.old) (P.said peer.new) (Some result) }
    ensures because { EndsBy house.new (P.last peer.new) result }
    ensures cuts { P.cut peer.new ≡ is_cut_by (P.cut peer.old) (Some result) }
    ensures stays { P.start peer.new ≡ P.start peer.old }
    ensures holds { P.Holds peer.old source.old sink.old → P.Holds peer.new source.new sink.new }
    ensures short { end_of house.new.history < 2 ^ 63 }
{
    // What a house keeps, of which its length tells.
    let _length = house.length();
    loop {
        match turn(house, peer, source, sink) {
            None => {}
            Some(end) => return end,
        }
    }
}
