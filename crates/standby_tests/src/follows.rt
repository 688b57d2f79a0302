//! A standby over a peer in memory: how it ends, and what it has then.
ghost use Rattle.std.specs.Prelude.{IsTrue};
ghost use Rattle.units_core.specs.Name.{is_name};

use crate::houses::{crashed, disk_below, house_on, is_found, large_disk_of, named};
use command_types::{Ask, Entry, Moment, What};
use outside::{Disk, MemoryDisk};
use standby::{FollowEnd, MemoryPeer, follow_over};
use std::alloc::{AllocError, Global};
use std::collections::VecDeque;
use std::process::Abort;
use std::test::Fail;
use units_core::{Amount, Day};

// A change by a party, from seat 3, of noon on 2026-03-31.
fn change(by: &[u8], what: What) -> Entry
    requires { IsTrue (is_name by.now) }
{
    let by = Some(named(by));
    Entry {
        seat: 3,
        ask: Ask {
            by,
            what,
            moment: Moment::new(1_774_958_400),
        },
    }
}

// A trade of 10 from A to B, and its affirmation by this party.
fn two_entries(rt: &impl Abort, alloc: Global, by: &[u8]) -> Result<VecDeque<Entry>, AllocError>
    requires { IsTrue (is_name by.now) }
{
    let what = What::Trade {
        seller: named(b"A"),
        buyer: named(b"B"),
        product: named(b"P"),
        amount: Amount::new(10).expect(rt, "an amount"),
        day: Day::read(b"2026-03-02").expect(rt, "a day"),
    };
    let mut entries = VecDeque::new(alloc);
    entries.push_back(change(b"A", what))?;
    entries.push_back(change(by, What::Affirm { trade: 1 }))?;
    Ok(entries)
}

/// Whether a standby on an empty disk, whose call with this number fails if it is not 0, takes of two entries so many, ends so, and
/// finds them again after a crash with this gross.
fn follows(
    rt: &impl Abort,
    alloc: Global,
    entries: VecDeque<Entry>,
    call: u64,
    found: (FollowEnd, u64, u64),
) -> Result<bool, Fail> {
    let mut disk = large_disk_of(alloc, b"")?;
    if call != 0 {
        disk.fail_at(call)?;
    }
    let mut house = house_on(rt, alloc, disk)?;
    if house.is_stopped() {
        return Err(Fail::new("the house is stopped"));
    }
    let mut peer: MemoryPeer<MemoryDisk> = MemoryPeer::new(alloc, entries);
    let (end, length, gross) = found;
    let is_ended = follow_over(&mut house, &mut peer, &mut (), &mut ()) == end;
    let is_long = house.length() == length;
    let is_stopped = house.is_stopped() == (end == FollowEnd::DiskFault);
    let is_kept = is_found(rt, alloc, crashed(disk_below(house)), length, gross)?;
    Ok(is_ended && is_long && is_stopped && is_kept)
}

// B affirms, which A can't do for itself.
#[test]
fn a_standby_takes_what_its_machine_accepts(rt: HostRuntime) -> Result<(), Fail> {
    let alloc = rt.alloc();
    let both = two_entries(&rt, alloc, b"B")?;
    assert!(rt; follows(&rt, alloc, both, 0, (FollowEnd::Caught, 2, 10))?);
    let one = two_entries(&rt, alloc, b"A")?;
    assert!(rt; follows(&rt, alloc, one, 0, (FollowEnd::Broken { at: 0 }, 1, 0))?);
    let none = VecDeque::new(alloc);
    assert!(rt; follows(&rt, alloc, none, 0, (FollowEnd::Caught, 0, 0))?);
    Ok(())
}

// Opening takes ten calls of the disk, and each entry four.
#[test]
fn a_fault_of_its_disk_stops_it(rt: HostRuntime) -> Result<(), Fail> {
    let alloc = rt.alloc();
    for (call, length) in [(11, 0), (13, 0), (15, 1), (18, 1)] {
        let both = two_entries(&rt, alloc, b"B")?;
        let found = (FollowEnd::DiskFault, length, 0);
        assert!(rt; follows(&rt, alloc, both, call, found)?, "call {call}");
    }
    Ok(())
}

// The disk of a standby that took these entries, all that its peer has.
fn disk_behind(
    rt: &impl Abort,
    alloc: Global,
    entries: VecDeque<Entry>,
) -> Result<MemoryDisk, Fail> {
    let mut house = house_on(rt, alloc, large_disk_of(alloc, b"")?)?;
    if house.is_stopped() {
        return Err(Fail::new("the house is stopped"));
    }
    let mut peer: MemoryPeer<MemoryDisk> = MemoryPeer::new(alloc, entries);
    let end = follow_over(&mut house, &mut peer, &mut (), &mut ());
    let disk = disk_below(house);
    if end != FollowEnd::Caught {
        return Err(Fail::new("it ended otherwise"));
    }
    Ok(disk)
}

// Slots and turn have 43 bytes, the records with their frames 38 and 28. The first record begins at byte 47.
#[test]
fn an_entry_is_kept_with_its_moment(rt: HostRuntime) -> Result<(), Fail> {
    let alloc = rt.alloc();
    let entries = two_entries(&rt, alloc, b"B")?;
    let mut disk = disk_behind(&rt, alloc, entries)?;
    let mut moment = [0; 8];
    let is_read = disk.read(47, &mut moment)? == 8;
    assert!(rt; is_read && u64::from_le_bytes(moment) == 1_774_958_400 && disk.length()? == 109);
    Ok(())
}
