//! What opening a house finds.

use crate::disks::{BEGUN, BEGUN_ONE, BEGUN_TURNED, ONE, TURNED_TWO, TWO};
use crate::house_lives::fails_in_each;
use crate::houses::{
    answer_to, content_opened, damaged, day, large_disk_of, three_dealers, turned,
};
use house::{Executions, recover_noting};
use journal_core::JournalFault;
use std::alloc::Global;
use std::process::Abort;
use std::test::Fail;

/// Whether an opening turns a file, and leaves it so at the next.
fn is_turned(rt: &impl Abort, alloc: Global, file: &[u8]) -> Result<bool, Fail> {
    let turned = turned(alloc, file)?;
    let is_turned = content_opened(rt, alloc, file)?.as_slice() == turned.as_slice();
    let is_kept = content_opened(rt, alloc, &turned)?.as_slice() == turned.as_slice();
    Ok(is_turned && is_kept)
}

#[test]
fn a_journal_without_moments_is_turned_behind_its_own_bytes(rt: HostRuntime) -> Result<(), Fail> {
    let alloc = rt.alloc();
    for file in [BEGUN.as_slice(), &BEGUN_ONE, &ONE, &TWO] {
        assert!(rt; is_turned(&rt, alloc, file)?);
    }
    assert!(rt; content_opened(&rt, alloc, &TURNED_TWO)?.as_slice() == TURNED_TWO.as_slice());
    assert!(rt; content_opened(&rt, alloc, b"")?.as_slice() == BEGUN_TURNED.as_slice());
    Ok(())
}

#[test]
fn each_call_of_an_opening_may_fail(rt: HostRuntime) -> Result<(), Fail> {
    // The length and a read, and four calls of the turn.
    assert!(rt; fails_in_each(&rt, rt.alloc(), &ONE, 6, (1, 0))?);
    // The same, and between them the header and the slots, each a write and a sync.
    assert!(rt; fails_in_each(&rt, rt.alloc(), b"", 10, (0, 0))?);
    Ok(())
}

#[test]
fn a_journal_has_its_entries_or_its_damage(rt: HostRuntime) -> Result<(), Fail> {
    let mut closed = ONE;
    closed[38] = 7;
    let mut none = closed;
    none[8] = 7;
    let cases = [
        (b"".as_slice(), Ok(0)),
        (&ONE, Ok(1)),
        (&TWO, Ok(2)),
        (&BEGUN, Ok(0)),
        (&BEGUN_ONE, Ok(1)),
        (&BEGUN_TURNED, Ok(0)),
        (&TURNED_TWO, Ok(2)),
        (&BEGUN_ONE[..59], damaged(59)),
        (&ONE[..38], damaged(38)),
        (&ONE[..30], damaged(8)),
        (&closed, Ok(1)),
        (&none, Ok(0)),
        (&none[..30], Ok(0)),
    ];
    for (file, answer) in cases {
        assert!(rt; answer_to(&rt, rt.alloc(), file)? == answer, "{answer:?}");
    }
    Ok(())
}

/// Of a disk with these bytes and no house on it: how many changes it stands for, where their history ends, and where its
/// journal goes on; or why it stands for none.
fn recovered_of(
    rt: &impl Abort,
    alloc: Global,
    bytes: &[u8],
) -> Result<Result<[u64; 3], JournalFault>, Fail> {
    let mut disk = large_disk_of(alloc, bytes)?;
    let roster = three_dealers(alloc, day(rt, b"2031-06-30"))?;
    match recover_noting(alloc, roster, &mut disk, Executions::none(alloc)) {
        Ok(read) => Ok(Ok([read.past.count(), read.past.length(), read.end])),
        Err(fault) => Ok(Err(fault)),
    }
}

#[test]
fn a_history_is_recovered_without_a_house(rt: HostRuntime) -> Result<(), Fail> {
    let cases = [
        (b"".as_slice(), Ok([0, 0, 30])),
        (&BEGUN_ONE, Ok([1, 1, 60])),
        (&ONE, Ok([1, 1, 39])),
        (&TWO, Ok([2, 2, 59])),
        (&TURNED_TWO, Ok([2, 2, 80])),
        (&ONE[..30], Err(JournalFault::Damaged { offset: 8 })),
    ];
    for (file, answer) in cases {
        assert!(rt;
            recovered_of(&rt, rt.alloc(), file)? == answer,
            "{answer:?}"
        );
    }
    Ok(())
}

// Byte 48 of the second record is the party: A can't affirm its own trade. Byte 50 is the trade's number, byte 49 the tag:
// where a later record spells no change, that is told before.
#[test]
fn a_change_that_is_not_accepted_at_its_place_is_damage(rt: HostRuntime) -> Result<(), Fail> {
    let mut own = TWO;
    own[48] = b'A';
    let mut unknown = TWO;
    unknown[50] = 2;
    let mut stranger = unknown;
    stranger[18] = b'C';
    let mut unreadable = stranger;
    unreadable[49] = 13;
    let cases = [(own, 38), (unknown, 38), (stranger, 8), (unreadable, 38)];
    for (file, place) in cases {
        assert!(rt;
            answer_to(&rt, rt.alloc(), &file)? == damaged(place),
            "at {place}"
        );
    }
    Ok(())
}
