//! Calls of the disk that fail: in an append, a walk, a start and in reading entries.

use crate::disks::{BEGUN, FIRST_TAG, ONE, append_to, count_of, damaged, failing_disk};
use journal_core::{Journal, JournalFault, walk};
use outside::Disk;
use recovery::read_entries;
use std::alloc::Global;
use std::test::Fail;

/// Whether an append to the file of one record is done or not where that call of the disk fails, with so many faults and
/// so many records after a crash.
fn append_leaves(
    alloc: Global,
    call: u64,
    is_done: bool,
    faults: u64,
    records: usize,
) -> Result<bool, Fail> {
    let disk = failing_disk(alloc, &ONE, call)?;
    let (disk, answer) = append_to(alloc, disk, b"AB")?;
    let counted = disk.faults();
    let mut disk = disk.crash();
    let found = match walk(alloc, &mut disk) {
        Ok(walked) => Some(count_of(&walked)),
        Err(_) => None,
    };
    Ok(answer.is_ok() == is_done && counted == faults && found == Some(records))
}

#[test]
fn an_append_fails_where_one_of_its_four_calls_does(rt: HostRuntime) -> Result<(), Fail> {
    // The walk has two calls before, and a start on a file that is long enough has none.
    for call in 3..=6 {
        assert!(rt;
            append_leaves(rt.alloc(), call, false, 1, 1)?,
            "call {call}"
        );
    }
    assert!(rt; append_leaves(rt.alloc(), 7, true, 0, 2)?);
    Ok(())
}

/// Whether a walk over the file of one record fails with its disk where that call does.
fn walk_fails(alloc: Global, call: u64) -> Result<bool, Fail> {
    let mut disk = failing_disk(alloc, &ONE, call)?;
    let fault = walk(alloc, &mut disk).err();
    Ok(fault == Some(JournalFault::DiskFault) && disk.faults() == 1)
}

#[test]
fn a_walk_fails_where_one_of_its_calls_does(rt: HostRuntime) -> Result<(), Fail> {
    assert!(rt; walk_fails(rt.alloc(), 1)?);
    assert!(rt; walk_fails(rt.alloc(), 2)?);
    Ok(())
}

/// Whether a start on a disk with these bytes whose call with this number fails leaves so many faults, or is done.
fn start_leaves(alloc: Global, bytes: &[u8], call: u64, faults: Option<u64>) -> Result<bool, Fail> {
    let mut disk = failing_disk(alloc, bytes, call)?;
    let walked = walk(alloc, &mut disk)?;
    match Journal::start(disk, walked.form, walked.end) {
        Ok(_) => Ok(faults.is_none()),
        Err((_, disk)) => Ok(faults == Some(disk.faults())),
    }
}

#[test]
fn a_start_fails_where_one_of_its_calls_does(rt: HostRuntime) -> Result<(), Fail> {
    // Behind the walk's two: the header and the slots, each a write and a sync, or the slots alone.
    for call in 3..=6 {
        assert!(rt;
            start_leaves(rt.alloc(), b"", call, Some(1))?,
            "call {call}"
        );
    }
    assert!(rt; start_leaves(rt.alloc(), b"", 7, None)?);
    for call in 3..=4 {
        assert!(rt;
            start_leaves(rt.alloc(), &BEGUN, call, Some(1))?,
            "call {call}"
        );
    }
    assert!(rt; start_leaves(rt.alloc(), &BEGUN, 5, None)?);
    assert!(rt; start_leaves(rt.alloc(), &ONE, 3, None)?);
    Ok(())
}

/// Whether reading these bytes gives this fault or none where the disk's call with that number fails, with so many faults.
fn reading_gives(
    alloc: Global,
    bytes: &[u8],
    call: u64,
    fault: Option<JournalFault>,
    faults: u64,
) -> Result<bool, Fail> {
    let mut disk = failing_disk(alloc, bytes, call)?;
    let answer = read_entries(alloc, &mut disk);
    Ok(answer.err() == fault && disk.faults() == faults)
}

// Reading asks the length, and then for the bytes.
#[test]
fn reading_fails_where_one_of_its_two_calls_does(rt: HostRuntime) -> Result<(), Fail> {
    let mut bad = ONE;
    bad[FIRST_TAG] = 13;
    let failed = Some(JournalFault::DiskFault);
    let cases = [
        (&ONE, 1, failed, 1),
        (&ONE, 2, failed, 1),
        (&ONE, 3, None, 0),
        (&bad, 1, failed, 1),
        (&bad, 2, failed, 1),
        (&bad, 3, damaged(8).err(), 0),
    ];
    for (file, call, fault, faults) in cases {
        assert!(rt;
            reading_gives(rt.alloc(), file, call, fault, faults)?,
            "call {call}"
        );
    }
    Ok(())
}

/// Whether a fault has this text.
fn has_text(alloc: Global, fault: JournalFault, text: &str) -> Result<bool, Fail> {
    Ok(format!(in alloc; "{fault}")?.as_str() == text)
}

#[test]
fn faults_have_these_texts(rt: HostRuntime) -> Result<(), Fail> {
    let cases = [
        (JournalFault::Damaged { offset: 38 }, "damaged at 38"),
        (JournalFault::DiskFault, "the disk failed"),
        (JournalFault::Memory, "out of memory"),
    ];
    for (fault, text) in cases {
        assert!(rt; has_text(rt.alloc(), fault, text)?, "{text}");
    }
    Ok(())
}
