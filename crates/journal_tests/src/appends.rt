//! Appends, and what a crash in one leaves.

ghost use Rattle.std.specs.Prelude.{◌≡◌, ◌<◌, ◌≤◌, ◌^◌, length, true, Some, OnOk};
ghost use Rattle.journal_core.specs.Journal.{disk_of, form_of, size_of, is_sound, IsReady};

use crate::disks::{
    BEGUN, BEGUN_ONE, ONE, append_to, disk_of, holds, is_walked, started, walked_over,
};
use journal_core::{Frame, Journal, Walked};
use outside::MemoryDisk;
use std::alloc::Global;
use std::test::Fail;

// The plain file of one record, and behind it what an append of the record AB writes, but for the gate at byte 38.
const ONE_AND_AB: [u8; 46] =
    *b"OTCJRNL1\x01\x19\0\0\0\0\0\0\0\x01A\x01\x01A\x01B\x01P\x0a\0\0\0\0\0\0\0\xea\x07\x03\x02\0\x02\0\0\0AB\0";

/// Whether a crash leaves this file once a record was appended to that one.
fn leaves(alloc: Global, before: &[u8], record_bytes: &[u8], after: &[u8]) -> Result<bool, Fail>
    requires { length record_bytes.now < 2 ^ 32 }
{
    let (disk, answer) = append_to(alloc, disk_of(alloc, before)?, record_bytes)?;
    let mut disk = disk.crash();
    Ok(answer.is_ok() && holds(&mut disk, after)?)
}

/// Whether the last record that a walk found, of at most nine, has these bytes, with its gate there.
fn ends_with(walked: &Walked, record_bytes: &[u8], at: u64) -> bool {
    let mut records = walked.records();
    let mut is_last = false;
    for _ in 0..9 {
        let Some(found) = records.next() else {
            break;
        };
        is_last = found.at == at && found.bytes == record_bytes;
    }
    is_last
}

/// Whether a crash leaves this file, of which the record is the last, with its gate there.
fn is_appended(
    alloc: Global,
    before: &[u8],
    record_bytes: &[u8],
    at: u64,
    after: &[u8],
) -> Result<bool, Fail>
    requires { length record_bytes.now < 2 ^ 32 }
{
    let is_left = leaves(alloc, before, record_bytes, after)?;
    match walked_over(alloc, after)? {
        Ok(walked) => Ok(is_left && ends_with(&walked, record_bytes, at)),
        Err(_) => Ok(false),
    }
}

#[test]
fn a_record_that_was_appended_is_found_after_a_crash(rt: HostRuntime) -> Result<(), Fail> {
    let alloc = rt.alloc();
    let first = b"OTCJRNLC\0\x19\0\0\0\0\0\0\0\0\0\0\0\0\0\0\0\0\0\0\0\x01\x02\0\0\0AB\0";
    assert!(rt; is_appended(alloc, b"", b"AB", 29, first)?);
    // A file of fewer than ten bytes is begun with slots, whatever it has; a longer plain one stays plain.
    assert!(rt; is_appended(alloc, b"OTCJRNL1\0", &BEGUN_ONE[34..59], 29, &BEGUN_ONE)?);
    assert!(rt;
        is_appended(
            alloc,
            b"OTCJRNL1\0\0",
            b"AB",
            8,
            b"OTCJRNL1\x01\x02\0\0\0AB\0"
        )?
    );
    let mut both = ONE_AND_AB;
    both[38] = 1;
    assert!(rt; is_appended(alloc, &ONE, b"AB", 38, &both)?);
    Ok(())
}

/// Fills a frame with a record, and appends it.
fn fill_and_append(
    journal: &mut Journal<MemoryDisk>,
    frame: &mut Frame,
    record_bytes: &[u8],
) -> Result<(), Fail>
    requires ready { IsReady (Some (disk_of journal.old).history) (form_of journal.old) (size_of journal.old) }
    requires sound { is_sound journal.old ≡ true }
    requires short { length record_bytes.now ≤ 64 }
    ensures ready { OnOk result (IsReady (Some (disk_of journal.new).history) (form_of journal.new) (size_of journal.new)) }
    ensures sound { OnOk result (is_sound journal.new ≡ true) }
{
    if !journal.fits(record_bytes.len() as u64) {
        return Err(Fail::new("the record does not fit"));
    }
    frame.fill(record_bytes);
    journal.append(frame)?;
    Ok(())
}

/// Appends three records, all of them with one frame.
fn append_three(alloc: Global, journal: &mut Journal<MemoryDisk>) -> Result<(), Fail>
    requires ready { IsReady (Some (disk_of journal.old).history) (form_of journal.old) (size_of journal.old) }
    requires sound { is_sound journal.old ≡ true }
{
    let mut frame = Frame::short(alloc)?;
    fill_and_append(journal, &mut frame, b"ABC")?;
    fill_and_append(journal, &mut frame, b"")?;
    fill_and_append(journal, &mut frame, b"D")
}

#[test]
fn a_frame_is_filled_with_one_record_after_another(rt: HostRuntime) -> Result<(), Fail> {
    let alloc = rt.alloc();
    let mut journal = started(alloc, disk_of(alloc, b"")?)?;
    append_three(alloc, &mut journal)?;
    let mut disk = journal.end().crash();
    let file =
        b"OTCJRNLC\0\x19\0\0\0\0\0\0\0\0\0\0\0\0\0\0\0\0\0\0\0\x01\x03\0\0\0ABC\x01\0\0\0\0\x01\x01\0\0\0D\0";
    assert!(rt; holds(&mut disk, file)?);
    Ok(())
}

#[test]
fn a_start_gives_an_empty_disk_its_slots(rt: HostRuntime) -> Result<(), Fail> {
    let alloc = rt.alloc();
    let journal = started(alloc, disk_of(alloc, b"")?)?;
    let mut disk = journal.end().crash();
    assert!(rt; holds(&mut disk, &BEGUN)?);
    Ok(())
}

#[test]
fn a_crash_leaves_the_record_where_its_gate_is_open(rt: HostRuntime) -> Result<(), Fail> {
    let mut torn = ONE_AND_AB;
    torn[39] = 0xff;
    torn[45] = 1;
    let mut whole = ONE_AND_AB;
    whole[38] = 1;
    let cases = [
        (&ONE_AND_AB[..40], (1, 39)),
        (&ONE_AND_AB[..44], (1, 39)),
        (&ONE_AND_AB, (1, 39)),
        (&torn, (1, 39)),
        (&whole, (2, 46)),
    ];
    for (file, found) in cases {
        assert!(rt; is_walked(rt.alloc(), file, Ok(found))?);
    }
    Ok(())
}

/// Whether a journal whose records end there says so, and that a record of this length fits, or not.
fn says(alloc: Global, file: &[u8], end: u64, length: u64, fits: bool) -> Result<bool, Fail> {
    let journal = started(alloc, disk_of(alloc, file)?)?;
    Ok(journal.bytes() == end && journal.fits(length) == fits)
}

#[test]
fn the_last_record_that_fits_ends_one_byte_below_the_limit(rt: HostRuntime) -> Result<(), Fail> {
    let cases = [(268_435_412, true), (268_435_413, false), (u64::MAX, false)];
    for (length, fits) in cases {
        assert!(rt; says(rt.alloc(), &ONE, 39, length, fits)?, "{length}");
    }
    // Behind the slots it is 21 bytes shorter.
    let cases = [(268_435_391, true), (268_435_392, false)];
    for (length, fits) in cases {
        assert!(rt; says(rt.alloc(), &BEGUN_ONE, 60, length, fits)?, "{length}");
    }
    Ok(())
}
