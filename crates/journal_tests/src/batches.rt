//! Records that are appended at once, and what a crash in it leaves.

ghost use Rattle.std.specs.Prelude.{◌≡◌, true, Some, OnOk};
ghost use Rattle.journal_core.specs.Journal.{disk_of, form_of, size_of, is_sound, IsReady};

use crate::disks::{BEGUN, BEGUN_ONE, ONE, disk_of, holds, started};
use crate::traced_disk::TracedDisk;
use journal_core::{Form, Frame, Frames, Journal, walk};
use outside::MemoryDisk;
use std::alloc::Global;
use std::test::Fail;

// The records of which a batch has the first ones. Some are empty, and one looks like an open gate.
const MORE: [&[u8]; 5] = [b"AB", b"", b"\x01", b"", b"C"];

// The plain file of one record, and 40 open gates behind its closed one, more than any batch here writes over.
const ONE_AND_GATES: [u8; 79] =
    *b"OTCJRNL1\x01\x19\0\0\0\0\0\0\0\x01A\x01\x01A\x01B\x01P\x0a\0\0\0\0\0\0\0\xea\x07\x03\x02\0\x01\x01\x01\x01\x01\x01\x01\x01\x01\x01\x01\x01\x01\x01\x01\x01\x01\x01\x01\x01\x01\x01\x01\x01\x01\x01\x01\x01\x01\x01\x01\x01\x01\x01\x01\x01\x01\x01\x01\x01";

// Fills the frames with records of up to 64 bytes, whatever they had before.
fn refill(alloc: Global, frames: &mut Frames, records: &[&[u8]]) -> Result<(), Fail> {
    frames.clear();
    let mut frame = Frame::short(alloc)?;
    for bytes in records {
        if bytes.len() > 64 {
            return Err(Fail::new("a record is too long"));
        }
        frame.fill(bytes);
        frames.push(&frame)?;
    }
    Ok(())
}

// The frames of records of up to 64 bytes.
fn frames_of(alloc: Global, records: &[&[u8]]) -> Result<Frames, Fail> {
    let mut frames = Frames::new(alloc)?;
    refill(alloc, &mut frames, records)?;
    Ok(frames)
}

// Opens the journal of a disk and appends these records at once, up to the call that fails. Says whether that was done.
fn append_until_it_fails(
    alloc: Global,
    disk: TracedDisk,
    records: &[&[u8]],
) -> Result<(TracedDisk, bool), Fail> {
    let frames = frames_of(alloc, records)?;
    let mut disk = disk;
    let Ok(walked) = walk(alloc, &mut disk) else {
        return Ok((disk, false));
    };
    let mut journal = match Journal::start(disk, walked.form, walked.end) {
        Ok(journal) => journal,
        Err((_, disk)) => return Ok((disk, false)),
    };
    if !journal.fits_all(&frames) {
        return Err(Fail::new("the records do not fit"));
    }
    let is_done = journal.append_all(&frames).is_ok();
    Ok((journal.end(), is_done))
}

// How many of the new records the image holds behind those from before, in their order. It must hold those, and no others.
fn held_in(
    alloc: Global,
    image: &[u8],
    before: &[&[u8]],
    records: &[&[u8]],
) -> Result<usize, Fail> {
    let mut disk = disk_of(alloc, image)?;
    let walked = walk(alloc, &mut disk)?;
    let mut found = walked.records();
    for expected in before {
        let is_kept = match found.next() {
            Some(record) => record.bytes == *expected,
            None => false,
        };
        if !is_kept {
            return Err(Fail::new("a record from before is lost"));
        }
    }
    for (count, expected) in records.iter().enumerate() {
        match found.next() {
            None => return Ok(count),
            Some(record) => {
                if record.bytes != *expected {
                    return Err(Fail::new("another record came"));
                }
            }
        }
    }
    if found.next().is_some() {
        return Err(Fail::new("one record more came"));
    }
    Ok(records.len())
}

// Whether some image holds none of them, whether some holds all, and whether the append was done, once that call has failed.
fn held_after(
    alloc: Global,
    file: &[u8],
    before: &[&[u8]],
    records: &[&[u8]],
    call: u64,
) -> Result<(bool, bool, bool), Fail> {
    let disk = TracedDisk::new(alloc, file, call)?;
    let (disk, is_done) = append_until_it_fails(alloc, disk, records)?;
    let mut some_without = false;
    let mut some_with = false;
    for image in &disk.images()? {
        let count = held_in(alloc, image, before, records)?;
        if count == records.len() {
            some_with = true;
        } else if count == 0 {
            some_without = true;
        } else {
            return Err(Fail::new("some of them came, and not all"));
        }
    }
    Ok((some_without, some_with, is_done))
}

// Whether each call that fails, of so many in turn, and then none, leaves what it has to: none of the records until the append's
// second call has failed, none or all in its third and fourth, and all of them when it is done.
fn survives_each_call(
    alloc: Global,
    file: &[u8],
    before: &[&[u8]],
    records: &[&[u8]],
    calls: u64,
) -> Result<bool, Fail> {
    for call in 1..=calls {
        let is_late = call.saturating_add(2) > calls;
        if held_after(alloc, file, before, records, call)? != (true, is_late, false) {
            return Ok(false);
        }
    }
    Ok(held_after(alloc, file, before, records, 0)? == (false, true, true))
}

// Whether that is so for each batch of the first ones, up to so many.
fn survive_each_call(
    alloc: Global,
    file: &[u8],
    before: &[&'static [u8]],
    most: usize,
    calls: u64,
) -> Result<bool, Fail> {
    for count in 1..=most {
        let Some(records) = MORE.get(..count) else {
            return Ok(false);
        };
        if !survives_each_call(alloc, file, before, records, calls)? {
            return Ok(false);
        }
    }
    Ok(true)
}

// Of each file, up to how many records a batch has, and how many calls. A walk has two and an append four, whatever it appends, and
// a start two where the file begins as one with slots. The images of a write grow with the cube of the bytes that it adds to a file.
#[test]
fn a_crash_in_each_call_leaves_none_of_a_batch_or_all(rt: HostRuntime) -> Result<(), Fail> {
    let one = [&ONE[13..38]];
    assert!(rt; survive_each_call(rt.alloc(), &ONE_AND_GATES, &one, 5, 6)?);
    assert!(rt; survive_each_call(rt.alloc(), &ONE_AND_GATES[..42], &one, 2, 6)?);
    assert!(rt; survive_each_call(rt.alloc(), &ONE, &one, 2, 6)?);
    assert!(rt; survive_each_call(rt.alloc(), &BEGUN_ONE, &one, 2, 6)?);
    assert!(rt; survive_each_call(rt.alloc(), &BEGUN, &[], 1, 8)?);
    Ok(())
}

// No records: the journal makes no call, so none fails, and the file is as it was.
#[test]
fn an_empty_batch_makes_no_call(rt: HostRuntime) -> Result<(), Fail> {
    let one = [&ONE[13..38]];
    for call in [0, 3, 4] {
        assert!(rt; held_after(rt.alloc(), &ONE, &one, &[], call)? == (false, true, true));
    }
    Ok(())
}

/// Appends these records at once, in the frames, which had others.
fn refill_and_append(
    alloc: Global,
    journal: &mut Journal<MemoryDisk>,
    frames: &mut Frames,
    records: &[&[u8]],
) -> Result<(), Fail>
    requires ready { IsReady (Some (disk_of journal.old).history) (form_of journal.old) (size_of journal.old) }
    requires sound { is_sound journal.old ≡ true }
    ensures ready { OnOk result (IsReady (Some (disk_of journal.new).history) (form_of journal.new) (size_of journal.new)) }
    ensures sound { OnOk result (is_sound journal.new ≡ true) }
{
    refill(alloc, frames, records)?;
    if !journal.fits_all(frames) {
        return Err(Fail::new("the records do not fit"));
    }
    journal.append_all(frames)?;
    Ok(())
}

// Whether a new journal to which these three batches were appended in turn, in the same frames, has just these bytes.
fn is_file_of(alloc: Global, batches: &[&[&[u8]]; 3], file: &[u8]) -> Result<bool, Fail> {
    let mut journal = started(alloc, disk_of(alloc, b"")?)?;
    let mut frames = Frames::new(alloc)?;
    refill_and_append(alloc, &mut journal, &mut frames, batches[0])?;
    refill_and_append(alloc, &mut journal, &mut frames, batches[1])?;
    refill_and_append(alloc, &mut journal, &mut frames, batches[2])?;
    holds(&mut journal.end().crash(), file)
}

// Three batches, of which the first has the most records.
const LARGE_FIRST: [&[&[u8]]; 3] = [&[b"ABC", b""], &[], &[b"D"]];

const FIRST_LARGE: &[u8] =
    b"OTCJRNLC\0\x19\0\0\0\0\0\0\0\0\0\0\0\0\0\0\0\0\0\0\0\x01\x03\0\0\0ABC\x01\0\0\0\0\x01\x01\0\0\0D\0";

// And three of which the second has.
const LARGE_THEN: [&[&[u8]]; 3] = [&[b"D"], &[b"ABC", b""], &[b"D"]];

const THEN_LARGE: &[u8] =
    b"OTCJRNLC\0\x19\0\0\0\0\0\0\0\0\0\0\0\0\0\0\0\0\0\0\0\x01\x01\0\0\0D\x01\x03\0\0\0ABC\x01\0\0\0\0\x01\x01\0\0\0D\0";

#[test]
fn frames_are_filled_with_one_batch_after_another(rt: HostRuntime) -> Result<(), Fail> {
    assert!(rt; is_file_of(rt.alloc(), &LARGE_FIRST, FIRST_LARGE)?);
    assert!(rt; is_file_of(rt.alloc(), &LARGE_THEN, THEN_LARGE)?);
    Ok(())
}

// What a journal that ends there takes of records of these lengths, of up to 64 bytes, each where it fits behind those before it:
// whether each was taken, and how many bytes the journal has once these are appended.
fn taken_at(alloc: Global, end: u64, lengths: &[usize]) -> Result<(Vec<bool>, u64), Fail> {
    let disk = TracedDisk::new(alloc, b"", 0)?;
    let Ok(mut journal) = Journal::start(disk, Form::Plain, end) else {
        return Err(Fail::new("the journal does not start"));
    };
    let mut frames = Frames::new(alloc)?;
    let mut frame = Frame::short(alloc)?;
    let mut taken = Vec::new(alloc);
    let zeros = [0; 64];
    for length in lengths {
        let fits = journal.fits_behind(&frames, *length as u64);
        if fits {
            let Some(bytes) = zeros.get(..*length) else {
                return Err(Fail::new("a record is too long"));
            };
            frame.fill(bytes);
            frames.push(&frame)?;
        }
        taken.push(fits)?;
    }
    if !journal.fits_all(&frames) {
        return Err(Fail::new("the records do not fit"));
    }
    journal.append_all(&frames)?;
    Ok((taken, journal.bytes()))
}

// The limit is 268,435,456 bytes. A frame has five more than its record.
#[test]
fn a_batch_takes_what_fits_up_to_the_limit(rt: HostRuntime) -> Result<(), Fail> {
    let cases = [
        (
            268_435_426,
            [10, 20, 5, 1, 0],
            [true, false, true, false, true],
            268_435_456,
        ),
        (
            268_435_426,
            [25, 0, 0, 0, 0],
            [true, false, false, false, false],
            268_435_456,
        ),
        (
            268_435_426,
            [26, 0, 64, 0, 0],
            [false, true, false, true, true],
            268_435_441,
        ),
        (
            268_435_452,
            [0, 0, 0, 0, 0],
            [false, false, false, false, false],
            268_435_452,
        ),
        (
            268_435_451,
            [0, 0, 0, 0, 0],
            [true, false, false, false, false],
            268_435_456,
        ),
    ];
    for (end, lengths, taken, bytes) in cases {
        let found = taken_at(rt.alloc(), end, &lengths)?;
        assert!(rt;
            found.0.as_slice() == taken.as_slice() && found.1 == bytes,
            "{end}"
        );
    }
    Ok(())
}

// Whether a record of this length fits behind the record AB, whose frame has seven bytes, in a journal of 39 bytes.
#[test]
fn the_frames_count_for_the_limit(rt: HostRuntime) -> Result<(), Fail> {
    let cases = [(268_435_405, true), (268_435_406, false), (u64::MAX, false)];
    for (length, fits) in cases {
        assert!(rt; fits_behind_one(rt.alloc(), length)? == fits, "{length}");
    }
    Ok(())
}

fn fits_behind_one(alloc: Global, length: u64) -> Result<bool, Fail> {
    let journal = started(alloc, disk_of(alloc, &ONE)?)?;
    let frames = frames_of(alloc, &[b"AB"])?;
    Ok(journal.fits_behind(&frames, length))
}
