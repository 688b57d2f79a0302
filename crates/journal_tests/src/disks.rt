//! Disks in memory that hold small journals, and what is read of them.

ghost use Rattle.std.specs.Prelude.{◌≡◌, ◌<◌, ◌^◌, length, true, Some, IfOk, IfSome};
ghost use Rattle.command_types.specs.Bases.{CanBeWritten};
ghost use Rattle.outside.specs.Disk.{IsSettled};
ghost use Rattle.journal_core.specs.Journal.{disk_of, form_of, size_of, is_sound, IsReady};

use journal_core::{Frame, Journal, JournalFault, Walked, walk};
use outside::{Disk, Failed, MemoryDisk};
use recovery::{Contents, Entries, read_entries};
use std::alloc::Global;
use std::test::Fail;

/// A file with slots as it is begun: the selector 0, the offset 25 in slot 0, no base, and a closed gate.
pub const BEGUN: [u8; 30] = *b"OTCJRNLC\0\x19\0\0\0\0\0\0\0\0\0\0\0\0\0\0\0\0\0\0\0\0";

/// The same with A's command TRADE A B P 10 2026-03-02 from seat 0, whose gate is byte 29 and whose record is bytes 34 to 58.
pub const BEGUN_ONE: [u8; 60] =
    *b"OTCJRNLC\0\x19\0\0\0\0\0\0\0\0\0\0\0\0\0\0\0\0\0\0\0\x01\x19\0\0\0\0\0\0\0\x01A\x01\x01A\x01B\x01P\x0a\0\0\0\0\0\0\0\xea\x07\x03\x02\0";

/// A plain file: the header, an open gate, the length 25, and A's command TRADE A B P 10 2026-03-02 from seat 0, with a closed gate.
pub const ONE: [u8; 39] =
    *b"OTCJRNL1\x01\x19\0\0\0\0\0\0\0\x01A\x01\x01A\x01B\x01P\x0a\0\0\0\0\0\0\0\xea\x07\x03\x02\0";

/// The same with B's command AFFIRM 1, whose gate is byte 38 and whose record is bytes 43 to 57.
pub const TWO: [u8; 59] =
    *b"OTCJRNL1\x01\x19\0\0\0\0\0\0\0\x01A\x01\x01A\x01B\x01P\x0a\0\0\0\0\0\0\0\xea\x07\x03\x02\x01\x0f\0\0\0\0\0\0\0\x01B\x02\x01\0\0\0\0\0\0\0\0";

/// The file with slots that is begun and turned: behind the record of the eight bytes, changes have their moments.
pub const BEGUN_TURNED: [u8; 43] =
    *b"OTCJRNLC\0\x19\0\0\0\0\0\0\0\0\0\0\0\0\0\0\0\0\0\0\0\x01\x08\0\0\0MOMENTS2\0";

/// The plain file of one record, turned, and then B's command AFFIRM 1 of noon on 2026-03-31. The turn's gate is byte 38 and its
/// record bytes 43 to 50; the change's gate is byte 51, its moment bytes 56 to 63, and its tag byte 70.
pub const TURNED_TWO: [u8; 80] =
    *b"OTCJRNL1\x01\x19\0\0\0\0\0\0\0\x01A\x01\x01A\x01B\x01P\x0a\0\0\0\0\0\0\0\xea\x07\x03\x02\x01\x08\0\0\0MOMENTS2\x01\x17\0\0\0\x40\xb7\xcb\x69\0\0\0\0\0\0\0\0\x01B\x02\x01\0\0\0\0\0\0\0\0";

/// The place of the first change's tag in a file.
pub const FIRST_TAG: usize = 19;

/// The place of the second one's.
pub const SECOND_TAG: usize = 49;

/// These bytes, with others from a place on.
pub fn with<const N: usize>(bytes: [u8; N], place: usize, others: &[u8]) -> [u8; N] {
    let mut bytes = bytes;
    let mut place = place;
    for byte in others {
        if let Some(there) = bytes.get_mut(place) {
            *there = *byte;
        }
        place = place.saturating_add(1);
    }
    bytes
}

/// A disk that holds these bytes, all of them synced.
pub fn disk_of(alloc: Global, bytes: &[u8]) -> Result<MemoryDisk, Fail>
    ensures { IfOk result (λ d. IsSettled (Some d.history)) }
{
    let mut disk = MemoryDisk::new(alloc, 256, 16)?;
    disk.write_at(0, bytes)?;
    disk.sync()?;
    Ok(disk.crash())
}

/// A disk that holds these bytes, and whose call with this number fails.
pub fn failing_disk(alloc: Global, bytes: &[u8], call: u64) -> Result<MemoryDisk, Fail>
    ensures { IfOk result (λ d. IsSettled (Some d.history)) }
{
    let mut disk = disk_of(alloc, bytes)?;
    disk.fail_at(call)?;
    Ok(disk)
}

/// Whether a disk holds just these bytes, at most 64.
pub fn holds(disk: &mut MemoryDisk, bytes: &[u8]) -> Result<bool, Fail> {
    let length = disk.length()?;
    let mut into = [0; 64];
    let read = disk.read(0, &mut into)?;
    Ok(length == bytes.len() as u64 && into.get(..read) == Some(bytes))
}

/// How many records a walk found, up to 100.
pub fn count_of(walked: &Walked) -> usize {
    let mut records = walked.records();
    for count in 0..100 {
        if records.next().is_none() {
            return count;
        }
    }
    100
}

/// How many entries were read, up to 100, and where they end.
fn entries_in(alloc: Global, entries: &Entries) -> Result<(usize, u64), Fail> {
    let mut reader = entries.reader();
    for count in 0..100 {
        if reader.next(alloc)?.is_none() {
            return Ok((count, entries.end()));
        }
    }
    Ok((100, entries.end()))
}

/// What a walk over these bytes answers.
pub fn walked_over(alloc: Global, bytes: &[u8]) -> Result<Result<Walked, JournalFault>, Fail> {
    let mut disk = disk_of(alloc, bytes)?;
    Ok(walk(alloc, &mut disk))
}

/// Whether a walk over these bytes finds so many records that end there, or this fault.
pub fn is_walked(
    alloc: Global,
    bytes: &[u8],
    answer: Result<(usize, u64), JournalFault>,
) -> Result<bool, Fail> {
    let given = match walked_over(alloc, bytes)? {
        Ok(walked) => Ok((count_of(&walked), walked.end)),
        Err(fault) => Err(fault),
    };
    Ok(given == answer)
}

/// What reading these bytes answers.
pub fn read_over(alloc: Global, bytes: &[u8]) -> Result<Result<Contents, JournalFault>, Fail>
    ensures { IfOk result (λ read. IfOk read (λ c. IfSome c.base (λ found. CanBeWritten found.base))) }
{
    let mut disk = disk_of(alloc, bytes)?;
    Ok(read_entries(alloc, &mut disk))
}

/// Whether so many entries that end there are read of these bytes, or this fault.
pub fn is_read(
    alloc: Global,
    bytes: &[u8],
    answer: Result<(usize, u64), JournalFault>,
) -> Result<bool, Fail> {
    match read_over(alloc, bytes)? {
        Ok(contents) => Ok(answer == Ok(entries_in(alloc, &contents.entries)?)),
        Err(fault) => Ok(answer == Err(fault)),
    }
}

/// The answer that the file is damaged at this place.
pub fn damaged(offset: u64) -> Result<(usize, u64), JournalFault> {
    Err(JournalFault::Damaged { offset })
}

/// The journal that is started on a disk.
pub fn started<D: Disk>(alloc: Global, disk: D) -> Result<Journal<D>, Fail>
    requires settled { IsSettled (D.history disk) }
    ensures ready { IfOk result (λ j. IsReady (D.history (disk_of j)) (form_of j) (size_of j)) }
    ensures sound { IfOk result (λ j. is_sound j ≡ true) }
{
    let mut disk = disk;
    let walked = walk(alloc, &mut disk)?;
    match Journal::start(disk, walked.form, walked.end) {
        Ok(journal) => Ok(journal),
        Err(_) => Err(Fail::new("the journal does not start")),
    }
}

/// Opens the journal of a disk, appends a record, and gives the disk back with the answer.
pub fn append_to<D: Disk>(
    alloc: Global,
    disk: D,
    record_bytes: &[u8],
) -> Result<(D, Result<(), Failed>), Fail>
    requires settled { IsSettled (D.history disk) }
    requires small { length record_bytes.now < 2 ^ 32 }
{
    let mut journal = started(alloc, disk)?;
    if !journal.fits(record_bytes.len() as u64) {
        return Err(Fail::new("the record does not fit"));
    }
    let frame = Frame::of(alloc, record_bytes)?;
    let answer = journal.append(&frame);
    Ok((journal.end(), answer))
}
