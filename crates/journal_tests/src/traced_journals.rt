//! Journals over traced disks: what is done with them, and what a crash leaves then.

ghost use Rattle.std.specs.Prelude.{◌≡◌, ◌<◌, ◌^◌, length, true};
ghost use Rattle.journal_core.specs.Journal.{is_sound};

use crate::traced_disk::TracedDisk;
use journal_core::{Form, Frame, Journal, Walked, walk};
use std::alloc::Global;
use std::test::Fail;

/// A record is appended, or a base is folded to.
#[derive(Clone, Copy)]
pub enum Deed<'a> {
    Append(&'a [u8]),
    Fold(&'a [u8]),
}

/// What came of it: the journal was not opened, a call failed later, or none did.
#[derive(Clone, Copy, PartialEq, Eq)]
pub enum Outcome {
    Unopened,
    Failed,
    Done,
}

/// What a file may hold, and how it ends, if that is said.
#[derive(Clone, Copy)]
pub struct Held<'a> {
    pub ends: Option<(Form, u64)>,
    pub base: &'a [u8],
    pub records: &'a [&'a [u8]],
}

/// What the images of a crash hold: what was held, what the deed makes of it, or each of them in some image.
#[derive(Clone, Copy, PartialEq, Eq)]
pub enum Seen {
    Before,
    Either,
    After,
    Neither,
}

/// A deed on a file, with what is held before and after.
#[derive(Clone, Copy)]
pub struct Change<'a> {
    pub file: &'a [u8],
    pub deed: Deed<'a>,
    pub before: Held<'a>,
    pub after: Held<'a>,
}

/// What a walk over these bytes finds.
pub fn walked_of(alloc: Global, bytes: &[u8]) -> Result<Walked, Fail> {
    let mut disk = TracedDisk::new(alloc, bytes, 0)?;
    Ok(walk(alloc, &mut disk)?)
}

/// Whether a walk found these records and no more.
fn has_records(found: &Walked, records: &[&[u8]]) -> bool {
    let mut left = found.records();
    for expected in records {
        let is_next = match left.next() {
            Some(record) => record.bytes == *expected,
            None => false,
        };
        if !is_next {
            return false;
        }
    }
    left.next().is_none()
}

fn holds(found: &Walked, held: &Held<'_>) -> bool {
    let is_ended = match held.ends {
        Some(ends) => (found.form, found.end) == ends,
        None => true,
    };
    is_ended && found.base() == held.base && has_records(found, held.records)
}

/// Whether these bytes hold that.
pub fn is_held(alloc: Global, bytes: &[u8], held: &Held<'_>) -> Result<bool, Fail> {
    let found = walked_of(alloc, bytes)?;
    Ok(holds(&found, held))
}

fn append(alloc: Global, journal: &mut Journal<TracedDisk>, bytes: &[u8]) -> bool
    requires sound { is_sound journal.old ≡ true }
    requires small { length bytes.now < 2 ^ 32 }
    ensures sound { result ≡ true → is_sound journal.new ≡ true }
{
    let Ok(frame) = Frame::of(alloc, bytes) else {
        return false;
    };
    journal.fits(bytes.len() as u64) && journal.append(&frame).is_ok()
}

fn fold(alloc: Global, journal: &mut Journal<TracedDisk>, base: &[u8]) -> bool
    requires sound { is_sound journal.old ≡ true }
    requires small { length base.now < 2 ^ 32 }
    ensures sound { result ≡ true → is_sound journal.new ≡ true }
{
    let Ok(frame) = Frame::of(alloc, base) else {
        return false;
    };
    if !journal.has_slots() || !journal.fold_fits(base.len() as u64) {
        return false;
    }
    match journal.stage(&frame) {
        Ok(()) => journal.switch().is_ok(),
        Err(_) => false,
    }
}

/// Does it with at most 64 bytes, and says whether no call failed.
pub fn does(alloc: Global, journal: &mut Journal<TracedDisk>, deed: Deed<'_>) -> bool
    requires sound { is_sound journal.old ≡ true }
    ensures sound { result ≡ true → is_sound journal.new ≡ true }
{
    match deed {
        Deed::Append(bytes) => bytes.len() <= 64 && append(alloc, journal, bytes),
        Deed::Fold(base) => base.len() <= 64 && fold(alloc, journal, base),
    }
}

/// The form and the end of what a disk holds.
fn walked_to(alloc: Global, disk: &mut TracedDisk) -> Option<(Form, u64)> {
    match walk(alloc, disk) {
        Ok(walked) => Some((walked.form, walked.end)),
        Err(_) => None,
    }
}

fn done_with(alloc: Global, journal: Journal<TracedDisk>, deed: Deed<'_>) -> (TracedDisk, Outcome)
    requires { is_sound journal ≡ true }
{
    let mut journal = journal;
    let outcome = if does(alloc, &mut journal, deed) {
        Outcome::Done
    } else {
        Outcome::Failed
    };
    (journal.end(), outcome)
}

/// Opens a disk's journal and does it, up to the call that fails.
fn done_on(alloc: Global, disk: TracedDisk, deed: Deed<'_>) -> (TracedDisk, Outcome) {
    let mut disk = disk;
    let Some((form, end)) = walked_to(alloc, &mut disk) else {
        return (disk, Outcome::Unopened);
    };
    match Journal::start(disk, form, end) {
        Ok(journal) => done_with(alloc, journal, deed),
        Err((_, disk)) => (disk, Outcome::Unopened),
    }
}

/// The images of a crash once that was done on a file, up to the call with this number, which fails.
pub fn images_after(
    alloc: Global,
    file: &[u8],
    deed: Deed<'_>,
    call: u64,
) -> Result<(Vec<Vec<u8>>, Outcome), Fail> {
    let (disk, outcome) = done_on(alloc, TracedDisk::new(alloc, file, call)?, deed);
    Ok((disk.images()?, outcome))
}

fn seen_in(
    alloc: Global,
    images: &[Vec<u8>],
    before: &Held<'_>,
    after: &Held<'_>,
) -> Result<Seen, Fail> {
    let mut some_before = false;
    let mut some_after = false;
    for image in images {
        if is_held(alloc, image, after)? {
            some_after = true;
        } else if is_held(alloc, image, before)? {
            some_before = true;
        } else {
            return Ok(Seen::Neither);
        }
    }
    Ok(match (some_before, some_after) {
        (true, true) => Seen::Either,
        (true, false) => Seen::Before,
        (false, true) => Seen::After,
        (false, false) => Seen::Neither,
    })
}

/// What a crash leaves of a change whose call with this number fails, and whether it was done.
pub fn seen_after(alloc: Global, change: &Change<'_>, call: u64) -> Result<(Seen, bool), Fail> {
    let (images, outcome) = images_after(alloc, change.file, change.deed, call)?;
    let seen = seen_in(alloc, &images, &change.before, &change.after)?;
    Ok((seen, outcome == Outcome::Done))
}
