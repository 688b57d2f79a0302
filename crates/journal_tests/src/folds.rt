//! Files with slots: how they begin and are read, folds, and calls of the disk that fail in one.

ghost use Rattle.std.specs.Prelude.{◌≡◌, true, IfOk};
ghost use Rattle.journal_core.specs.Journal.{is_sound};

use crate::disks::{BEGUN, BEGUN_ONE, is_walked, walked_over, with};
use crate::traced_disk::TracedDisk;
use crate::traced_journals::{Change, Deed, Held, Seen, does, is_held, seen_after};
use journal_core::{Form, Journal, JournalFault, walk};
use outside::Disk;
use std::alloc::Global;
use std::test::Fail;

fn content_of(alloc: Global, disk: &mut TracedDisk) -> Result<Vec<u8>, Fail> {
    let length = disk.length()?;
    let mut bytes = vec![in alloc; 0u8; length.min(4096) as usize]?;
    disk.read(0, &mut bytes)?;
    Ok(bytes)
}

/// The journal that is opened on a file of these bytes.
fn opened_on(alloc: Global, file: &[u8]) -> Result<Journal<TracedDisk>, Fail>
    ensures { IfOk result (λ journal. is_sound journal ≡ true) }
{
    let mut disk = TracedDisk::new(alloc, file, 0)?;
    let walked = walk(alloc, &mut disk)?;
    match Journal::start(disk, walked.form, walked.end) {
        Ok(journal) => Ok(journal),
        Err(_) => Err(Fail::new("the journal does not start")),
    }
}

/// A deed, and where the journal's records end behind it.
type Step<'a> = (Deed<'a>, u64);

/// Whether each of these is done, and has that end.
fn are_done(alloc: Global, journal: &mut Journal<TracedDisk>, steps: &[Step<'_>]) -> bool
    requires { is_sound journal.old ≡ true }
{
    for step in steps {
        let (deed, end) = *step;
        if !does(alloc, journal, deed) || journal.bytes() != end {
            return false;
        }
    }
    true
}

/// What the disk has once these were done with the journal of a file.
fn left_by(alloc: Global, file: &[u8], steps: &[Step<'_>]) -> Result<Vec<u8>, Fail> {
    let mut journal = opened_on(alloc, file)?;
    if !are_done(alloc, &mut journal, steps) {
        return Err(Fail::new("a step is not done"));
    }
    let mut disk = journal.end();
    content_of(alloc, &mut disk)
}

/// A base and records in a file of this form that ends there.
fn held<'a>(ends: (Form, u64), base: &'a [u8], records: &'a [&'a [u8]]) -> Held<'a> {
    Held {
        ends: Some(ends),
        base,
        records,
    }
}

/// A form with this slot selected, and this offset in it.
fn slots(selected: u8, offset: u64) -> Form {
    Form::Slots { selected, offset }
}

#[test]
fn a_short_file_gets_its_slots(rt: HostRuntime) -> Result<(), Fail> {
    let alloc = rt.alloc();
    let files = [
        b"".as_slice(),
        b"\x01\x01",
        b"OTCJRNL1\0",
        b"OTCJRNLC\x01",
        b"OTCJRNLC\x01\x01\x01\x01\x01\x01\x01\x01\x01\x01\x01\x01",
        b"OTCJRNLC\x01\x01\x01\x01\x01\x01\x01\x01\x01\x01\x01\x01\x01\x01\x01\x01\x01\x01\x01\x01\x01\x01",
        &BEGUN,
    ];
    for file in files {
        assert!(rt; is_walked(alloc, file, Ok((0, 30)))?);
        assert!(rt; left_by(alloc, file, &[])?.as_slice() == BEGUN.as_slice());
    }
    Ok(())
}

/// What a walk over the file of one record answers where it is cut to this size.
fn answer_when_cut(size: usize) -> Result<(Form, u64), JournalFault> {
    match size {
        0..=9 => Ok((Form::Short, 30)),
        10..=30 => Ok((Form::SlotsShort, 30)),
        31..=58 => Err(JournalFault::Damaged { offset: 29 }),
        59 => Err(JournalFault::Damaged { offset: 59 }),
        _ => Ok((slots(0, 25), 60)),
    }
}

/// The form and the end that a walk over these bytes finds, or its fault.
fn form_of(alloc: Global, bytes: &[u8]) -> Result<Result<(Form, u64), JournalFault>, Fail> {
    match walked_over(alloc, bytes)? {
        Ok(walked) => Ok(Ok((walked.form, walked.end))),
        Err(fault) => Ok(Err(fault)),
    }
}

#[test]
fn each_cut_of_a_file_with_slots_has_its_answer(rt: HostRuntime) -> Result<(), Fail> {
    for size in 0..=60 {
        assert!(rt;
            form_of(rt.alloc(), &BEGUN_ONE[..size])? == answer_when_cut(size),
            "cut to {size}"
        );
    }
    Ok(())
}

#[test]
fn slots_that_name_no_base_are_damage_there(rt: HostRuntime) -> Result<(), Fail> {
    let cases = [
        (9, 24, 24),
        (8, 1, 0),
        (9, 57, 57),
        (16, 255, 18374686479671623705),
        (25, 32, 25),
        (28, 255, 25),
    ];
    for (place, byte, offset) in cases {
        let damaged = Err(JournalFault::Damaged { offset });
        assert!(rt;
            is_walked(rt.alloc(), &with(BEGUN_ONE, place, &[byte]), damaged)?,
            "{byte} at {place}"
        );
    }
    assert!(rt; is_walked(rt.alloc(), &with(BEGUN_ONE, 8, &[7]), Ok((1, 60)))?);
    Ok(())
}

#[test]
fn a_journal_folds_to_its_end_and_to_the_front(rt: HostRuntime) -> Result<(), Fail> {
    let alloc = rt.alloc();
    let steps = [
        (Deed::Append(b"AB"), 37),
        (Deed::Append(b"CDEFGH"), 48),
        (Deed::Fold(b"first base"), 63),
        (Deed::Append(b"xyz"), 71),
    ];
    let at_the_end = left_by(alloc, b"", &steps)?;
    let first_base = held((slots(1, 48), 71), b"first base", &[b"xyz"]);
    assert!(rt; is_held(alloc, &at_the_end, &first_base)?);
    // 25, 5 and 18 bytes end where the selected body begins.
    let base = b"123456789012345678";
    let in_front = left_by(alloc, &at_the_end, &[(Deed::Fold(base), 48)])?;
    assert!(rt; is_held(alloc, &in_front, &held((slots(0, 25), 48), base, &[]))?);
    // From the front it goes to the end again, over what is left behind it.
    let steps = [(Deed::Append(b"Q"), 54), (Deed::Fold(b""), 59)];
    let again = left_by(alloc, &in_front, &steps)?;
    assert!(rt; is_held(alloc, &again, &held((slots(1, 54), 59), b"", &[]))?);
    Ok(())
}

#[test]
fn a_plain_journal_is_never_folded(rt: HostRuntime) -> Result<(), Fail> {
    let alloc = rt.alloc();
    let plain = b"OTCJRNL1\0\0";
    assert!(rt; !opened_on(alloc, plain)?.has_slots());
    let file = left_by(alloc, plain, &[(Deed::Append(b"AB"), 16)])?;
    assert!(rt; !opened_on(alloc, &file)?.has_slots());
    Ok(())
}

/// The record of the file of one, A's command TRADE A B P 10 2026-03-02 from seat 0.
const ONE_RECORD: [&[u8]; 1] = [
    b"\0\0\0\0\x01A\x01\x01A\x01B\x01P\x0a\0\0\0\0\0\0\0\xea\x07\x03\x02",
];

// Opening has the length and a read; a staging four calls, and a switch two.
#[test]
fn each_call_that_fails_leaves_what_was_held_or_the_base(rt: HostRuntime) -> Result<(), Fail> {
    let change = Change {
        file: &BEGUN_ONE,
        deed: Deed::Fold(b"BASE"),
        before: held((slots(0, 25), 60), b"", &ONE_RECORD),
        after: held((slots(1, 60), 69), b"BASE", &[]),
    };
    for call in 3..=8 {
        let seen = if call < 7 { Seen::Before } else { Seen::Either };
        assert!(rt;
            seen_after(rt.alloc(), &change, call)? == (seen, false),
            "call {call}"
        );
    }
    assert!(rt; seen_after(rt.alloc(), &change, 0)? == (Seen::After, true));
    Ok(())
}
