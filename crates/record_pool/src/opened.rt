//! Records that were read when a journal was opened.
ghost use Rattle.std.specs.Prelude.{◌≡◌, ◌+◌, ◌<◌, ◌^◌, [], ◌∷◌, List, ℕ, length, slice_index_or, IfOk};
ghost use Rattle.command_types.specs.declared.spelling.Spelling.TheVariants.{Second};
ghost use Rattle.journal_core.specs.Holds.{Holds};
ghost use Rattle.journal_core.specs.RecordBytes.{walked_of};
ghost use Rattle.journal_core.specs.Records.{AreAhead};
ghost use Rattle.journal_core.specs.Walk.{bytes_of, IsWalked};
ghost use Rattle.recovery.specs.Bodies.{changes_in};
ghost use Rattle.record_pool.specs.Opened.{HoldsThese, IsMarked};

use crate::marks::{Marks, STEP};
use crate::parts::Parts;
use command_types::Spelling;
use journal_core::{RecordBytes, Records};
use std::alloc::{AllocError, Global};
use std::marker::Model;

/// The records that a walk found. Contracts see those that spell changes, each with its spelling.
#[derive(Drop)]
pub(crate) struct Opened {
    bytes: RecordBytes,
    marks: Marks,
    first: u64,
    skipped: u64,
}

impl Model for Opened {
    ghost use Rattle.std.specs.Prelude.{List};
    ghost use Rattle.recovery.specs.Bodies.{Written};
    ghost use Rattle.record_pool.specs.Parts.{parted};
    ghost use Rattle.record_pool.specs.Opened.{IsOpened};

    ghost Value = { List Written };

    ghost view = { λ o. parted o.marks.records o.first o.skipped };

    ghost invariant = { λ o. IsOpened o.bytes o.marks o.first o.skipped };
}

// The next of some records.
fn next_of<'a>(ahead: &mut Records<'a>) -> &'a [u8]
    ensures { (bytes : List ℕ) (others : List (List ℕ)) → AreAhead ahead.old.at ahead.old.rest.now (bytes ∷ others) → (result.now ≡ bytes) × AreAhead ahead.new.at ahead.new.rest.now others }
{
    match ahead.next() {
        Some(found) => found.bytes,
        None => &[],
    }
}

// The marks of the records of a file that begins in this spelling, and their parts.
fn marks_of(
    alloc: Global,
    bytes: &RecordBytes,
    start: Spelling,
) -> Result<(Marks, Parts), AllocError>
    requires { IsWalked (walked_of bytes.now) }
    ensures { IfOk result (λ m. IsMarked (bytes_of (walked_of bytes.now)) start m.0.records m.1) }
{
    let mut marks = Marks::new(alloc);
    let mut parts = Parts {
        spelling: start,
        first: 0,
        skipped: 0,
    };
    let mut ahead = bytes.records();
    let gate = ahead.at;
    while let Some(found) = ahead.next() {
        marks.make_room(1)?;
        marks.push(found.at - gate, found.bytes);
        parts = parts.behind(found.bytes);
    }
    Ok((marks, parts))
}

// The bytes of a record.
fn record_of<'a>(bytes: &'a RecordBytes, marks: &Marks, number: u64) -> &'a [u8]
    requires walked { IsWalked (walked_of bytes.now) }
    requires held { HoldsThese (bytes_of (walked_of bytes.now)) marks.now.records }
    requires inside { number < length marks.now.records }
    ensures { result.now ≡ slice_index_or marks.now.records number [] }
{
    let whole = bytes.records();
    let (_passed, rest) = whole.rest.split_at(marks.near(number) as usize);
    let mut ahead = Records { at: 0, rest };
    for _before in 0..number % STEP {
        let _record = next_of(&mut ahead);
    }
    next_of(&mut ahead)
}

impl Opened {
    /// The records of a file that begins in this spelling. The only error is want of memory.
    pub(crate) fn of(
        alloc: Global,
        bytes: RecordBytes,
        start: Spelling,
    ) -> Result<Opened, AllocError>
        requires { IsWalked (walked_of bytes) }
        ensures { IfOk result (λ opened. (base : List ℕ) (records : List (List ℕ)) → Holds (bytes_of (walked_of bytes)) base records → opened ≡ changes_in start records) }
    {
        let (marks, parts) = marks_of(alloc, &bytes, start)?;
        Ok(Opened {
            bytes,
            marks,
            first: parts.first,
            skipped: parts.skipped,
        })
    }

    /// How many changes they spell.
    pub(crate) fn len(&self) -> u64
        ensures count { result ≡ length self.now }
        ensures few { result < 2 ^ 63 }
    {
        self.marks.len() - self.skipped
    }

    /// A change's spelling and its bytes. It takes no memory.
    pub(crate) fn get(&self, number: u64) -> (Spelling, &[u8])
        requires { number < length self.now }
        ensures { (result.0, result.1.now) ≡ slice_index_or self.now number (Second, []) }
    {
        if number < self.first {
            return (Spelling::First, record_of(&self.bytes, &self.marks, number));
        }
        (
            Spelling::Second,
            record_of(&self.bytes, &self.marks, number + self.skipped),
        )
    }
}
