//! A file's entries, read one after another.
ghost use Rattle.std.specs.Prelude.{◌≡◌, ◌<◌, ◌∷◌, [], List, IfOk, IfErr, IfSome, IfNone, OnErr};
ghost use Rattle.recovery.specs.declared.entries.EntryAt.{EntryAt};
ghost use Rattle.journal_core.specs.declared.fault.JournalFault.TheVariants.{Memory};
ghost use Rattle.recovery.specs.Reading.{SpellsAt, IsFaultAmong};

use crate::EntryAt;
use crate::body::Body;
use command_types::Spelling;
use journal_core::{JournalFault, RecordAt};
use record_codec::{DecodeFault, decode};
use std::alloc::Global;

// The entry that a record of this spelling spells.
pub(crate) fn read_entry(
    alloc: Global,
    found: &RecordAt<'_>,
    spelling: Spelling,
) -> Result<EntryAt, JournalFault>
    ensures found { IfOk result (SpellsAt (found.now.at, (spelling, found.now.bytes.now))) }
    ensures fault { IfErr result (IsFaultAmong ((found.now.at, (spelling, found.now.bytes.now)) ∷ [])) }
{
    match decode(alloc, found.bytes, spelling) {
        Ok(entry) => Ok(EntryAt {
            at: found.at,
            entry,
        }),
        Err(DecodeFault::BadRecord { .. }) => Err(JournalFault::Damaged { offset: found.at }),
        Err(DecodeFault::Memory) => Err(JournalFault::Memory),
    }
}

/// Reads the entries of a file whose records all spell some, but for the one that turns it.
#[derive(Drop)]
pub struct EntryReader<'a> {
    pub(crate) body: Body<'a>,
}

impl<'a> EntryReader<'a> {
    ghost use Rattle.recovery.specs.Reading.{AreLeft, IsNext, bytes_left};

    /// The next entry, if there is one. The only fault is want of memory. Where none is told, the reader stands where it stood.
    pub fn next(&mut self, alloc: Global) -> Result<Option<EntryAt>, JournalFault>
        ensures next { (list : List EntryAt) → AreLeft self.old list → IfOk result (IsNext list self.new) }
        ensures fault { (list : List EntryAt) → AreLeft self.old list → IfErr result (λ e. e ≡ Memory) }
        ensures same { OnErr result (self.new ≡ self.old) }
        ensures same_at_end { IfOk result (λ o. IfNone o (self.new ≡ self.old)) }
        ensures shorter { IfOk result (λ o. IfSome o (λ _. bytes_left self.new < bytes_left self.old)) }
    {
        let mut body = self.body;
        let Some(found) = body.next() else {
            return Ok(None);
        };
        let item = read_entry(alloc, &found, body.spelling)?;
        self.body = body;
        Ok(Some(item))
    }
}
