//! The entries that a journal's file stands for.
ghost use Rattle.std.specs.Prelude.{◌≡◌, ◌<◌, ◌^◌, List};
ghost use Rattle.journal_core.specs.RecordBytes.{walked_of};
ghost use Rattle.journal_core.specs.Walk.{bytes_of, IsWalked};
ghost use Rattle.recovery.specs.declared.entries.EntryAt.{EntryAt};

use crate::EntryReader;
use crate::body::Body;
use command_types::{Entry, Spelling};
use journal_core::{Form, RecordBytes};

/// An entry, and the place of its record's gate in the file.
#[derive(Drop)]
pub struct EntryAt {
    pub at: u64,
    pub entry: Entry,
}

/// A file whose records all spell entries, but for the one that turns it. The entries are made one at a time, as they are read.
#[derive(Drop)]
pub struct Entries {
    pub(crate) records: RecordBytes,
    pub(crate) form: Form,
    pub(crate) end: u64,
    // The spelling in which its body begins, and the one in which it goes on behind its records.
    pub(crate) first: Spelling,
    pub(crate) last: Spelling,
}

impl Entries {
    ghost use Rattle.recovery.specs.Reading.{file_of, form_read, ends_at, last_spelling, bytes_left, HasRead, IsRead, AreLeft, TellAll};

    /// The form of the file.
    pub fn form(&self) -> Form
        ensures { result ≡ form_read self.now }
    {
        self.form
    }

    /// The place just past the gate behind their records, or where that will be once a file that is too short is begun.
    pub fn end(&self) -> u64
        ensures { result ≡ ends_at self.now }
    {
        self.end
    }

    /// The spelling in which the file goes on behind their records.
    pub fn spelling(&self) -> Spelling
        ensures { result ≡ last_spelling self.now }
    {
        self.last
    }

    /// A reader of them, at the first.
    pub fn reader(&self) -> EntryReader<'_>
        ensures few { bytes_left result < 2 ^ 63 }
        ensures all { HasRead self.now → (list : List EntryAt) → IsRead (file_of self.now) list → AreLeft result list }
    {
        EntryReader {
            body: Body {
                records: self.records.records(),
                spelling: self.first,
            },
        }
    }

    /// Their records, and the spelling in which the file's body begins. It takes no memory.
    pub fn into_records(self) -> (RecordBytes, Spelling)
        ensures same { bytes_of (walked_of result.0) ≡ file_of self }
        ensures walked { HasRead self → IsWalked (walked_of result.0) }
        ensures spelled { HasRead self → (list : List EntryAt) → IsRead (file_of self) list → TellAll (file_of self) result.1 list }
    {
        (self.records, self.first)
    }
}
