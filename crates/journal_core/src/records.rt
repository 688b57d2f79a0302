//! The records of a file, read one after another.
ghost use Rattle.std.specs.Prelude.{◌≡◌, ◌<◌, [], List, ℕ, length, IfSome, IfNone};
ghost use Rattle.journal_core.specs.Records.{AreAhead, IsNext};

use crate::parts::{behind_open, record_of};

/// A record, and the place of its gate in the file.
#[derive(Drop)]
pub struct RecordAt<'a> {
    pub at: u64,
    pub bytes: &'a [u8],
}

/// The records of a file that are still to be read: the place where the next one has its gate, and the bytes from there on.
#[derive(Clone, Copy)]
pub struct Records<'a> {
    pub at: u64,
    pub rest: &'a [u8],
}

impl<'a> Records<'a> {
    /// The next record, if there is one; if not, nothing changes. It takes no memory.
    pub fn next(&mut self) -> Option<RecordAt<'a>>
        ensures place { IfSome result (λ r. r.at ≡ self.old.at) }
        ensures some { (records : List (List ℕ)) → AreAhead self.old.at self.old.rest.now records → IfSome result (λ r. IsNext self.old.at records r.bytes.now self.new.at self.new.rest.now) }
        ensures none { (records : List (List ℕ)) → AreAhead self.old.at self.old.rest.now records → IfNone result (records ≡ []) }
        ensures same { IfNone result (self.new ≡ self.old) }
        ensures shorter { IfSome result (λ _. length self.new.rest.now < length self.old.rest.now) }
    {
        let body = behind_open(self.rest)?;
        let (bytes, after) = record_of(body)?;
        let at = self.at;
        self.at = at.saturating_add(5 + bytes.len() as u64);
        self.rest = after;
        Some(RecordAt { at, bytes })
    }
}
