//! The records of a body, read one after another.
ghost use Rattle.std.specs.Prelude.{◌≡◌, ◌<◌, List, ℕ, length, IfSome, IfNone};
ghost use Rattle.command_types.specs.Bases as bases;
ghost use Rattle.recovery.specs.Bodies as bodies;
ghost use Rattle.recovery.specs.Reading.{AreAheadOf, HasNone, IsFirstOf};

use command_types::Spelling;
use journal_core::{RecordAt, Records};

// The spelling in which a body begins behind these bytes of a base.
pub(crate) fn spelling_behind(base: &[u8]) -> Spelling
    ensures { result ≡ bases.spelling_behind base.now }
{
    match base {
        [2, ..] => Spelling::Second,
        _ => Spelling::First,
    }
}

// Whether a record turns a body that is in this spelling.
fn turns(spelling: Spelling, bytes: &[u8]) -> bool
    ensures { result ≡ bodies.turns spelling bytes.now }
{
    match spelling {
        Spelling::First => bytes == b"MOMENTS2".as_slice(),
        Spelling::Second => false,
    }
}

/// The records of a body that are still to be read, and the spelling in which they are.
#[derive(Clone, Copy)]
pub(crate) struct Body<'a> {
    pub(crate) records: Records<'a>,
    pub(crate) spelling: Spelling,
}

impl<'a> Body<'a> {
    /// The next record that is to spell a change, in the spelling that the body has then. The one that turns the body is passed
    /// over.
    pub(crate) fn next(&mut self) -> Option<RecordAt<'a>>
        ensures some { (records : List (List ℕ)) → AreAheadOf self.old records → IfSome result (λ r. IsFirstOf self.old self.new records (r.at, (self.new.spelling, r.bytes.now))) }
        ensures none { (records : List (List ℕ)) → AreAheadOf self.old records → IfNone result (HasNone self.old self.new records) }
        ensures shorter { IfSome result (λ _. length self.new.records.rest.now < length self.old.records.rest.now) }
    {
        let found = self.records.next()?;
        if !turns(self.spelling, found.bytes) {
            return Some(found);
        }
        self.spelling = Spelling::Second;
        let behind = self.records.next()?;
        Some(behind)
    }
}
