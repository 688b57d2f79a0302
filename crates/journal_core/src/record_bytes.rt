//! The bytes of a file's records, kept without the rest of the file.
ghost use Rattle.std.specs.Prelude.{◌≡◌, ◌≤◌, ◌<◌, ◌^◌, List, ℕ, length, drop};
ghost use Rattle.journal_core.specs.Holds.{Holds};
ghost use Rattle.journal_core.specs.Records.{AreAhead};
ghost use Rattle.journal_core.specs.Walk.{bytes_of, gate_of, records_of, IsWalked};

use crate::{Records, Walked};
use std::snapshot::Snapshot;

/// The records of a file that a walk found, to be read one after another.
#[derive(Drop)]
pub struct RecordBytes {
    // The file as it was walked over, for contracts alone.
    pub(crate) walked: Snapshot<Walked>,
    // Where the first gate has its place in the file, and where in the bytes.
    pub(crate) at: u64,
    pub(crate) first: usize,
    pub(crate) bytes: Vec<u8>,
    ghost place: { at ≡ gate_of walked.value },
    ghost within: { first ≤ length bytes.items },
    ghost same: { drop first bytes.items ≡ records_of walked.value },
}

impl RecordBytes {
    ghost use Rattle.journal_core.specs.RecordBytes.{walked_of};

    /// The records, to be read one after another. It takes no memory.
    pub fn records(&self) -> Records<'_>
        ensures first { result.at ≡ gate_of (walked_of self.now) }
        ensures few { length result.rest.now < 2 ^ 63 }
        ensures all { IsWalked (walked_of self.now) → (base : List ℕ) (records : List (List ℕ)) → Holds (bytes_of (walked_of self.now)) base records → AreAhead result.at result.rest.now records }
    {
        Records {
            at: self.at,
            rest: &self.bytes[self.first..],
        }
    }
}
