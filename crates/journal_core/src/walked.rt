//! What a walk over a journal answers.
ghost use Rattle.std.specs.Prelude.{◌≡◌, ◌-◌, ◌<◌, ◌≤◌, ◌^◌, List, ℕ, length, take, drop};
ghost use Rattle.journal_core.specs.Holds.{Holds};
ghost use Rattle.journal_core.specs.Records.{AreAhead};

use crate::{Form, RecordBytes, Records};
use std::snapshot::Snapshot;

/// A file that holds a base and records: its form, and the place just past the gate behind the records. The base stands from
/// one place to the other, which is that of the first gate.
#[derive(Drop)]
pub struct Walked {
    pub(crate) bytes: Vec<u8>,
    pub(crate) base: usize,
    pub(crate) gate: usize,
    pub form: Form,
    pub end: u64,
    ghost within: { (base ≤ gate) × (gate ≤ length bytes.items) },
}

// The bytes from one place to the other, in the room of all, of which the rest is given back.
fn part(bytes: Vec<u8>, first: usize, last: usize) -> Vec<u8>
    requires order { first ≤ last }
    requires within { last ≤ length bytes.items }
    ensures { result.items ≡ take (last - first) (drop first bytes.items) }
{
    let mut kept = bytes;
    kept.copy_within(first..last, 0);
    kept.truncate(last - first);
    kept.shrink_to_fit();
    kept
}

impl Walked {
    ghost use Rattle.journal_core.specs.Walk.{bytes_of, base_of, gate_of, IsWalked};
    ghost use Rattle.journal_core.specs.RecordBytes.{walked_of};

    /// The base's bytes, none where there is no base. It takes no memory.
    pub fn base(&self) -> &[u8]
        ensures { result.now ≡ base_of self.now }
    {
        &self.bytes[self.base..self.gate]
    }

    /// The file's records, to be read one after another. It takes no memory.
    pub fn records(&self) -> Records<'_>
        ensures first { result.at ≡ gate_of self.now }
        ensures few { length result.rest.now < 2 ^ 63 }
        ensures all { IsWalked self.now → (base : List ℕ) (records : List (List ℕ)) → Holds (bytes_of self.now) base records → AreAhead result.at result.rest.now records }
    {
        Records {
            at: self.gate as u64,
            rest: &self.bytes[self.gate..],
        }
    }

    /// The file's records alone, with the gate behind them. Of a file with a base, the memory of all other bytes is given back: of
    /// what stands before the first gate, and of what stands behind the closed one. It takes none.
    pub fn into_records(self) -> RecordBytes
        requires { IsWalked self }
        ensures { walked_of result ≡ self }
    {
        let walked = Snapshot::of(&self);
        let at = self.gate as u64;
        let last = self.bytes.len().min(self.end as usize);
        if self.base < self.gate {
            return RecordBytes {
                walked,
                at,
                first: 0,
                bytes: part(self.bytes, self.gate, last),
            };
        }
        let mut bytes = self.bytes;
        bytes.truncate(last);
        bytes.shrink_to_fit();
        RecordBytes {
            walked,
            at,
            first: self.gate,
            bytes,
        }
    }
}
