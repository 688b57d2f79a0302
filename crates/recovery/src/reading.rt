//! What a disk's journal holds.
ghost use Rattle.std.specs.Prelude.{◌≡◌, List, ℕ, Err, IfOk, IfErr, IfSome, OnOk};
ghost use Rattle.command_types.specs.Bases.{CanBeWritten};
ghost use Rattle.outside.specs.Faults.{CountsWhere};
ghost use Rattle.journal_core.specs.Holds.{Holds};
ghost use Rattle.journal_core.specs.Journal.{EndsAt, HasForm};
ghost use Rattle.journal_core.specs.Walk.{bytes_of, gate_of, placed, IsWalked};
ghost use Rattle.recovery.specs.Bodies.{changes_of, spelling_after};
ghost use Rattle.recovery.specs.Reading.{form_read, ends_at, last_spelling, AreSpelled, HasRead, IsFaultAmong, IsBaseOf, IsBaseFault};
ghost use Rattle.recovery.specs.Reading.{FindsEntries, FindsSpelling, FindsBase, GivesOnly, FindsFault};

use crate::body::{Body, spelling_behind};
use crate::reader::read_entry;
use crate::{BaseAt, Contents, Entries};
use base_codec::decode_base;
use command_types::Spelling;
use journal_core::{Form, JournalFault, Walked, walk};
use outside::Disk;
use record_codec::DecodeFault;
use std::alloc::Global;

// The base of a file, if it has one.
fn read_base(alloc: Global, walked: &Walked) -> Result<Option<BaseAt>, JournalFault>
    requires { IsWalked walked.now }
    ensures found { IfOk result (IsBaseOf walked.now) }
    ensures fault { IfErr result (IsBaseFault walked.now) }
{
    let Form::Slots { offset, .. } = walked.form else {
        return Ok(None);
    };
    let bytes = walked.base();
    if bytes.is_empty() {
        return Ok(None);
    }
    match decode_base(alloc, bytes) {
        Ok(base) => Ok(Some(BaseAt { at: offset, base })),
        Err(DecodeFault::BadRecord { .. }) => Err(JournalFault::Damaged { offset }),
        Err(DecodeFault::Memory) => Err(JournalFault::Memory),
    }
}

// Goes over a file's records, of a body that begins in this spelling, and fails at the first that is to spell an entry and spells
// none. It tells the spelling in which the body goes on behind them.
fn read_all(alloc: Global, walked: &Walked, first: Spelling) -> Result<Spelling, JournalFault>
    requires { IsWalked walked.now }
    ensures spelled { (base : List ℕ) (records : List (List ℕ)) → Holds (bytes_of walked.now) base records → OnOk result (AreSpelled (changes_of first (placed (gate_of walked.now) records))) }
    ensures last { (base : List ℕ) (records : List (List ℕ)) → Holds (bytes_of walked.now) base records → IfOk result (λ last. last ≡ spelling_after first records) }
    ensures fault { (base : List ℕ) (records : List (List ℕ)) → Holds (bytes_of walked.now) base records → IfErr result (IsFaultAmong (changes_of first (placed (gate_of walked.now) records))) }
{
    let mut body = Body {
        records: walked.records(),
        spelling: first,
    };
    while let Some(found) = body.next() {
        read_entry(alloc, &found, body.spelling)?;
    }
    Ok(body.spelling)
}

/// The base and the entries that a journal's file stands for, the entries to be read one after another, the place just past the
/// gate behind their records, and the spelling in which the file goes on there. `Damaged` comes only where it stands for none,
/// with the one place that is told: the place at which it is damaged as a journal of byte records, or else the offset of a base
/// that is spelled by no bytes, or else the gate of the first record that spells no change and does not turn the file. Whether
/// the base fits a roster is not asked. It writes nothing, and keeps no entry.
pub fn read_entries<D: Disk>(alloc: Global, disk: &mut D) -> Result<Contents, JournalFault>
    ensures read { IfOk result (λ c. HasRead c.entries) }
    ensures found { IfOk result (λ c. FindsEntries (D.history disk.old) c.entries) }
    ensures base { IfOk result (λ c. FindsBase (D.history disk.old) c.base) }
    // So a machine can be made of it.
    ensures written { IfOk result (λ c. IfSome c.base (λ x. CanBeWritten x.base)) }
    ensures ends { IfOk result (λ c. EndsAt (D.history disk.old) (form_read c.entries) (ends_at c.entries)) }
    ensures form { IfOk result (λ c. HasForm (D.history disk.old) (form_read c.entries)) }
    ensures spelling { IfOk result (λ c. FindsSpelling (D.history disk.old) (last_spelling c.entries)) }
    ensures only { GivesOnly (D.history disk.old) result }
    ensures fault { IfErr result (FindsFault (D.history disk.old)) }
    ensures same { D.history disk.new ≡ D.history disk.old }
    ensures counts { CountsWhere (result ≡ Err JournalFault.DiskFault) (D.fault_count disk.old) (D.fault_count disk.new) }
{
    let walked = walk(alloc, disk)?;
    let base = read_base(alloc, &walked)?;
    let first = spelling_behind(walked.base());
    let last = read_all(alloc, &walked, first)?;
    let (form, end) = (walked.form, walked.end);
    let records = walked.into_records();
    Ok(Contents {
        base,
        entries: Entries {
            records,
            form,
            end,
            first,
            last,
        },
    })
}
