//! Reading a roster file.
ghost use Rattle.std.specs.Prelude.{◌≡◌, ◌≤◌, ◌⊎◌, length, Ok, Err, IfOk, IfErr};
ghost use Rattle.csv.specs.Records.{fields_of};
ghost use Rattle.command_types.specs.Roster.{IsRoster};
ghost use Rattle.command_types.specs.declared.file_fault.FileFault.TheVariants.{Memory};
ghost use Rattle.trade_file.specs.RosterFile.{roster_file, roster_of, records_of, with_record};
ghost use Rattle.trade_file.specs.Draft.{IsDraft, rows_of, Steps};
ghost use Rattle.units_core.specs.declared.limits.TheConstants.{MOST_FILE};

use crate::draft::Draft;
use crate::roster_row::{read_row, reads_header};
use command_types::{FileFault, Roster};
use csv::{ByteRecord, ReaderBuilder};
use std::alloc::Global;
use units_core::MOST_FILE;

// Takes the record with this number into the draft.
fn take_record(draft: &mut Draft, number: u64, record: &ByteRecord) -> Result<(), FileFault>
    requires { IsDraft draft.old }
    ensures { Steps (with_record number (rows_of draft.old) (fields_of record.now)) draft.new result }
{
    if number == 1 {
        if reads_header(record) {
            return Ok(());
        }
        return Err(FileFault::Columns { row: 1 });
    }
    match read_row(number, record) {
        Ok(row) => draft.add(number, row),
        Err(fault) => Err(fault),
    }
}

// The draft of all records of a file.
fn read_records(alloc: Global, bytes: &[u8]) -> Result<Draft, FileFault>
    requires { length bytes.now ≤ MOST_FILE }
    ensures rows { IfOk result (λ draft. roster_of (records_of bytes.now) ≡ Ok (rows_of draft)) }
    ensures draft { IfOk result (λ draft. IsDraft draft) }
    ensures fault { IfErr result (λ fault. (fault ≡ Memory) ⊎ (roster_of (records_of bytes.now) ≡ Err fault)) }
{
    let reader = ReaderBuilder::new()
        .has_headers(false)
        .flexible(true)
        .from_reader(alloc, bytes);
    let mut draft = Draft::new(alloc);
    let mut number = 0;
    for record in reader.into_byte_records() {
        let Ok(record) = record else {
            return Err(FileFault::Memory);
        };
        number += 1;
        take_record(&mut draft, number, &record)?;
    }
    if number == 0 {
        return Err(FileFault::Columns { row: 1 });
    }
    Ok(draft)
}

/// The roster that a file's bytes say, or the file's first fault, with the number of its record, counted from 1. The
/// records are those of comma-separated text with double quotes; the first is `name,role,key`, and each other one a
/// dealer, customer, operator or product by its second field. Want of memory may come at any place.
pub fn read_roster(alloc: Global, bytes: &[u8]) -> Result<Roster, FileFault>
    ensures rows { IfOk result (λ rows. roster_file bytes.now ≡ Ok rows) }
    ensures roster { IfOk result (λ rows. IsRoster rows) }
    ensures fault { IfErr result (λ fault. (fault ≡ Memory) ⊎ (roster_file bytes.now ≡ Err fault)) }
{
    if bytes.len() > MOST_FILE {
        return Err(FileFault::TooLong);
    }
    match read_records(alloc, bytes) {
        Ok(draft) => Ok(draft.into_roster()),
        Err(fault) => Err(fault),
    }
}
