//! Reading a trade file.
ghost use Rattle.std.specs.Prelude.{◌≡◌, ◌≢◌, ◌≤◌, ◌⊎◌, length, Ok, Err, IfOk, IfErr};
ghost use Rattle.csv.specs.Records.{fields_of};
ghost use Rattle.command_types.specs.declared.file_fault.FileFault.TheVariants.{Memory, Columns};
ghost use Rattle.trade_file.specs.RosterFile.{records_of};
ghost use Rattle.trade_file.specs.TradeFile.{trade_file, trades_of, with_trade_record, AreFileTrades};
ghost use Rattle.trade_file.specs.TradeDraft.{IsTradeDraft, trades_of_draft, TradeSteps};
ghost use Rattle.units_core.specs.declared.limits.TheConstants.{MOST_FILE};

use crate::file_trade::FileTrade;
use crate::pieces::Readers;
use crate::plain_file::read_plain;
use crate::trade_draft::TradeDraft;
use crate::trade_row::{read_row, reads_header};
use command_types::{FileFault, Roster};
use csv::{ByteRecord, ReaderBuilder};
use std::alloc::Global;
use std::thread::Threads;
use units_core::MOST_FILE;

// Takes the record with this number into the draft.
fn take_record(
    draft: &mut TradeDraft,
    roster: &Roster,
    number: u64,
    record: &ByteRecord,
) -> Result<(), FileFault>
    requires { IsTradeDraft draft.old }
    ensures { TradeSteps (with_trade_record roster.now number (trades_of_draft draft.old) (fields_of record.now)) draft.new result }
{
    if number == 1 {
        if reads_header(record) {
            return Ok(());
        }
        return Err(FileFault::Columns { row: 1 });
    }
    if draft.is_full() {
        return Err(FileFault::RowLimit { row: number });
    }
    match read_row(roster, number, record) {
        Ok(trade) => draft.add(number, trade),
        Err(fault) => Err(fault),
    }
}

// The draft of a file of so many records.
fn whole_draft(draft: TradeDraft, records: u64) -> Result<TradeDraft, FileFault>
    ensures draft { IfOk result (λ whole. (whole ≡ draft) × (records ≢ 0)) }
    ensures fault { IfErr result (λ fault. (fault ≡ Columns 1) × (records ≡ 0)) }
{
    if records == 0 {
        return Err(FileFault::Columns { row: 1 });
    }
    Ok(draft)
}

// The draft of all records of a file. Each record is read into the place of the one before it.
fn read_records(alloc: Global, bytes: &[u8], roster: &Roster) -> Result<TradeDraft, FileFault>
    requires { length bytes.now ≤ MOST_FILE }
    ensures trades { IfOk result (λ draft. trades_of roster.now (records_of bytes.now) ≡ Ok (trades_of_draft draft)) }
    ensures fault { IfErr result (λ fault. (fault ≡ Memory) ⊎ (trades_of roster.now (records_of bytes.now) ≡ Err fault)) }
{
    let mut reader = ReaderBuilder::new()
        .has_headers(false)
        .flexible(true)
        .from_reader(alloc, bytes);
    let mut record = ByteRecord::new(alloc);
    let mut draft = TradeDraft::new(alloc);
    for number in 1..u64::MAX {
        let Ok(found) = reader.read_byte_record(&mut record) else {
            return Err(FileFault::Memory);
        };
        if !found {
            return whole_draft(draft, number - 1);
        }
        take_record(&mut draft, roster, number, &record)?;
    }
    unreachable!()
}

// The draft of a file: of its plain rows, or of all its records where these may not be plain.
fn read_draft<R: Threads + Sync>(
    alloc: Global,
    bytes: &[u8],
    roster: &Roster,
    readers: &Readers<'_, R>,
) -> Result<TradeDraft, FileFault>
    requires { length bytes.now ≤ MOST_FILE }
    ensures trades { IfOk result (λ draft. trades_of roster.now (records_of bytes.now) ≡ Ok (trades_of_draft draft)) }
    ensures fault { IfErr result (λ fault. (fault ≡ Memory) ⊎ (trades_of roster.now (records_of bytes.now) ≡ Err fault)) }
{
    match read_plain(alloc, bytes, roster, readers) {
        Ok(Some(draft)) => Ok(draft),
        Ok(None) => read_records(alloc, bytes, roster),
        Err(_) => Err(FileFault::Memory),
    }
}

/// The trades that a file's bytes say, in the order of their records, or the file's first fault, with the number of
/// its record, counted from 1. The records are those of comma-separated text with double quotes; the first is
/// `seller,buyer,product,amount`, and each other one a trade of the roster's members and products. Amounts are in the
/// contract's currency unit. The readers share what has no quotes and no fault. Want of memory may come at any place.
pub fn read_trades<R: Threads + Sync>(
    alloc: Global,
    bytes: &[u8],
    roster: &Roster,
    readers: &Readers<'_, R>,
) -> Result<Vec<FileTrade>, FileFault>
    ensures trades { IfOk result (λ trades. trade_file roster.now bytes.now ≡ Ok trades.items) }
    ensures within { IfOk result (λ trades. AreFileTrades roster.now trades.items) }
    ensures fault { IfErr result (λ fault. (fault ≡ Memory) ⊎ (trade_file roster.now bytes.now ≡ Err fault)) }
{
    if bytes.len() > MOST_FILE {
        return Err(FileFault::TooLong);
    }
    match read_draft(alloc, bytes, roster, readers) {
        Ok(draft) => Ok(draft.into_trades()),
        Err(fault) => Err(fault),
    }
}
