//! The entries that files have.

use crate::disks::{BEGUN_ONE, ONE, TURNED_TWO, TWO, append_to, disk_of, holds, read_over};
use crate::houses::named;
use crate::records::AFFIRM;
use command_types::{Entry, Spelling, What};
use outside::MemoryDisk;
use recovery::{Entries, EntryAt, EntryReader};
use std::alloc::Global;
use std::test::Fail;

/// A's command TRADE A B P 10 2026-03-02 from seat 0, B's command AFFIRM 1 from seat 0, or another one.
#[derive(Clone, Copy, PartialEq, Eq)]
enum Kind {
    Trade,
    Affirmation,
    Other,
}

/// The place of an entry's gate, what it is, and its moment.
type Told = (u64, Kind, u64);

fn is_the_trade(entry: &Entry) -> bool {
    let What::Trade {
        seller,
        buyer,
        product,
        amount,
        day,
    } = &entry.ask.what
    else {
        return false;
    };
    let is_said_by_a = entry.seat == 0 && entry.ask.by == Some(named(b"A"));
    let has_names = *seller == named(b"A") && *buyer == named(b"B") && *product == named(b"P");
    let has_numbers = amount.get() == 10 && (day.year(), day.month(), day.day()) == (2026, 3, 2);
    is_said_by_a && has_names && has_numbers
}

fn is_the_affirmation(entry: &Entry) -> bool {
    let is_said_by_b = entry.seat == 0 && entry.ask.by == Some(named(b"B"));
    is_said_by_b && matches!(entry.ask.what, What::Affirm { trade: 1 })
}

fn told_of(item: &EntryAt) -> Told {
    let kind = if is_the_trade(&item.entry) {
        Kind::Trade
    } else if is_the_affirmation(&item.entry) {
        Kind::Affirmation
    } else {
        Kind::Other
    };
    (item.at, kind, item.entry.ask.moment.seconds())
}

/// Whether the next entry is this one, or there is none.
fn is_next(alloc: Global, reader: &mut EntryReader<'_>, told: Option<Told>) -> Result<bool, Fail> {
    match reader.next(alloc)? {
        Some(item) => Ok(told == Some(told_of(&item))),
        None => Ok(told.is_none()),
    }
}

/// Whether these are the entries.
fn are(alloc: Global, entries: &Entries, rows: &[Told]) -> Result<bool, Fail> {
    let mut reader = entries.reader();
    for row in rows {
        if !is_next(alloc, &mut reader, Some(*row))? {
            return Ok(false);
        }
    }
    is_next(alloc, &mut reader, None)
}

/// Whether a file of these bytes has no base, these entries, that end, and goes on in this spelling.
fn has(
    alloc: Global,
    bytes: &[u8],
    rows: &[Told],
    end: u64,
    spelling: Spelling,
) -> Result<bool, Fail> {
    match read_over(alloc, bytes)? {
        Ok(read) => {
            let goes_on = read.entries.end() == end && read.entries.spelling() == spelling;
            Ok(read.base.is_none() && goes_on && are(alloc, &read.entries, rows)?)
        }
        Err(_) => Ok(false),
    }
}

#[test]
fn entries_come_in_the_order_of_their_records(rt: HostRuntime) -> Result<(), Fail> {
    let mut other = ONE;
    other[38] = 7;
    let mut turned = TURNED_TWO;
    turned[51] = 0;
    let first = (8, Kind::Trade, 0);
    let behind_the_turn = (51, Kind::Affirmation, 1_774_958_400);
    let cases = [
        (b"".as_slice(), [].as_slice(), 30, Spelling::First),
        (&ONE, &[first], 39, Spelling::First),
        (&other, &[first], 39, Spelling::First),
        (&BEGUN_ONE, &[(29, Kind::Trade, 0)], 60, Spelling::First),
        (
            &TWO,
            &[first, (38, Kind::Affirmation, 0)],
            59,
            Spelling::First,
        ),
        (&turned, &[first], 52, Spelling::Second),
        (&TURNED_TWO, &[first, behind_the_turn], 80, Spelling::Second),
    ];
    for (file, rows, end, spelling) in cases {
        assert!(rt; has(rt.alloc(), file, rows, end, spelling)?, "up to {end}");
    }
    Ok(())
}

/// The disk that a crash leaves of the file of one record once B's affirmation was appended to it.
fn affirmed(alloc: Global) -> Result<MemoryDisk, Fail> {
    let (disk, answer) = append_to(alloc, disk_of(alloc, &ONE)?, &AFFIRM)?;
    match answer {
        Ok(()) => Ok(disk.crash()),
        Err(_) => Err(Fail::new("a call of the disk failed")),
    }
}

#[test]
fn a_journal_goes_on_where_the_entries_end(rt: HostRuntime) -> Result<(), Fail> {
    let mut disk = affirmed(rt.alloc())?;
    assert!(rt; holds(&mut disk, &TWO)?);
    Ok(())
}
