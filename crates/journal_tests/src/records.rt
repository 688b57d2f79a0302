//! Each kind of change, written and read.

ghost use Rattle.std.specs.Prelude.{◌≤◌, is_some, IsTrue};
ghost use Rattle.command_types.specs.Machine.{changes};
ghost use Rattle.command_types.specs.Spelling.{posted, most_solutions};

use crate::houses::named;
use command_types::{Ask, Entry, Level, Mode, Moment, Side, What};
use record_codec::{Spelling, decode, encode, encode_short, length};
use std::alloc::{AllocError, Global};
use std::test::Fail;
use units_core::{Amount, Day, Name};

/// TRADE A B P 10 2026-03-02, by A from seat 0.
pub const TRADE: [u8; 25] = [
    0, 0, 0, 0, 1, 0x41, 1, 1, 0x41, 1, 0x42, 1, 0x50, 10, 0, 0, 0, 0, 0, 0, 0, 0xea, 0x07, 3, 2,
];

/// AFFIRM 1, by B from seat 0.
pub const AFFIRM: [u8; 15] = [0, 0, 0, 0, 1, 0x42, 2, 1, 0, 0, 0, 0, 0, 0, 0];

// ACCEPT 1 2, by B from seat 0.
const ACCEPT: [u8; 23] = [
    0, 0, 0, 0, 1, 0x42, 10, 1, 0, 0, 0, 0, 0, 0, 0, 2, 0, 0, 0, 0, 0, 0, 0,
];

/// 2026-03-31 12:00:00 in UTC, as a record has it.
pub const NOON: [u8; 8] = [0x40, 0xb7, 0xcb, 0x69, 0, 0, 0, 0];

/// The same moment, in seconds.
const NOON_SECONDS: u64 = 1_774_958_400;

/// The second spelling of a change at that moment, of which these are the bytes of the first.
pub fn timed(alloc: Global, bytes: &[u8]) -> Result<Vec<u8>, AllocError> {
    let mut whole = Vec::new(alloc);
    whole.extend_from_slice(&NOON)?;
    whole.extend_from_slice(bytes)?;
    Ok(whole)
}

/// The name of this text.
fn name_of(text: &[u8]) -> Result<Name, AllocError> {
    Name::read(text).ok_or(AllocError)
}

/// Whether this is written as the moment and these bytes, and is as long.
fn is_entry_written(alloc: Global, entry: &Entry, bytes: &[u8]) -> Result<bool, AllocError>
    requires party { IsTrue (is_some entry.now.ask.by) }
    requires change { IsTrue (changes entry.now.ask.what) }
    requires few { posted entry.now.ask.what ≤ most_solutions }
{
    let whole = timed(alloc, bytes)?;
    let is_as_long = length(entry) == whole.len() as u64;
    Ok(is_as_long && encode(alloc, entry)?.as_slice() == whole.as_slice())
}

/// Whether that holds of this party's change from that seat.
fn is_written(alloc: Global, seat: u32, by: Name, what: What, bytes: &[u8]) -> Result<bool, Fail>
    requires change { IsTrue (changes what) }
    requires few { posted what ≤ most_solutions }
{
    let entry = Entry {
        seat,
        ask: Ask {
            by: Some(by),
            what,
            moment: Moment::new(NOON_SECONDS),
        },
    };
    Ok(is_entry_written(alloc, &entry, bytes)?)
}

#[test]
fn a_trade_is_written(rt: HostRuntime) -> Result<(), Fail> {
    let what = What::Trade {
        seller: named(b"A"),
        buyer: named(b"B"),
        product: named(b"P"),
        amount: Amount::new(10).ok_or("an amount")?,
        day: Day::new(2026, 3, 2).ok_or("a day")?,
    };
    assert!(rt; is_written(rt.alloc(), 0, named(b"A"), what, &TRADE)?);
    Ok(())
}

/// B's bytes of a change of one number with this tag.
fn of_one_number(tag: u8) -> [u8; 15] {
    let mut bytes = AFFIRM;
    bytes[6] = tag;
    bytes
}

#[test]
fn changes_of_numbers_are_written(rt: HostRuntime) -> Result<(), Fail> {
    let (alloc, b) = (rt.alloc(), named(b"B"));
    let mut declined = ACCEPT;
    declined[6] = 11;
    let (cycle, version) = (1, 2);
    assert!(rt; is_written(alloc, 0, b, What::Affirm { trade: 1 }, &AFFIRM)?);
    assert!(rt; is_written(alloc, 0, b, What::End { trade: 1 }, &of_one_number(3))?);
    assert!(rt; is_written(alloc, 0, b, What::Hold { trade: 1 }, &of_one_number(4))?);
    assert!(rt; is_written(alloc, 0, b, What::Decline { cycle, version }, &declined)?);
    Ok(())
}

/// The record of this party's ACCEPT from that seat.
fn accepted(
    alloc: Global,
    seat: u32,
    by: Name,
    cycle: u64,
    version: u64,
) -> Result<Vec<u8>, AllocError> {
    let entry = Entry {
        seat,
        ask: Ask {
            by: Some(by),
            what: What::Accept { cycle, version },
            moment: Moment::new(NOON_SECONDS),
        },
    };
    encode(alloc, &entry)
}

/// Whether it is the same without memory as with it, of this length.
fn is_written_alike(
    alloc: Global,
    seat: u32,
    by: &[u8],
    numbers: (u64, u64),
    size: usize,
) -> Result<bool, Fail> {
    let by = name_of(by)?;
    let (cycle, version) = numbers;
    let moment = Moment::new(NOON_SECONDS);
    let mut into = [0xff; 64];
    let written = encode_short(seat, &by, cycle, version, moment, &mut into);
    let bytes = accepted(alloc, seat, by, cycle, version)?;
    Ok(written == size && into.get(..size) == Some(bytes.as_slice()))
}

#[test]
fn an_accept_is_written_without_memory(rt: HostRuntime) -> Result<(), Fail> {
    let mut into = [0xff; 64];
    let moment = Moment::new(NOON_SECONDS);
    let size = encode_short(0, &named(b"B"), 1, 2, moment, &mut into);
    assert!(rt; into.get(..size) == Some(timed(rt.alloc(), &ACCEPT)?.as_slice()));
    let most = (u64::MAX, u64::MAX);
    let cases = [
        (0, b"B".as_slice(), (1, 2), 31),
        (1_000_000, b"MEMBER-2", (256, 0), 38),
        (u32::MAX, b"ABCDEFGHIJKLMNOP", most, 46),
    ];
    for (seat, by, numbers, size) in cases {
        assert!(rt;
            is_written_alike(rt.alloc(), seat, by, numbers, size)?,
            "{size}"
        );
    }
    Ok(())
}

/// A's tolerance from seat 7: P into it from B, with the floor 4 and the ceiling 9.
const TOLERANCE: [u8; 29] = [
    7, 0, 0, 0, 1, 0x41, 6, 1, 0x42, 1, 0x50, 1, 4, 0, 0, 0, 0, 0, 0, 0, 1, 9, 0, 0, 0, 0, 0, 0, 0,
];

#[test]
fn a_tolerance_is_written(rt: HostRuntime) -> Result<(), Fail> {
    let what = What::Tol {
        other: named(b"B"),
        product: named(b"P"),
        side: Side::In,
        floor: Level::new(4).ok_or("a level")?,
        ceiling: Level::new(9),
    };
    assert!(rt; is_written(rt.alloc(), 7, named(b"A"), what, &TOLERANCE)?);
    Ok(())
}

/// The modes, each with its byte.
const MODES: [(Mode, u8); 3] = [(Mode::Conservative, 0), (Mode::Hybrid, 1), (Mode::Free, 2)];

#[test]
fn a_freeze_and_a_beginning_are_written(rt: HostRuntime) -> Result<(), Fail> {
    let (alloc, a) = (rt.alloc(), named(b"A"));
    let day = Day::new(2026, 12, 31).ok_or("a day")?;
    let frozen = [0, 0, 0, 0, 1, 0x41, 7, 0xea, 0x07, 12, 31];
    assert!(rt; is_written(alloc, 0, a, What::Freeze { day }, &frozen)?);
    for (mode, byte) in MODES {
        let begun = [0, 0, 0, 0, 1, 0x41, 8, 1, 0, 0, 0, 0, 0, 0, 0, byte];
        assert!(rt; is_written(alloc, 0, a, What::Begin { cycle: 1, mode }, &begun)?);
        assert!(rt; is_spelled(alloc, &begun, 0, b"A", (8, [1, u64::from(byte), 0, 0, 0]))?);
    }
    Ok(())
}

/// What a change is, by its tag, its numbers and its day.
fn told_of(what: &What) -> (u8, [u64; 5]) {
    match what {
        What::Trade { amount, day, .. } => (1, dated(amount.get(), day)),
        What::Affirm { trade } => (2, [*trade, 0, 0, 0, 0]),
        What::End { trade } => (3, [*trade, 0, 0, 0, 0]),
        What::Hold { trade } => (4, [*trade, 0, 0, 0, 0]),
        What::Free { trade } => (5, [*trade, 0, 0, 0, 0]),
        What::Tol {
            side,
            floor,
            ceiling,
            ..
        } => {
            let is_in = u64::from(matches!(side, Side::In));
            let most = ceiling.map_or(0, |most| most.get());
            (6, [is_in, floor.get(), most, 0, 0])
        }
        What::Freeze { day } => (7, dated(0, day)),
        What::Begin { cycle, mode } => {
            let byte = match mode {
                Mode::Conservative => 0,
                Mode::Hybrid => 1,
                Mode::Free => 2,
            };
            (8, [*cycle, byte, 0, 0, 0])
        }
        What::Accept { cycle, version } => (10, [*cycle, *version, 0, 0, 0]),
        What::Decline { cycle, version } => (11, [*cycle, *version, 0, 0, 0]),
        What::Cancel { cycle } => (12, [*cycle, 0, 0, 0, 0]),
        _ => (0, [0; 5]),
    }
}

fn dated(number: u64, day: &Day) -> [u64; 5] {
    let (year, month, of_month) = (day.year(), day.month(), day.day());
    [
        number,
        u64::from(year),
        u64::from(month),
        u64::from(of_month),
        0,
    ]
}

/// A change's seat and party, its moment, and what it is.
type Heard = (u32, Option<Name>, u64, (u8, [u64; 5]));

fn heard(alloc: Global, bytes: &[u8], form: Spelling) -> Result<Heard, Fail> {
    let entry = decode(alloc, bytes, form)?;
    let Ask { by, what, moment } = &entry.ask;
    Ok((entry.seat, *by, moment.seconds(), told_of(what)))
}

/// Whether these bytes are this party's change from that seat, as told: without a moment, and at noon with it in front.
fn is_spelled(
    alloc: Global,
    bytes: &[u8],
    seat: u32,
    by: &[u8],
    told: (u8, [u64; 5]),
) -> Result<bool, Fail> {
    let by = Some(name_of(by)?);
    let is_untimed = heard(alloc, bytes, Spelling::First)? == (seat, by, 0, told);
    let whole = timed(alloc, bytes)?;
    let is_timed = heard(alloc, &whole, Spelling::Second)? == (seat, by, NOON_SECONDS, told);
    Ok(is_untimed && is_timed)
}

/// The parties and the product of a trade of these bytes.
fn names_in(alloc: Global, bytes: &[u8]) -> Result<Option<[Name; 3]>, Fail> {
    let entry = decode(alloc, bytes, Spelling::First)?;
    Ok(match &entry.ask.what {
        What::Trade {
            seller,
            buyer,
            product,
            ..
        } => Some([*seller, *buyer, *product]),
        _ => None,
    })
}

#[test]
fn changes_are_read(rt: HostRuntime) -> Result<(), Fail> {
    let mut declined = ACCEPT;
    declined[6] = 11;
    let (ended, held, freed, cancelled) = (
        of_one_number(3),
        of_one_number(4),
        of_one_number(5),
        of_one_number(12),
    );
    let frozen = [0, 0, 0, 0, 3, 0x4f, 0x50, 0x53, 7, 0xea, 0x07, 12, 31];
    let begun = [
        0, 0, 0, 0, 3, 0x4f, 0x50, 0x53, 8, 1, 0, 0, 0, 0, 0, 0, 0, 1,
    ];
    let cases = [
        (
            TRADE.as_slice(),
            0,
            b"A".as_slice(),
            (1, [10, 2026, 3, 2, 0]),
        ),
        (&AFFIRM, 0, b"B", (2, [1, 0, 0, 0, 0])),
        (&ended, 0, b"B", (3, [1, 0, 0, 0, 0])),
        (&held, 0, b"B", (4, [1, 0, 0, 0, 0])),
        (&freed, 0, b"B", (5, [1, 0, 0, 0, 0])),
        (&TOLERANCE, 7, b"A", (6, [1, 4, 9, 0, 0])),
        (&frozen, 0, b"OPS", (7, [0, 2026, 12, 31, 0])),
        (&begun, 0, b"OPS", (8, [1, 1, 0, 0, 0])),
        (&ACCEPT, 0, b"B", (10, [1, 2, 0, 0, 0])),
        (&declined, 0, b"B", (11, [1, 2, 0, 0, 0])),
        (&cancelled, 0, b"B", (12, [1, 0, 0, 0, 0])),
    ];
    for (bytes, seat, by, told) in cases {
        assert!(rt; is_spelled(rt.alloc(), bytes, seat, by, told)?, "{told:?}");
    }
    let names = [named(b"A"), named(b"B"), named(b"P")];
    assert!(rt; names_in(rt.alloc(), &TRADE)? == Some(names));
    Ok(())
}
