//! Bases, read from bytes that were written by hand and written again, and files that hold one in front of their records.

ghost use Rattle.std.specs.Prelude.{IfSome};
ghost use Rattle.command_types.specs.Bases.{CanBeWritten};

use crate::disks::{BEGUN, TWO, damaged, is_read, read_over, with};
use crate::houses::named;
use base_codec::{decode_base, encode_base};
use command_types::{Base, Listed, Side, ToleranceRow, TradeRow, TradeState};
use journal_core::JournalFault;
use record_codec::DecodeFault;
use recovery::{BaseAt, Entries};
use std::alloc::Global;
use std::test::Fail;
use units_core::{MemberNo, ProductNo};

/// A base of three members and a product, with a setting and two trades, field by field.
pub const BASE: [u8; 121] = [
    // The mark of the form; position 3, cycle 1, version 2.
    1, 3, 0, 0, 0, 0, 0, 0, 0, 1, 0, 0, 0, 0, 0, 0, 0, 2, 0, 0, 0, 0, 0, 0, 0,
    // Three members A, B and C, and one product P.
    3, 0, 1, b'A', 1, b'B', 1, b'C', 1, 0, 1, b'P',
    // One setting: of member 0 and product 0, with member 1, going out, from 4 to 9.
    1, 0, 0, 0, 0, 0, 0, 0, 0, 0, 0, 0, 1, 0, 0, 4, 0, 0, 0, 0, 0, 0, 0, 1, 9, 0, 0, 0, 0, 0, 0, 0,
    // Two trades.
    2, 0, 0, 0, 0, 0, 0, 0,
    // Member 0 sells 10 to member 1 on 2026-03-02: alleged by the seller.
    0, 0, 1, 0, 0, 0, 10, 0, 0, 0, 0, 0, 0, 0, 0xea, 0x07, 3, 2, 0, 1, 0, 0,
    // Member 1 sells 7 to member 2 on 2026-03-03: live, submitted by the buyer, marked by the seller, both hold.
    1, 0, 2, 0, 0, 0, 7, 0, 0, 0, 0, 0, 0, 0, 0xea, 0x07, 3, 3, 1, 2, 1, 3,
];

/// The place of the base in the file below, and that of the gate behind it.
pub const AT: usize = 29;

const GATE: usize = 150;

/// The file with that base in slot 0, and B's command AFFIRM 1 behind it, whose gate is byte 150.
pub fn based() -> [u8; 171] {
    let mut file = [0; 171];
    file[..25].copy_from_slice(&BEGUN[..25]);
    file[25] = 121;
    file[AT..GATE].copy_from_slice(&BASE);
    file[GATE..].copy_from_slice(&TWO[38..]);
    file
}

/// Whether the setting is that of the base.
fn is_the_setting(row: &ToleranceRow) -> bool {
    let is_pair = (row.member, row.other) == (MemberNo(0), MemberNo(1));
    let is_side = row.product == ProductNo(0) && matches!(row.side, Side::Out);
    let most = row.ceiling.map_or(0, |ceiling| ceiling.get());
    is_pair && is_side && (row.floor.get(), most) == (4, 9)
}

/// A trade's number, its parties and its product, its amount, and its month and day.
fn terms_of(row: &TradeRow) -> [u64; 7] {
    let (seller, buyer, product) = (row.seller.0, row.buyer.0, row.product.0);
    [
        row.number,
        u64::from(seller),
        u64::from(buyer),
        u64::from(product),
        row.amount.get(),
        u64::from(row.day.month()),
        u64::from(row.day.day()),
    ]
}

/// Whether the trade is the live one of the base.
fn is_the_live_trade(row: &TradeRow) -> bool {
    let is_live = matches!(row.state, TradeState::Live);
    let is_marked = row.submitter == Some(Side::In) && row.mark == Some(Side::Out);
    let is_held = row.hold_out && row.hold_in && !row.frozen;
    terms_of(row) == [2, 1, 2, 0, 7, 3, 3] && is_live && is_marked && is_held
}

/// Whether the trade is the one that waits for the buyer.
fn is_the_alleged_trade(row: &TradeRow) -> bool {
    let is_alleged = matches!(row.state, TradeState::Alleged);
    let is_marked = row.submitter == Some(Side::Out) && row.mark.is_none();
    let is_free = !row.hold_out && !row.hold_in && !row.frozen;
    terms_of(row) == [1, 0, 1, 0, 10, 3, 2] && is_alleged && is_marked && is_free
}

/// Whether all that the bytes say stands in the base.
fn is_the_base(base: &Base) -> bool {
    let is_numbered = (base.position, base.cycle, base.version) == (3, 1, 2);
    let members = [named(b"A"), named(b"B"), named(b"C")];
    let is_named = base.members.rows() == members.as_slice();
    let has_products = base.products.rows() == [named(b"P")].as_slice();
    let has_rows = match (base.tolerances.rows(), base.trades.rows()) {
        ([setting], [alleged, live]) => {
            is_the_setting(setting) && is_the_alleged_trade(alleged) && is_the_live_trade(live)
        }
        _ => false,
    };
    is_numbered && is_named && has_products && has_rows
}

#[test]
fn a_base_is_read(rt: HostRuntime) -> Result<(), Fail> {
    let base = decode_base(rt.alloc(), &BASE)?;
    assert!(rt; is_the_base(&base));
    Ok(())
}

/// The place of a file's base, and whether it is that base.
fn told_of(base: &Option<BaseAt>) -> Option<(u64, bool)> {
    match base {
        Some(BaseAt { at, base }) => Some((*at, is_the_base(base))),
        None => None,
    }
}

/// The place of the gate of the first entry.
fn first_gate(alloc: Global, entries: &Entries) -> Result<Option<u64>, Fail> {
    match entries.reader().next(alloc)? {
        Some(found) => Ok(Some(found.at)),
        None => Ok(None),
    }
}

/// What a file has: the place of its base, and whether it is that base; the place of its first entry's gate, and the end.
fn read_of(alloc: Global, bytes: &[u8]) -> Result<(Option<(u64, bool)>, Option<u64>, u64), Fail> {
    match read_over(alloc, bytes)? {
        Ok(read) => {
            let first = first_gate(alloc, &read.entries)?;
            Ok((told_of(&read.base), first, read.entries.end()))
        }
        Err(_) => Err(Fail::new("it is not read")),
    }
}

#[test]
fn a_base_stands_in_front_of_the_records(rt: HostRuntime) -> Result<(), Fail> {
    assert!(rt; read_of(rt.alloc(), &based())? == (Some((25, true)), Some(150), 171));
    Ok(())
}

/// The base, written.
fn written(alloc: Global, base: &Option<BaseAt>) -> Result<Vec<u8>, Fail>
    requires { IfSome base.now (λ found. CanBeWritten found.base) }
{
    match base {
        Some(found) => Ok(encode_base(alloc, &found.base)?),
        None => Err(Fail::new("there is no base")),
    }
}

/// The base that is read of a file, written again.
fn written_again(alloc: Global, file: &[u8]) -> Result<Vec<u8>, Fail> {
    match read_over(alloc, file)? {
        Ok(read) => written(alloc, &read.base),
        Err(_) => Err(Fail::new("it is not read")),
    }
}

#[test]
fn a_base_is_written_as_it_was_read_with_the_mark_of_moments(rt: HostRuntime) -> Result<(), Fail> {
    assert!(rt; written_again(rt.alloc(), &based())?.as_slice() == with(BASE, 0, &[2]).as_slice());
    Ok(())
}

/// A base of nobody and nothing.
fn empty(alloc: Global) -> Base
    ensures { CanBeWritten result }
{
    Base {
        position: 7,
        cycle: 8,
        version: 9,
        members: Listed::new(Vec::new(alloc)),
        products: Listed::new(Vec::new(alloc)),
        tolerances: Listed::new(Vec::new(alloc)),
        trades: Listed::new(Vec::new(alloc)),
    }
}

#[test]
fn an_empty_base_is_written(rt: HostRuntime) -> Result<(), Fail> {
    let alloc = rt.alloc();
    let mut bytes = [0; 45];
    (bytes[0], bytes[1], bytes[9], bytes[17]) = (2, 7, 8, 9);
    let empty = empty(alloc);
    assert!(rt; encode_base(alloc, &empty)?.as_slice() == bytes.as_slice());
    assert!(rt; decode_base(alloc, &bytes)?.position == 7);
    Ok(())
}

/// Whether these bytes spell a base, or are told as none at this byte.
fn is_told(alloc: Global, bytes: &[u8], offset: Option<usize>) -> bool {
    match decode_base(alloc, bytes) {
        Ok(_) => offset.is_none(),
        Err(fault) => offset.map(|at| DecodeFault::BadRecord { at }) == Some(fault),
    }
}

#[test]
fn each_field_of_a_base_has_its_limits(rt: HostRuntime) -> Result<(), Fail> {
    let all = [0xff; 8];
    let cases = [
        // The marks, and none; a member more, which would begin at the products' number; names of no byte, of a small letter, of 17 bytes.
        (0, [2].as_slice(), None),
        (0, &[0], Some(0)),
        (0, &[3], Some(0)),
        (25, &[4], Some(33)),
        (27, &[0], Some(27)),
        (28, b"a", Some(27)),
        (35, &[17], Some(35)),
        // More settings than stand there, of which a third would have its side in the year; the side, the floor, the ceiling's byte
        // and the ceiling.
        (37, &all, Some(91)),
        (51, &[2], Some(51)),
        (52, &all, Some(52)),
        (60, &[2], Some(60)),
        (61, &all, Some(61)),
        // More trades than stand there, and fewer.
        (69, &[3], Some(121)),
        (69, &all, Some(121)),
        (69, &[1], Some(99)),
        // The amount, the day, the state, the submitter, the mark and the holds.
        (83, &[0], Some(83)),
        (83, &all, Some(83)),
        (93, &[13], Some(91)),
        (95, &[3], Some(95)),
        (96, &[3], Some(96)),
        (97, &[3], Some(97)),
        (98, &[4], Some(98)),
        // What no roster has is spelled all the same: a position, and members past the last.
        (1, &all, None),
        (77, &[0xff, 0xff], None),
    ];
    for (place, bytes, offset) in cases {
        assert!(rt;
            is_told(rt.alloc(), &with(BASE, place, bytes), offset),
            "{bytes:?} at {place}"
        );
    }
    Ok(())
}

#[test]
fn each_cut_of_a_base_spells_none(rt: HostRuntime) -> Result<(), Fail> {
    for size in 0..121 {
        assert!(rt;
            decode_base(rt.alloc(), &BASE[..size]).is_err(),
            "cut to {size}"
        );
    }
    Ok(())
}

#[test]
fn a_base_that_is_not_spelled_is_damage_at_its_offset(rt: HostRuntime) -> Result<(), Fail> {
    let alloc = rt.alloc();
    let (few, all) = ([0xff; 4], [0xff; 8]);
    let cases = [
        (AT, [3].as_slice(), damaged(25)),
        // With the other mark a record without its moment spells no change.
        (AT, &[2], damaged(150)),
        // Settings and trades of a count that passes the file's end.
        (AT + 37, &all, damaged(25)),
        (AT + 69, &all, damaged(25)),
        // A base of 2^32 - 1 bytes; an offset of 2^64 - 1, and one below 25.
        (25, &few, damaged(25)),
        (9, &all, damaged(u64::MAX)),
        (9, &[24], damaged(24)),
        // The other slot is selected, and holds 0.
        (8, &[1], damaged(0)),
        // It is not read.
        (17, &all, Ok((1, 171))),
    ];
    for (place, bytes, answer) in cases {
        assert!(rt;
            is_read(alloc, &with(based(), place, bytes), answer)?,
            "{bytes:?} at {place}"
        );
    }
    Ok(())
}

// Byte 161 is the change's tag.
#[test]
fn damage_of_the_journal_then_of_the_base_then_of_a_record_is_told(
    rt: HostRuntime,
) -> Result<(), Fail> {
    let alloc = rt.alloc();
    let mut record = based();
    record[161] = 13;
    let mut both = record;
    both[AT] = 3;
    let mut open = both;
    open[170] = 1;
    let cases = [
        (record.as_slice(), damaged(150)),
        (&both, damaged(25)),
        (&open, damaged(170)),
        (&both[..170], damaged(170)),
        (&both[..160], damaged(150)),
    ];
    for (file, answer) in cases {
        assert!(rt; is_read(alloc, file, answer)?, "{answer:?}");
    }
    Ok(())
}

/// The answer to the file cut to this size. With fewer than 151 bytes the base or the gate behind it is cut.
fn answer_when_cut(size: usize) -> Result<(usize, u64), JournalFault> {
    match size {
        0..=30 => Ok((0, 30)),
        31..=149 => damaged(25),
        150..=169 => damaged(150),
        170 => damaged(170),
        _ => Ok((1, 171)),
    }
}

#[test]
fn each_cut_of_a_file_with_a_base_has_its_answer(rt: HostRuntime) -> Result<(), Fail> {
    let file = based();
    for size in 0..=171 {
        assert!(rt;
            is_read(rt.alloc(), &file[..size], answer_when_cut(size))?,
            "cut to {size}"
        );
    }
    Ok(())
}
