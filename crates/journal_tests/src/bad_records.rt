//! Records that break the grammar: the first byte of the first field that does, that is cut, or that is too many.

use crate::disks::with;
use crate::records::{AFFIRM, TRADE};
use record_codec::{DecodeFault, Spelling, decode};
use std::alloc::Global;
use std::test::Fail;

/// Whether these bytes spell a change without a moment, or are told as no record at this byte.
pub fn is_told(alloc: Global, bytes: &[u8], offset: Option<usize>) -> bool {
    is_told_as(alloc, bytes, Spelling::First, offset)
}

/// The same in this spelling.
fn is_told_as(alloc: Global, bytes: &[u8], form: Spelling, offset: Option<usize>) -> bool {
    match decode(alloc, bytes, form) {
        Ok(_) => offset.is_none(),
        Err(fault) => offset.map(|at| DecodeFault::BadRecord { at }) == Some(fault),
    }
}

#[test]
fn fields_of_a_trade(rt: HostRuntime) -> Result<(), Fail> {
    let amount = with(TRADE, 13, &[0]);
    let buyer = with(amount, 9, &[0]);
    let seller = with(buyer, 8, &[0x61]);
    let party = with(seller, 4, &[17]);
    let february = with(with(TRADE, 24, &[30]), 23, &[2]);
    let april = with(february, 23, &[4]);
    let cases = [
        (amount, Some(13)),
        (buyer, Some(9)),
        (seller, Some(7)),
        (party, Some(4)),
        (february, Some(21)),
        (april, None),
    ];
    for (record, offset) in cases {
        assert!(rt; is_told(rt.alloc(), &record, offset), "{offset:?}");
    }
    Ok(())
}

#[test]
fn an_unknown_tag(rt: HostRuntime) -> Result<(), Fail> {
    for tag in [0, 13] {
        assert!(rt;
            is_told(rt.alloc(), &with(AFFIRM, 6, &[tag]), Some(6)),
            "{tag}"
        );
    }
    Ok(())
}

#[test]
fn fields_of_a_tolerance(rt: HostRuntime) -> Result<(), Fail> {
    let whole = [
        7, 0, 0, 0, 1, 0x41, 6, 1, 0x42, 1, 0x50, 1, 4, 0, 0, 0, 0, 0, 0, 0, 0,
    ];
    let ceiling = with(whole, 20, &[2]);
    let floor = with(ceiling, 19, &[0x7f]);
    let cases = [
        (whole, None),
        (with(whole, 20, &[1]), Some(21)),
        (ceiling, Some(20)),
        (floor, Some(12)),
        (with(floor, 11, &[2]), Some(11)),
    ];
    for (record, offset) in cases {
        assert!(rt; is_told(rt.alloc(), &record, offset), "{offset:?}");
    }
    Ok(())
}

#[test]
fn the_mode_of_a_beginning(rt: HostRuntime) -> Result<(), Fail> {
    let free = [0, 0, 0, 0, 1, 0x41, 8, 1, 0, 0, 0, 0, 0, 0, 0, 2];
    let cases = [
        (free, None),
        (with(free, 15, &[3]), Some(15)),
        (with(free, 15, &[255]), Some(15)),
    ];
    for (record, offset) in cases {
        assert!(rt; is_told(rt.alloc(), &record, offset), "{offset:?}");
    }
    Ok(())
}

#[test]
fn cut_fields_and_a_byte_too_many(rt: HostRuntime) -> Result<(), Fail> {
    let long = [0, 0, 0, 0, 1, 0x42, 2, 1, 0, 0, 0, 0, 0, 0, 0, 0, 0];
    let cases = [
        ([].as_slice(), Some(0)),
        (&TRADE[..3], Some(0)),
        (&TRADE[..5], Some(4)),
        (&TRADE[..6], Some(6)),
        (&TRADE[..8], Some(7)),
        (&TRADE[..20], Some(13)),
        (&TRADE[..24], Some(21)),
        (&AFFIRM[..14], Some(7)),
        (&long, Some(15)),
        (&long[..15], None),
    ];
    for (record, offset) in cases {
        assert!(rt; is_told(rt.alloc(), record, offset), "{offset:?}");
    }
    Ok(())
}

#[test]
fn a_moment_has_a_most_and_stands_in_the_second_spelling(rt: HostRuntime) -> Result<(), Fail> {
    let mut last = [0; 23];
    last[..8].copy_from_slice(&253_402_300_799_u64.to_le_bytes());
    last[8..].copy_from_slice(&AFFIRM);
    let cases = [
        (last.as_slice(), Spelling::Second, None),
        (&with(last, 0, &[0x80]), Spelling::Second, Some(0)),
        (&last[..7], Spelling::Second, Some(0)),
        (&last[..11], Spelling::Second, Some(8)),
        (&with(last, 14, &[13]), Spelling::Second, Some(14)),
        (&AFFIRM, Spelling::Second, Some(0)),
        (&last, Spelling::First, Some(4)),
        (b"MOMENTS2", Spelling::First, Some(4)),
        (b"MOMENTS2", Spelling::Second, Some(0)),
    ];
    for (record, form, offset) in cases {
        assert!(rt; is_told_as(rt.alloc(), record, form, offset), "{offset:?}");
    }
    Ok(())
}
