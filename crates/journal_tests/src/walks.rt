//! Walks over whole, cut and damaged files.

use crate::crashes::ONE_AND_MORE;
use crate::disks::{BEGUN_ONE, ONE, is_walked, walked_over};
use journal_core::{JournalFault, Walked};
use std::alloc::Global;
use std::test::Fail;

/// Whether a walk found this record alone, with its gate there, and this end.
fn is_only(walked: &Walked, at: u64, record: &[u8], end: u64) -> bool {
    let mut records = walked.records();
    let is_found = match records.next() {
        Some(found) => found.at == at && found.bytes == record,
        None => false,
    };
    is_found && walked.end == end && records.next().is_none()
}

/// Whether a walk over these bytes does.
fn has_only(alloc: Global, bytes: &[u8], at: u64, record: &[u8], end: u64) -> Result<bool, Fail> {
    match walked_over(alloc, bytes)? {
        Ok(walked) => Ok(is_only(&walked, at, record, end)),
        Err(_) => Ok(false),
    }
}

#[test]
fn a_record_is_found_with_its_gate_and_its_bytes(rt: HostRuntime) -> Result<(), Fail> {
    assert!(rt; has_only(rt.alloc(), &ONE, 8, &ONE[13..38], 39)?);
    assert!(rt; has_only(rt.alloc(), &ONE_AND_MORE, 8, &ONE[13..38], 39)?);
    assert!(rt; has_only(rt.alloc(), &BEGUN_ONE, 29, &ONE[13..38], 60)?);
    Ok(())
}

/// The answer to the plain file cut to this size. With fewer it will be begun with slots, and end at byte 30. From 10 bytes on a gate is due at byte 8, and only with 38 there stands a
/// whole record behind it. Then the next gate is due at byte 38.
fn answer_when_cut(size: usize) -> Result<(usize, u64), JournalFault> {
    match size {
        0..=9 => Ok((0, 30)),
        10..=37 => Err(JournalFault::Damaged { offset: 8 }),
        38 => Err(JournalFault::Damaged { offset: 38 }),
        _ => Ok((1, 39)),
    }
}

#[test]
fn each_cut_of_the_file_has_its_answer(rt: HostRuntime) -> Result<(), Fail> {
    for size in 0..=39 {
        assert!(rt;
            is_walked(rt.alloc(), &ONE[..size], answer_when_cut(size))?,
            "cut to {size}"
        );
    }
    Ok(())
}

#[test]
fn behind_a_closed_gate_no_cut_matters(rt: HostRuntime) -> Result<(), Fail> {
    let mut file = ONE;
    file[8] = 7;
    for size in 0..=39 {
        let end = if size < 10 { 30 } else { 9 };
        assert!(rt;
            is_walked(rt.alloc(), &file[..size], Ok((0, end)))?,
            "cut to {size}"
        );
    }
    Ok(())
}

/// The answer to the plain file with another byte at this place. With a C in byte 7 it is one with slots, of which byte 8
/// selects the second, bytes 17 to 24. A smaller length ends the record before the byte 13 + length,
/// which is then the next gate: where it is 01, no record stands behind it. A length of 26 takes the closed gate too.
fn answer_with(place: usize, byte: u8) -> Result<(usize, u64), JournalFault> {
    let length = u64::from(byte);
    match (place, byte) {
        (7, b'C') => Err(JournalFault::Damaged {
            offset: u64::from_le_bytes([1, b'A', 1, 1, b'A', 1, b'B', 1]),
        }),
        (0..=7, _) => Err(JournalFault::Damaged { offset: 0 }),
        (8, _) => Ok((0, 9)),
        (9, 4 | 6 | 7 | 9 | 11) => Err(JournalFault::Damaged {
            offset: 13 + length,
        }),
        (9, 0..=24) => Ok((1, 14 + length)),
        (9, 26) => Err(JournalFault::Damaged { offset: 39 }),
        (9..=12, _) => Err(JournalFault::Damaged { offset: 8 }),
        (38, 1) => Err(JournalFault::Damaged { offset: 38 }),
        _ => Ok((1, 39)),
    }
}

#[test]
fn each_other_byte_at_each_place_has_its_answer(rt: HostRuntime) -> Result<(), Fail> {
    for place in 0..39 {
        for byte in 0..=255 {
            let mut file = ONE;
            if file[place] != byte {
                file[place] = byte;
                assert!(rt;
                    is_walked(rt.alloc(), &file, answer_with(place, byte))?,
                    "byte {byte} at {place}"
                );
            }
        }
    }
    Ok(())
}

#[test]
fn a_short_file_holds_no_records_whatever_it_has(rt: HostRuntime) -> Result<(), Fail> {
    let files = [b"\x01\x01\x01".as_slice(), b"OTCJRNL1\x01".as_slice()];
    for file in files {
        assert!(rt; is_walked(rt.alloc(), file, Ok((0, 30)))?);
    }
    Ok(())
}
