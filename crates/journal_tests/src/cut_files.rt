//! Cut files, and records that spell no change.

use crate::disks::{BEGUN_ONE, FIRST_TAG, ONE, SECOND_TAG, TURNED_TWO, TWO, damaged, is_read};
use journal_core::JournalFault;
use std::test::Fail;

/// The answer to the plain file of two records cut to this size. With fewer bytes it will be begun with slots. From 10 bytes on a gate is due at byte 8, with 38 one at byte
/// 38, and with 58 one at byte 58; a record ends where the next gate is due.
fn answer_when_cut(size: usize) -> Result<(usize, u64), JournalFault> {
    match size {
        0..=9 => Ok((0, 30)),
        10..=37 => damaged(8),
        38..=57 => damaged(38),
        58 => damaged(58),
        _ => Ok((2, 59)),
    }
}

#[test]
fn each_cut_of_a_file_has_its_answer(rt: HostRuntime) -> Result<(), Fail> {
    for size in 0..=59 {
        assert!(rt;
            is_read(rt.alloc(), &TWO[..size], answer_when_cut(size))?,
            "cut to {size}"
        );
    }
    Ok(())
}

/// The answer to the file with slots and one record cut to this size. From 31 bytes on a gate is due at byte 29, and with 59
/// one at byte 59, where the record ends.
fn answer_in_slots_when_cut(size: usize) -> Result<(usize, u64), JournalFault> {
    match size {
        0..=30 => Ok((0, 30)),
        31..=58 => damaged(29),
        59 => damaged(59),
        _ => Ok((1, 60)),
    }
}

#[test]
fn each_cut_of_a_file_with_slots_has_its_answer(rt: HostRuntime) -> Result<(), Fail> {
    for size in 0..=60 {
        assert!(rt;
            is_read(
                rt.alloc(),
                &BEGUN_ONE[..size],
                answer_in_slots_when_cut(size)
            )?,
            "cut to {size}"
        );
    }
    Ok(())
}

/// The file of two records with these tags.
fn tagged(first: u8, second: u8) -> [u8; 59] {
    let mut file = TWO;
    file[FIRST_TAG] = first;
    file[SECOND_TAG] = second;
    file
}

#[test]
fn the_first_record_that_spells_no_change_decides(rt: HostRuntime) -> Result<(), Fail> {
    let cases = [(1, 13, 38), (13, 13, 8), (13, 2, 8)];
    for (first, second, place) in cases {
        assert!(rt;
            is_read(rt.alloc(), &tagged(first, second), damaged(place))?,
            "tags {first} and {second}"
        );
    }
    Ok(())
}

#[test]
fn damage_of_the_journal_decides_over_a_record_before_it(rt: HostRuntime) -> Result<(), Fail> {
    let bad = tagged(13, 2);
    let mut open = bad;
    open[58] = 1;
    let mut headless = open;
    headless[0] = 0;
    let cases = [
        (&bad[..58], 58),
        (&bad[..50], 38),
        (&open, 58),
        (&headless, 0),
    ];
    for (file, place) in cases {
        assert!(rt; is_read(rt.alloc(), file, damaged(place))?, "at {place}");
    }
    Ok(())
}

#[test]
fn a_record_of_less_or_more_than_a_change_spells_none(rt: HostRuntime) -> Result<(), Fail> {
    let mut long = [0; 40];
    long[..39].copy_from_slice(&ONE);
    let whole = long;
    long[9] = 26;
    let cases = [
        (b"OTCJRNL1\x01\0\0\0\0\0".as_slice(), damaged(8)),
        (&long, damaged(8)),
        (&whole, Ok((1, 39))),
    ];
    for (file, answer) in cases {
        assert!(rt; is_read(rt.alloc(), file, answer)?, "{answer:?}");
    }
    Ok(())
}

#[test]
fn what_is_short_or_behind_a_closed_gate_is_not_read(rt: HostRuntime) -> Result<(), Fail> {
    let mut one = tagged(1, 13);
    one[38] = 0;
    let mut none = tagged(13, 13);
    none[38] = 0;
    none[8] = 7;
    let cases = [
        (one.as_slice(), (1, 39)),
        (&none, (0, 9)),
        (&none[..30], (0, 9)),
        (b"", (0, 30)),
        (b"\x01\x01\x01", (0, 30)),
        (b"OTCJRNL1\0", (0, 30)),
        (b"OTCJRNL1\x01", (0, 30)),
        (b"OTCJRNLC\x01\x01", (0, 30)),
    ];
    for (file, answer) in cases {
        assert!(rt; is_read(rt.alloc(), file, Ok(answer))?, "{answer:?}");
    }
    Ok(())
}

/// The answer to the turned file of two changes cut to this size: a gate is due at the bytes 8, 38, 51 and 79.
fn answer_when_turned_and_cut(size: usize) -> Result<(usize, u64), JournalFault> {
    match size {
        0..=9 => Ok((0, 30)),
        10..=37 => damaged(8),
        38..=50 => damaged(38),
        51..=78 => damaged(51),
        79 => damaged(79),
        _ => Ok((2, 80)),
    }
}

#[test]
fn each_cut_of_a_turned_file_has_its_answer(rt: HostRuntime) -> Result<(), Fail> {
    for size in 0..=80 {
        assert!(rt;
            is_read(
                rt.alloc(),
                &TURNED_TWO[..size],
                answer_when_turned_and_cut(size)
            )?,
            "cut to {size}"
        );
    }
    Ok(())
}

/// The turned file with a change without moment, or a second turn, in place of its last change.
fn behind_the_turn(record_bytes: &[u8]) -> [u8; 80] {
    let mut file = TURNED_TWO;
    let size = record_bytes.len().min(20);
    file[52] = size as u8;
    file[56..56 + size].copy_from_slice(&record_bytes[..size]);
    file[56 + size] = 0;
    file
}

#[test]
fn a_change_has_a_moment_exactly_behind_the_turn(rt: HostRuntime) -> Result<(), Fail> {
    let mut early = TURNED_TWO;
    early[43..51].copy_from_slice(b"MOMENTS1");
    let mut last = TURNED_TWO;
    last[56..64].copy_from_slice(&253_402_300_799u64.to_le_bytes());
    let mut late = TURNED_TWO;
    late[56..64].copy_from_slice(&253_402_300_800u64.to_le_bytes());
    let cases = [
        (early, damaged(38)),
        (behind_the_turn(&TWO[43..58]), damaged(51)),
        (behind_the_turn(b"MOMENTS2"), damaged(51)),
        (last, Ok((2, 80))),
        (late, damaged(51)),
    ];
    for (file, answer) in cases {
        assert!(rt; is_read(rt.alloc(), &file, answer)?, "{answer:?}");
    }
    Ok(())
}
