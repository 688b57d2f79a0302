//! Each other byte at each place of the plain file of one record.

use crate::disks::{ONE, damaged, is_read};
use journal_core::JournalFault;
use std::test::Fail;

/// Whether names have it.
fn is_in_names(byte: u8) -> bool {
    matches!(byte, b'A'..=b'Z' | b'0'..=b'9' | b'-')
}

/// Whether the record still spells a change with this byte at a place of the file. Bytes 13 to 16 are the seat, 17 is the
/// length of the party's name, and so 20, 22 and 24 of the trade's; another length takes a byte into the name that names
/// do not have, or passes the record's end. 19 is the tag: no other kind of change has the 18 bytes behind it. 26 to 33 are
/// the amount, 10 to begin with, at least 1 and at most 10^18, which is below 14 * 2^56. 34 and 35 are the year 0x07ea, at
/// most 9999, and 36 and 37 the month 3 and the day 2.
fn is_spelling(place: usize, byte: u8) -> bool {
    match place {
        13..=16 => true,
        18 | 21 | 23 | 25 => is_in_names(byte),
        26 => byte > 0,
        27..=32 => true,
        33 => byte < 14,
        34 => true,
        35 => byte < 39,
        36 => (1..=12).contains(&byte),
        37 => (1..=31).contains(&byte),
        _ => false,
    }
}

/// The answer to the file with another byte at this place. With a C in byte 7 it is one with slots, of which byte 8 selects
/// the second, bytes 17 to 24: no base stands there. A smaller length ends the record before the byte 13 + length:
/// where that is 01 no record stands behind it, and else the record is cut and spells no change. A length of 26 takes the
/// closed gate too.
fn answer_with(place: usize, byte: u8) -> Result<(usize, u64), JournalFault> {
    match (place, byte) {
        (7, b'C') => damaged(u64::from_le_bytes([1, b'A', 1, 1, b'A', 1, b'B', 1])),
        (0..=7, _) => damaged(0),
        (8, _) => Ok((0, 9)),
        (9, 4 | 6 | 7 | 9 | 11) => damaged(13 + u64::from(byte)),
        (9, 26) => damaged(39),
        (9..=12, _) => damaged(8),
        (38, 1) => damaged(38),
        (38, _) => Ok((1, 39)),
        _ if is_spelling(place, byte) => Ok((1, 39)),
        _ => damaged(8),
    }
}

#[test]
fn each_other_byte_at_each_place_has_its_answer(rt: HostRuntime) -> Result<(), Fail> {
    for place in 0..39 {
        for byte in 0..=255 {
            let mut file = ONE;
            if file[place] != byte {
                file[place] = byte;
                assert!(rt;
                    is_read(rt.alloc(), &file, answer_with(place, byte))?,
                    "byte {byte} at {place}"
                );
            }
        }
    }
    Ok(())
}
