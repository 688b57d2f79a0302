//! Houses that fold at their opening: behind 1,000 changes and behind one fewer, to the end and to the front, and with each
//! call of the disk that fails.

use crate::disks::BEGUN;
use crate::house_lives::{End, Life, Party, Said, Step, Told, fails_in_each, is_found, is_lived};
use crate::houses::{content_opened, large_disk_of, turned};
use std::alloc::{AllocError, Global};
use std::test::Fail;

/// The frame of A's command TRADE A B P 1 2026-03-02 from seat 0, but for the closed gate behind it.
const TRADE: [u8; 30] =
    *b"\x01\x19\0\0\0\0\0\0\0\x01A\x01\x01A\x01B\x01P\x01\0\0\0\0\0\0\0\xea\x07\x03\x02";

/// The front of that of B's command AFFIRM, up to the trade's number.
const AFFIRM: [u8; 12] = *b"\x01\x0f\0\0\0\0\0\0\0\x01B\x02";

/// The same of moment 0.
const DATED_TRADE: [u8; 38] =
    *b"\x01\x21\0\0\0\0\0\0\0\0\0\0\0\0\0\0\0\x01A\x01\x01A\x01B\x01P\x01\0\0\0\0\0\0\0\xea\x07\x03\x02";

const DATED_AFFIRM: [u8; 20] = *b"\x01\x17\0\0\0\0\0\0\0\0\0\0\0\0\0\0\0\x01B\x02";

/// Puts the frames of trades that are alleged and affirmed, so many of them from this number on, in place of the last byte.
fn push_trades(
    file: &mut Vec<u8>,
    first: u64,
    count: u64,
    trade: &[u8],
    affirm: &[u8],
) -> Result<(), AllocError> {
    let _ = file.pop();
    for number in first..first.saturating_add(count) {
        file.extend_from_slice(trade)?;
        file.extend_from_slice(affirm)?;
        file.extend_from_slice(&number.to_le_bytes())?;
    }
    file.push(0)?;
    Ok(())
}

/// A file with slots of so many trades, each alleged and affirmed.
pub fn file_of(alloc: Global, trades: u64) -> Result<Vec<u8>, AllocError> {
    let mut file = BEGUN.to_vec(alloc)?;
    push_trades(&mut file, 1, trades, &TRADE, &AFFIRM)?;
    Ok(file)
}

/// Whether this selector is written, and this offset in its slot, at which a base of this length stands, with a closed gate
/// behind it.
fn is_selected(file: &[u8], selector: u8, offset: u32, length: u32) -> bool {
    let slot = if selector == 1 { 17 } else { 9 };
    let body = offset as usize;
    let gate = body.saturating_add(4).saturating_add(length as usize);
    let named = file.get(slot..slot + 8) == Some(u64::from(offset).to_le_bytes().as_slice());
    let sized = file.get(body..body.saturating_add(4)) == Some(length.to_le_bytes().as_slice());
    file.get(8) == Some(&selector) && named && sized && file.get(gate) == Some(&0)
}

const HELD_BEHIND_A_THOUSAND: [Step; 2] = [
    (Party::Operator, Said::Nets, 1000, Told::Gross(500)),
    (Party::B, Said::Hold(500), 1001, Told::Done),
];

#[test]
fn a_thousand_changes_are_folded(rt: HostRuntime) -> Result<(), Fail> {
    let alloc = rt.alloc();
    let file = file_of(alloc, 500)?;
    let folded = content_opened(&rt, alloc, &file)?;
    assert!(rt; file.len() == 25_030 && folded.len() == 36_088);
    assert!(rt; is_selected(&folded, 1, 25_030, 11_053));
    let slot = folded.get(9..17) == file.get(9..17);
    assert!(rt; slot && folded.get(25..25_030) == file.get(25..));
    // What was folded is not folded again, nor turned.
    assert!(rt; content_opened(&rt, alloc, &folded)?.as_slice() == folded.as_slice());
    let life = Life {
        file: &folded,
        failing: 0,
        first: &[],
        then: &HELD_BEHIND_A_THOUSAND,
        end: End::Open,
    };
    assert!(rt; is_lived(&rt, alloc, &life, (1001, 500), (1001, 500))?);
    Ok(())
}

#[test]
fn one_change_fewer_is_not_folded(rt: HostRuntime) -> Result<(), Fail> {
    let alloc = rt.alloc();
    let mut file = file_of(alloc, 499)?;
    let _ = file.pop();
    file.extend_from_slice(&TRADE)?;
    file.push(0)?;
    assert!(rt; content_opened(&rt, alloc, &file)?.as_slice() == turned(alloc, &file)?.as_slice());
    Ok(())
}

#[test]
fn a_plain_journal_is_not_folded(rt: HostRuntime) -> Result<(), Fail> {
    let alloc = rt.alloc();
    let mut file = b"OTCJRNL1\0".to_vec(alloc)?;
    push_trades(&mut file, 1, 500, &TRADE, &AFFIRM)?;
    assert!(rt; content_opened(&rt, alloc, &file)?.as_slice() == turned(alloc, &file)?.as_slice());
    Ok(())
}

// 25 bytes and the new body's 22,058 end before the old body, which stands at 25,030. Behind a fold changes have their moments.
#[test]
fn the_next_thousand_are_folded_to_the_front(rt: HostRuntime) -> Result<(), Fail> {
    let alloc = rt.alloc();
    let mut file = content_opened(&rt, alloc, &file_of(alloc, 500)?)?;
    push_trades(&mut file, 501, 500, &DATED_TRADE, &DATED_AFFIRM)?;
    let folded = content_opened(&rt, alloc, &file)?;
    assert!(rt; folded.len() == file.len() && is_selected(&folded, 0, 25, 22_053));
    assert!(rt; is_found(&rt, alloc, large_disk_of(alloc, &folded)?, (2000, 1000))?);
    Ok(())
}

// The length and a read, four calls of the staging and two of the switch.
#[test]
fn each_call_of_a_fold_may_fail(rt: HostRuntime) -> Result<(), Fail> {
    let alloc = rt.alloc();
    assert!(rt; fails_in_each(&rt, alloc, &file_of(alloc, 500)?, 8, (1000, 500))?);
    Ok(())
}
