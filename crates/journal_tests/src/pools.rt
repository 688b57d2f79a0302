//! Records of changes in memory: those of a file, and those that are put behind them.

use crate::disks::{BEGUN, BEGUN_ONE, BEGUN_TURNED, ONE, TURNED_TWO, TWO, disk_of};
use command_types::Spelling;
use journal_core::walk;
use record_pool::Pool;
use std::alloc::{AllocError, Global};
use std::test::Fail;

/// What stands before a record of the first spelling.
const ZEROS: [u8; 8] = [0; 8];

/// The changes of a file whose body begins in this spelling.
fn pool_over(alloc: Global, file: &[u8], start: Spelling) -> Result<Pool, Fail> {
    let mut disk = disk_of(alloc, file)?;
    let walked = walk(alloc, &mut disk)?;
    Ok(Pool::opened(alloc, walked.into_records(), start)?)
}

/// Puts a record behind the others.
fn keep(alloc: Global, pool: &mut Pool, record: &[u8]) -> Result<(), AllocError> {
    if record.len() > 1_000_000 {
        return Err(AllocError);
    }
    pool.make_room(alloc, record.len() as u64 + 5)?;
    pool.push(record);
    Ok(())
}

/// Whether the change with this number is given as these bytes, of which some stand in front.
fn is_given(
    alloc: Global,
    pool: &Pool,
    number: u64,
    front: &[u8],
    record: &[u8],
) -> Result<bool, AllocError> {
    if number >= pool.len() {
        return Ok(false);
    }
    let bytes = pool.get(alloc, number)?;
    Ok(bytes.starts_with(front) && bytes.get(front.len()..) == Some(record))
}

/// Whether a file's changes are these, and one that is put behind them is given as it is.
fn has_these(
    alloc: Global,
    file: &[u8],
    start: Spelling,
    changes: &[(&[u8], &[u8])],
) -> Result<bool, Fail> {
    let mut pool = pool_over(alloc, file, start)?;
    let mut number = 0;
    for (front, record) in changes {
        if !is_given(alloc, &pool, number, front, record)? {
            return Ok(false);
        }
        number += 1;
    }
    keep(alloc, &mut pool, &TURNED_TWO[56..79])?;
    Ok(pool.len() == number + 1 && is_given(alloc, &pool, number, &[], &TURNED_TWO[56..79])?)
}

#[test]
fn a_files_changes_are_given_in_the_second_spelling(rt: HostRuntime) -> Result<(), Fail> {
    let alloc = rt.alloc();
    let trade = (&ZEROS[..], &ONE[13..38]);
    let affirm = (&ZEROS[..], &TWO[43..58]);
    let later = (&[][..], &TURNED_TWO[56..79]);
    let as_it_is = (&[][..], &ONE[13..38]);
    assert!(rt; has_these(alloc, &[], Spelling::First, &[])?);
    assert!(rt; has_these(alloc, &BEGUN, Spelling::Second, &[])?);
    assert!(rt; has_these(alloc, &ONE, Spelling::First, &[trade])?);
    assert!(rt; has_these(alloc, &TWO, Spelling::First, &[trade, affirm])?);
    assert!(rt; has_these(alloc, &BEGUN_TURNED, Spelling::First, &[])?);
    assert!(rt; has_these(alloc, &TURNED_TWO, Spelling::First, &[trade, later])?);
    assert!(rt; has_these(alloc, &BEGUN_ONE, Spelling::Second, &[as_it_is])?);
    Ok(())
}

#[test]
fn records_go_over_pages(rt: HostRuntime) -> Result<(), Fail> {
    let alloc = rt.alloc();
    let mut pool = Pool::new(alloc);
    for number in 0..250u8 {
        keep(alloc, &mut pool, &[number; 1_000])?;
    }
    let long = vec![in alloc; 7u8; 200_000]?;
    keep(alloc, &mut pool, &long)?;
    keep(alloc, &mut pool, &[])?;
    for number in 0..250u8 {
        assert!(rt;
            is_given(alloc, &pool, u64::from(number), &[], &[number; 1_000])?,
            "record {number}"
        );
    }
    assert!(rt; is_given(alloc, &pool, 250, &[], &long)?);
    assert!(rt; is_given(alloc, &pool, 251, &[], &[])?);
    assert!(rt; pool.len() == 252);
    Ok(())
}

/// What a thread may take.
fn is_sent<T: Send>(_value: &T) -> bool {
    true
}

#[test]
fn a_pool_can_go_to_another_thread(rt: HostRuntime) -> Result<(), Fail> {
    assert!(rt; is_sent(&Pool::new(rt.alloc())));
    Ok(())
}
