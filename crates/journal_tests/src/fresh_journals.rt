//! Journals that begin with a base and have no changes: their bytes, and what each front of them is to a house.

ghost use Rattle.std.specs.Prelude.{IfSome};
ghost use Rattle.command_types.specs.Bases.{CanBeWritten};

use crate::bases::{AT, BASE, based};
use crate::disks::{BEGUN, read_over};
use crate::houses::{answer_to, damaged};
use fresh_journal::fresh_journal;
use journal_core::JournalFault;
use recovery::BaseAt;
use std::alloc::Global;
use std::test::Fail;

// Slot 0 leads to the base's length at 25; behind the base, which has the mark of moments, the gate at 150 is closed.
fn whole() -> [u8; 151] {
    let mut file = [0; 151];
    file[..25].copy_from_slice(&BEGUN[..25]);
    file[25] = 121;
    file[AT..150].copy_from_slice(&BASE);
    file[AT] = 2;
    file
}

// The journal that begins with that base, if there is one.
fn begun(alloc: Global, base: &Option<BaseAt>) -> Result<Option<Vec<u8>>, Fail>
    requires { IfSome base.now (λ found. CanBeWritten found.base) }
{
    match base {
        Some(found) => Ok(fresh_journal(alloc, &found.base)?),
        None => Err(Fail::new("there is no base")),
    }
}

// The journal that begins with the base.
fn made(alloc: Global) -> Result<Option<Vec<u8>>, Fail> {
    match read_over(alloc, &based())? {
        Ok(read) => begun(alloc, &read.base),
        Err(_) => Err(Fail::new("it is not read")),
    }
}

#[test]
fn a_journal_has_the_base_and_a_closed_gate(rt: HostRuntime) -> Result<(), Fail> {
    let Some(bytes) = made(rt.alloc())? else {
        return Err(Fail::new("it would be too long"));
    };
    assert!(rt; bytes.as_slice() == whole().as_slice());
    Ok(())
}

// Below 31 bytes a file is one that was not begun.
fn answer_when_cut(size: usize) -> Result<u64, JournalFault> {
    match size {
        0..=30 => Ok(0),
        31..=149 => damaged(25),
        150 => damaged(150),
        _ => Ok(3),
    }
}

#[test]
fn each_front_is_empty_or_damaged(rt: HostRuntime) -> Result<(), Fail> {
    for size in 0..=151 {
        let answer = answer_to(&rt, rt.alloc(), &whole()[..size])?;
        assert!(rt; answer == answer_when_cut(size), "cut to {size}");
    }
    Ok(())
}
