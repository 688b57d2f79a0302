//! A journal over a file of the system.

ghost use Rattle.std.specs.Prelude.{◌<◌, ◌^◌, length};

use crate::disks::{BEGUN, append_to, count_of};
use journal_core::walk;
use outside::{Access, Disk, FileDisk};
use std::fs;
use std::test::Fail;

const FOLDER: &str = "journal_core_file";

const FILE: &str = "journal_core_file/journal";

fn attached(rt: HostRuntime) -> Result<FileDisk<HostRuntime>, Fail> {
    let mut disk = FileDisk::new(rt, Access::Write)?;
    disk.attach(FILE)?;
    Ok(disk)
}

/// Whether a record is appended to the journal of the file.
fn is_appended(rt: HostRuntime, record_bytes: &[u8]) -> Result<bool, Fail>
    requires { length record_bytes.now < 2 ^ 32 }
{
    let (_, answer) = append_to(rt.alloc(), attached(rt)?, record_bytes)?;
    Ok(answer.is_ok())
}

/// How many records a walk over the file finds, and where they end.
fn found(rt: HostRuntime) -> Result<(usize, u64), Fail> {
    let mut disk = attached(rt)?;
    let walked = walk(rt.alloc(), &mut disk)?;
    Ok((count_of(&walked), walked.end))
}

#[test]
fn a_journal_over_a_file_is_found_again(rt: HostRuntime) -> Result<(), Fail> {
    let _ = fs::remove_dir_all(&rt, FOLDER);
    fs::create_dir(&rt, FOLDER)?;
    assert!(rt; is_appended(rt, b"AB")? && is_appended(rt, b"C")?);
    assert!(rt; found(rt)? == (2, 43));
    let file = fs::read(&rt, FILE)?;
    let (head, body) = file.split_at(file.len().min(29));
    assert!(rt; head == &BEGUN[..29]);
    assert!(rt; body == b"\x01\x02\0\0\0AB\x01\x01\0\0\0C\0".as_slice());
    fs::remove_dir_all(&rt, FOLDER)?;
    Ok(())
}
