//! Files that are read by name, in memory and of the system.

use outside::{Files, MemoryFiles, SystemFiles, Trouble};
use std::alloc::{AllocError, Global};
use std::fs;
use std::test::Fail;

/// Whether each read in turn gives the file's front of at most so many bytes, or fails where none is told.
fn gives<F: Files>(
    files: &mut F,
    alloc: Global,
    cases: &[(&str, u64, Option<&str>)],
) -> Result<bool, AllocError> {
    for &(name, most, want) in cases {
        let is_right = match (files.read_front(alloc, name, most), want) {
            (Ok(front), Some(text)) => front.as_slice() == text.as_bytes(),
            (Err(Trouble::Failed), None) => true,
            (Err(Trouble::Memory), _) => return Err(AllocError),
            _ => false,
        };
        if !is_right {
            return Ok(false);
        }
    }
    Ok(true)
}

/// The files A, of five bytes, and EMPTY, of none, whose third read fails.
fn two_files(alloc: Global) -> Result<MemoryFiles, AllocError> {
    let mut files = MemoryFiles::new(alloc)?;
    files.put("A", b"ABCDE")?;
    files.put("EMPTY", b"")?;
    files.fail_at(3)?;
    Ok(files)
}

/// Whether the two files give their fronts, and A gives what was put in its place.
fn gives_fronts(alloc: Global, files: &mut MemoryFiles) -> Result<bool, AllocError> {
    let cases = [
        ("A", 3, Some("ABC")),
        ("A", 9, Some("ABCDE")),
        ("A", 9, None),
        ("B", 9, None),
        ("EMPTY", 9, Some("")),
    ];
    let are_given = gives(files, alloc, &cases)?;
    files.put("A", b"F")?;
    Ok(are_given && gives(files, alloc, &[("A", 9, Some("F"))])?)
}

#[test]
fn files_in_memory_give_their_fronts_and_fail_where_they_are_told_and_where_there_is_none(
    rt: HostRuntime,
) -> Result<(), Fail> {
    let mut files = two_files(rt.alloc())?;
    assert!(rt; gives_fronts(rt.alloc(), &mut files)?);
    Ok(())
}

/// Whether the file, which has this text, is read up to the most of each case in turn: so many bytes of it.
fn is_read<F: Files>(
    files: &mut F,
    alloc: Global,
    name: &str,
    text: &str,
    cases: &[(u64, usize)],
) -> Result<bool, Trouble> {
    for &(most, size) in cases {
        let front = files.read_front(alloc, name, most)?;
        if size > text.len() || front.as_slice() != &text.as_bytes()[..size] {
            return Ok(false);
        }
    }
    Ok(true)
}

/// Whether a file of the system with this text is read so, and fails once it is removed.
fn is_read_of_the_system(
    rt: HostRuntime,
    name: &str,
    text: &str,
    cases: &[(u64, usize)],
) -> Result<bool, Fail> {
    fs::write(&rt, name, text)?;
    let mut files = SystemFiles::new(&rt);
    let is_read = is_read(&mut files, rt.alloc(), name, text, cases);
    fs::remove_file(&rt, name)?;
    let is_right = is_read? && gives(&mut files, rt.alloc(), &[(name, 9, None)])?;
    Ok(is_right)
}

#[test]
fn a_file_of_the_system_is_read_up_to_the_most_and_a_missing_one_fails(
    rt: HostRuntime,
) -> Result<(), Fail> {
    let text = "ABCDE".repeat(rt.alloc(), 1000)?;
    let cases = [(9000, 5000), (4099, 4099)];
    assert!(rt; is_read_of_the_system(rt, "front_of_a_file.txt", &text, &cases)?);
    Ok(())
}

#[test]
fn a_file_is_read_in_pieces_to_its_end_or_the_most(rt: HostRuntime) -> Result<(), Fail> {
    let text = "0123456789".repeat(rt.alloc(), 1000)?;
    let cases = [
        (0, 0),
        (1, 1),
        (4096, 4096),
        (4097, 4097),
        (10000, 10000),
        (20000, 10000),
    ];
    assert!(rt; is_read_of_the_system(rt, "pieces_of_a_file.txt", &text, &cases)?);
    Ok(())
}
