//! What a run of the program is given in memory, and what a disk in memory holds.

ghost use Rattle.std.specs.Prelude.{Some, IfOk};
ghost use Rattle.outside.specs.Disk.{IsSettled};

use crate::program::so;
use outside::{Disk, MemoryDisk, MemoryFiles, MemorySink};
use std::alloc::{AllocError, Global};
use std::test::Fail;

// How many bytes are read of a disk at most.
const MOST: u64 = 81920;

/// The words of a run.
pub fn words_of(alloc: Global, words: &[&str]) -> Result<Vec<String>, AllocError> {
    let mut all = Vec::new(alloc);
    for word in words {
        all.push(String::from_str(alloc, word)?)?;
    }
    Ok(all)
}

/// Files with these bytes, by their names.
pub fn files_of(alloc: Global, files: &[(&str, &[u8])]) -> Result<MemoryFiles, AllocError> {
    let mut all = MemoryFiles::new(alloc)?;
    for (name, bytes) in files {
        all.put(name, bytes)?;
    }
    Ok(all)
}

// A disk that holds these bytes, all of them synced.
fn synced_disk(alloc: Global, bytes: &[u8]) -> Result<MemoryDisk, AllocError>
    ensures { IfOk result (λ d. IsSettled (Some d.history)) }
{
    let mut disk = MemoryDisk::new(alloc, 1 << 17, 8192)?;
    if disk.write_at(0, bytes).is_err() || disk.sync().is_err() {
        return Err(AllocError);
    }
    Ok(disk.crash())
}

/// A disk that holds these bytes, all of them synced, of which that call fails.
pub fn disk_of(alloc: Global, bytes: &[u8], failing: u64) -> Result<MemoryDisk, AllocError>
    ensures { IfOk result (λ d. IsSettled (Some d.history)) }
{
    let mut disk = synced_disk(alloc, bytes)?;
    disk.fail_at(failing)?;
    Ok(disk)
}

/// A sink of which that write fails.
pub fn sink_of(alloc: Global, room: usize, failing: u64) -> Result<MemorySink, AllocError> {
    let mut sink = MemorySink::new(alloc, room)?;
    sink.fail_at(failing)?;
    Ok(sink)
}

// What a disk holds.
fn content_of(alloc: Global, disk: &mut MemoryDisk) -> Result<Vec<u8>, Fail> {
    let size = disk.length()?.min(MOST) as usize;
    let mut into = vec![in alloc; 0u8; size]?;
    let read = disk.read(0, &mut into)?;
    into.truncate(read);
    Ok(into)
}

/// What a disk holds, and what a crash leaves of that which loses what no sync followed.
pub type Images = (Vec<u8>, Vec<u8>);

/// What a disk holds, if its run ended so. A call that was told to fail behind those of the run fails first.
pub fn images_of(alloc: Global, ended_so: bool, mut disk: MemoryDisk) -> Result<Images, Fail> {
    so(ended_so, "it ends otherwise")?;
    let _ = disk.length();
    let written = content_of(alloc, &mut disk)?;
    let synced = content_of(alloc, &mut disk.crash())?;
    Ok((written, synced))
}

/// A text between two others, so many times.
pub fn repeated(
    alloc: Global,
    front: &str,
    text: &str,
    count: usize,
    back: &str,
) -> Result<String, AllocError> {
    let mut all = String::from_str(alloc, front)?;
    for _ in 0..count {
        all.push_str(text)?;
    }
    all.push_str(back)?;
    Ok(all)
}
