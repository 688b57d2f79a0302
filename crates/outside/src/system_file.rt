//! One regular file of the system, for a disk: how it is found, opened, settled, made, read and cut.
ghost use Rattle.std.specs.Prelude.{◌≤◌, length, IfOk};

use crate::Access;
use os::RangeLock;
use std::alloc::AllocGlobal;
use std::fs::{self, File, Metadata, OpenOptions, TryLockError};
use std::io::{self, ErrorKind};
use std::os::fd::AsRawFd;
use std::os::unix::fs::FileExt;
use std::path::Path;
use std::rt::Files;

// How many bytes a file has, at least, whose folder is known to have its name. A program that is killed after it made the
// file, and before it synced the folder, leaves a file without a change, and such a one has fewer bytes than this.
const LEAST_OF_A_KEPT_NAME: u64 = 10;

// How often a program that writes tries to set its mark.
const MOST_TRIES: u32 = 16;

// Fails for a folder, a pipe, a socket and a device: a read of these may wait, or find no end.
fn want_regular(found: &Metadata) -> io::Result<()> {
    if found.is_file() {
        Ok(())
    } else {
        Err(io::Error::from(ErrorKind::InvalidInput))
    }
}

// Keeps other programs from the file, until it is closed; fails if another one has it.
fn lock(file: &File) -> io::Result<()> {
    match file.try_lock() {
        Ok(()) => Ok(()),
        Err(TryLockError::WouldBlock) => Err(io::Error::from(ErrorKind::WouldBlock)),
        Err(TryLockError::Error(error)) => Err(error),
    }
}

// Takes the file's mark, or gives it back, and says whether it could. The mark is a lock on the first byte, of a kind of its
// own: it and the lock on the file never meet. It is dropped when the file is closed.
fn change_mark(file: &File, change: RangeLock) -> bool {
    os::try_lock_range(file.as_raw_fd(), change, 0, 1) == 0
}

// Marks a file that this program has locked as one that is written. A reader may have the mark just then, for no longer than
// its question takes, so this tries again. A file without the mark is locked all the same: readers only settle it once more.
fn mark(file: &File) {
    for _ in 0..MOST_TRIES {
        if change_mark(file, RangeLock::Exclusive) {
            break;
        }
    }
}

// Whether a program that writes has its mark on the file. The answer is the system's to a try that takes the mark with other
// readers, and it is given back at once. It never touches the lock, so no program that starts meanwhile finds the file in
// use because of a reader.
fn is_marked(file: &File) -> bool {
    if change_mark(file, RangeLock::Shared) {
        let _ = change_mark(file, RangeLock::Unlock);
        return false;
    }
    io::Error::from_raw_os_error(os::errno()).kind() == ErrorKind::WouldBlock
}

// Makes reads give what the disk has. The sync writes all that is left to be written. The kernel keeps a page whose write
// failed as if the disk had it, and a program that opens the file later gets no error, so the kernel's copies are dropped.
fn settle(file: &File) -> io::Result<()> {
    file.sync_all()?;
    match libc::posix_fadvise(file.as_raw_fd(), 0, 0, libc::POSIX_FADV_DONTNEED) {
        0 => Ok(()),
        error => Err(io::Error::from_raw_os_error(error)),
    }
}

// The same for a file that this program only reads. One that another program writes is left alone: a sync would hold it up,
// and the writer settled the file itself. If the writer comes between the question and the sync, the file is settled twice.
fn settle_unwritten(file: &File) -> io::Result<()> {
    if is_marked(file) {
        return Ok(());
    }
    match settle(file) {
        // The file system knows no sync, as one that is only for reading, so nothing is left to be written.
        Err(error) if error.kind() == ErrorKind::InvalidInput => Ok(()),
        settled => settled,
    }
}

// Syncs the folder that has this name, so that a crash leaves the name there.
fn sync_folder_of<R: Files<File = File>>(rt: &R, name: &str) -> io::Result<()> {
    let folder = match Path::new(name).parent() {
        Some(folder) => folder.as_str(),
        None => "/",
    };
    let folder = if folder.is_empty() { "." } else { folder };
    File::open(rt, folder)?.sync_all()
}

// Syncs the folder of a file, and of a link by which it has this name the folder of both.
fn keep_name<R: Files<File = File> + AllocGlobal>(rt: &R, name: &str) -> io::Result<()> {
    sync_folder_of(rt, name)?;
    if fs::symlink_metadata(rt, name)?.is_symlink() {
        let found = fs::canonicalize(rt, name)?;
        sync_folder_of(rt, found.as_str())?;
    }
    Ok(())
}

// The file that this program alone writes, with what the disk has.
fn hold<R: Files<File = File> + AllocGlobal>(rt: &R, name: &str, file: &File) -> io::Result<()> {
    lock(file)?;
    mark(file);
    settle(file)?;
    if length_of(file)? < LEAST_OF_A_KEPT_NAME {
        keep_name(rt, name)?;
    }
    Ok(())
}

// The file of this name as it stands. Its kind is looked at before it is opened, since opening a pipe may wait, and again
// after that, since the name may be another file's by then.
fn open_found<R: Files<File = File> + AllocGlobal>(
    rt: &R,
    name: &str,
    access: Access,
) -> io::Result<File> {
    want_regular(&fs::metadata(rt, name)?)?;
    let file = OpenOptions::new()
        .read(true)
        .write(access == Access::Write)
        .open(rt, name)?;
    want_regular(&file.metadata()?)?;
    match access {
        Access::Write => hold(rt, name, &file)?,
        Access::Read => settle_unwritten(&file)?,
    }
    Ok(file)
}

/// The regular file of this name, if there is one, with what the disk has. One that is to be written is locked. One that is
/// only read, and that another program writes, is taken as it stands.
pub(crate) fn open<R: Files<File = File> + AllocGlobal>(
    rt: &R,
    name: &str,
    access: Access,
) -> io::Result<Option<File>> {
    match open_found(rt, name, access) {
        Ok(file) => Ok(Some(file)),
        Err(error) if error.kind() == ErrorKind::NotFound => Ok(None),
        Err(error) => Err(error),
    }
}

/// Makes the file of this name, locks it, and syncs its folder. Fails if another program has made and filled it since.
pub(crate) fn make<R: Files<File = File> + AllocGlobal>(rt: &R, name: &str) -> io::Result<File> {
    let file = OpenOptions::new()
        .read(true)
        .write(true)
        .create(true)
        .open(rt, name)?;
    want_regular(&file.metadata()?)?;
    hold(rt, name, &file)?;
    if length_of(&file)? > 0 {
        return Err(io::Error::from(ErrorKind::AlreadyExists));
    }
    Ok(file)
}

/// How many bytes the file has.
pub(crate) fn length_of(file: &File) -> io::Result<u64> {
    Ok(file.metadata()?.len())
}

/// Reads from a place on, first to last, until the room is full or the file ends, and says how many bytes.
pub(crate) fn read_from(file: &File, at: u64, into: &mut [u8]) -> io::Result<usize>
    ensures { IfOk result (λ n. n ≤ length into.old) }
{
    let mut done = 0;
    for _ in 0..u64::MAX {
        let place = at.saturating_add(done as u64);
        if done >= into.len() || place > i64::MAX as u64 {
            break;
        }
        match file.read_at(&mut into[done..], place) {
            Ok(0) => break,
            Ok(n) => done += n,
            Err(error) => {
                if error.kind() != ErrorKind::Interrupted {
                    return Err(error);
                }
            }
        }
    }
    Ok(done)
}

/// Cuts a file that is longer.
pub(crate) fn cut_to(file: &File, length: u64) -> io::Result<()> {
    if length < file.metadata()?.len() {
        file.set_len(length)?;
    }
    Ok(())
}
