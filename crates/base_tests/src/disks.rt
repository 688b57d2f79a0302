//! Disks in memory and of a file.

use outside::{Access, Disk, FileDisk, MemoryDisk};
use std::alloc::{AllocError, Global};
use std::fs;
use std::test::Fail;

/// Whether the disk writes, syncs, writes over the front and cuts, and then has the bytes of all that.
fn is_changed(disk: &mut MemoryDisk, into: &mut [u8]) -> bool {
    disk.write_at(0, b"ABCDE").is_ok()
        && disk.sync().is_ok()
        && disk.write_at(0, b"XY").is_ok()
        && disk.cut(4).is_ok()
        && disk.read(1, into) == Ok(3)
        && &*into == b"YCD\0\0\0".as_slice()
}

/// Whether the disk has the five bytes that the sync left.
fn is_as_synced(disk: &mut MemoryDisk, into: &mut [u8]) -> bool {
    disk.length() == Ok(5) && disk.read(0, into) == Ok(5) && &*into == b"ABCDE\0".as_slice()
}

#[test]
fn a_crash_leaves_what_the_last_sync_left(rt: HostRuntime) -> Result<(), Fail> {
    let mut disk = MemoryDisk::new(rt.alloc(), 16, 8)?;
    let mut into = [0; 6];
    assert!(rt; is_changed(&mut disk, &mut into));
    assert!(rt; is_as_synced(&mut disk.crash(), &mut into));
    Ok(())
}

/// A disk with room for four bytes and three steps, whose first and fourth call fail.
fn narrow(alloc: Global) -> Result<MemoryDisk, AllocError> {
    let mut disk = MemoryDisk::new(alloc, 4, 3)?;
    disk.fail_at(1)?;
    disk.fail_at(4)?;
    Ok(disk)
}

/// Whether the narrow disk fails where it is told and where there is no room, and only there.
fn is_narrow(disk: &mut MemoryDisk) -> bool {
    disk.attach("journal").is_err()
        && disk.write_at(0, b"ABCDE").is_err()
        && disk.write_at(0, b"ABC").is_ok()
        && disk.length().is_err()
        && disk.length() == Ok(3)
        && disk.write_at(0, b"DE").is_err()
        && disk.cut(1).is_ok()
        && disk.sync().is_ok()
        && disk.sync().is_err()
        && disk.length() == Ok(1)
        && disk.faults() == 5
}

#[test]
fn calls_fail_where_they_are_told_and_where_there_is_no_room(rt: HostRuntime) -> Result<(), Fail> {
    let mut disk = narrow(rt.alloc())?;
    assert!(rt; is_narrow(&mut disk));
    Ok(())
}

const FOLDER: &str = "outside_file_disk";

const FILE: &str = "outside_file_disk/journal";

const OTHER: &str = "outside_file_disk/other";

/// Whether a disk of the file, which is not there, makes it with the first write, and keeps another one out as long as it
/// has it.
fn is_made(rt: HostRuntime, again: &mut FileDisk<HostRuntime>) -> bool {
    let Ok(mut disk) = FileDisk::new(rt, Access::Write) else {
        return false;
    };
    disk.attach(FILE).is_ok()
        && disk.length() == Ok(0)
        && fs::metadata(&rt, FILE).is_err()
        && disk.write_at(0, b"ABCDE").is_ok()
        && disk.write_at(3, b"XYZ").is_ok()
        && disk.sync().is_ok()
        && again.attach(FILE).is_err()
        && again.faults() == 1
}

/// Whether the other disk then reads what was written, and cuts it.
fn is_read_and_cut(again: &mut FileDisk<HostRuntime>, into: &mut [u8]) -> bool {
    again.attach(FILE).is_ok()
        && again.length() == Ok(6)
        && again.read(1, into) == Ok(5)
        && &*into == b"BCXYZ\0\0\0".as_slice()
        && again.cut(2).is_ok()
}

/// Whether it sees the cut, and is not attached to a folder.
fn is_cut(again: &mut FileDisk<HostRuntime>, into: &mut [u8]) -> bool {
    again.length() == Ok(2)
        && again.read(u64::MAX, into) == Ok(0)
        && again.attach(FOLDER).is_err()
        && again.faults() == 2
}

/// Whether a file that another program makes and fills in between is left alone.
fn is_left_alone(rt: HostRuntime) -> bool {
    let Ok(mut late) = FileDisk::new(rt, Access::Write) else {
        return false;
    };
    late.attach(OTHER).is_ok()
        && fs::write(&rt, OTHER, b"F").is_ok()
        && late.write_at(0, b"ABCDE").is_err()
        && late.faults() == 1
}

#[test]
fn what_was_written_is_read_when_the_file_is_opened_again(rt: HostRuntime) -> Result<(), Fail> {
    let _ = fs::remove_dir_all(&rt, FOLDER);
    fs::create_dir(&rt, FOLDER)?;
    let mut again = FileDisk::new(rt, Access::Write)?;
    let mut into = [0; 8];
    assert!(rt; is_made(rt, &mut again));
    assert!(rt; is_read_and_cut(&mut again, &mut into));
    assert!(rt; is_cut(&mut again, &mut into));
    assert!(rt; is_left_alone(rt));
    fs::remove_dir_all(&rt, FOLDER)?;
    Ok(())
}

const LOST_FOLDER: &str = "outside_lost_disk";

const LOST_FILE: &str = "outside_lost_disk/journal";

// The system has no such place, so that a write there fails.
const NO_PLACE: u64 = u64::MAX;

/// A call that changes a disk, and that the system would do.
#[derive(Clone, Copy)]
enum Change {
    Write,
    Cut,
    Sync,
}

/// Whether the disk does this change.
fn does(disk: &mut FileDisk<HostRuntime>, change: Change) -> bool {
    match change {
        Change::Write => disk.write_at(0, b"XYZ").is_ok(),
        Change::Cut => disk.cut(2).is_ok(),
        Change::Sync => disk.sync().is_ok(),
    }
}

/// Whether a write that fails makes this later change fail, while reads go on, and the same disk does it when it is attached
/// again.
fn is_lost(rt: HostRuntime, change: Change) -> bool {
    let Ok(mut disk) = FileDisk::new(rt, Access::Write) else {
        return false;
    };
    let mut into = [0; 6];
    disk.attach(LOST_FILE).is_ok()
        && disk.write_at(0, b"ABCDE").is_ok()
        && disk.write_at(NO_PLACE, b"F").is_err()
        && !does(&mut disk, change)
        && disk.faults() == 2
        && disk.read(0, &mut into) == Ok(5)
        && into == *b"ABCDE\0"
        && disk.attach(LOST_FILE).is_ok()
        && does(&mut disk, change)
        && disk.faults() == 2
}

#[test]
fn a_disk_that_failed_changes_nothing_until_it_is_attached_again(
    rt: HostRuntime,
) -> Result<(), Fail> {
    let _ = fs::remove_dir_all(&rt, LOST_FOLDER);
    fs::create_dir(&rt, LOST_FOLDER)?;
    assert!(rt; is_lost(rt, Change::Write));
    assert!(rt; is_lost(rt, Change::Cut));
    assert!(rt; is_lost(rt, Change::Sync));
    fs::remove_dir_all(&rt, LOST_FOLDER)?;
    Ok(())
}

#[test]
fn a_file_that_no_program_can_sync_is_read(rt: HostRuntime) -> Result<(), Fail> {
    let mut disk = FileDisk::new(rt, Access::Read)?;
    let mut into = [0; 6];
    assert!(rt; disk.attach("/proc/version").is_ok() && disk.length().is_ok());
    assert!(rt; disk.read(0, &mut into) == Ok(6) && into == *b"Linux ");
    Ok(())
}

// No regular file: a folder, and devices of which one gives bytes without end.
const NO_FILES: &[&str] = &["/", "/dev/null", "/dev/zero"];

fn attaches_to_no(disk: &mut FileDisk<HostRuntime>, names: &[&str]) -> bool {
    names.iter().all(|name| disk.attach(name).is_err())
}

#[test]
fn a_disk_is_attached_to_regular_files_alone(rt: HostRuntime) -> Result<(), Fail> {
    for access in [Access::Write, Access::Read] {
        let mut disk = FileDisk::new(rt, access)?;
        let is_refused = attaches_to_no(&mut disk, NO_FILES);
        assert!(rt; is_refused && disk.faults() == 3);
    }
    Ok(())
}

const READ_FOLDER: &str = "outside_read_disk";

const READ_FILE: &str = "outside_read_disk/journal";

// What a disk that only reads tells as the length of a file of five bytes.
const FIVE_AND_ROOM: u64 = 8_388_613;

// Whether a disk that only reads sees a writer's file, what was added behind the length that it told included.
fn reads_beside(
    reader: &mut FileDisk<HostRuntime>,
    writer: &mut FileDisk<HostRuntime>,
    into: &mut [u8],
) -> bool {
    reader.attach(READ_FILE).is_ok()
        && reader.length() == Ok(0)
        && reader.read(0, into) == Ok(0)
        && writer.attach(READ_FILE).is_ok()
        && writer.write_at(0, b"ABCDE").is_ok()
        && reader.attach(READ_FILE).is_ok()
        && reader.length() == Ok(FIVE_AND_ROOM)
        && writer.write_at(5, b"F").is_ok()
        && reader.read(1, into) == Ok(5)
        && &*into == b"BCDEF\0\0\0".as_slice()
}

// Whether it changes nothing, and each try is a fault.
fn only_reads(reader: &mut FileDisk<HostRuntime>) -> bool {
    reader.write_at(0, b"X").is_err()
        && reader.cut(1).is_err()
        && reader.sync().is_err()
        && reader.faults() == 3
}

// Whether a read fails that comes to the end of what it told, since the file may have grown beyond.
fn grows_too_far(
    reader: &mut FileDisk<HostRuntime>,
    writer: &mut FileDisk<HostRuntime>,
    into: &mut [u8],
) -> bool {
    writer.write_at(FIVE_AND_ROOM, b"Z").is_ok()
        && reader.read(FIVE_AND_ROOM - 8, into).is_err()
        && reader.length() == Ok(FIVE_AND_ROOM + 8_388_609)
        && reader.read(FIVE_AND_ROOM - 7, into) == Ok(8)
}

#[test]
fn a_disk_that_only_reads_reads_beside_a_writer(rt: HostRuntime) -> Result<(), Fail> {
    let _ = fs::remove_dir_all(&rt, READ_FOLDER);
    fs::create_dir(&rt, READ_FOLDER)?;
    let mut reader = FileDisk::new(rt, Access::Read)?;
    let mut writer = FileDisk::new(rt, Access::Write)?;
    let mut into = [0; 8];
    assert!(rt; reads_beside(&mut reader, &mut writer, &mut into));
    assert!(rt; only_reads(&mut reader));
    assert!(rt; grows_too_far(&mut reader, &mut writer, &mut into));
    fs::remove_dir_all(&rt, READ_FOLDER)?;
    Ok(())
}
