//! A disk over a file of the system. It tells nothing of what it holds: what the file does is trusted.
ghost use Rattle.std.specs.Prelude.{◌≡◌, ℕ, ◌+◌, ◌≤◌, length, true, false, None, Ok, IfOk, OnOk, OnErr};
ghost use Rattle.outside.specs.Faults.{CountsFault, one_more};

use crate::system_file::{cut_to, length_of, make, open, read_from};
use crate::{Access, Disk, Failed};
use std::alloc::{AllocError, AllocGlobal};
use std::fs::File;
use std::io::{self, ErrorKind};
use std::os::unix::fs::FileExt;
use std::rt::Files;

/// A disk over the regular file that it is attached to. A missing file is an empty one, and any other kind of file a fault.
///
/// A disk that writes locks its file against other programs as long as it has it; the first write makes a file that is
/// missing, and syncs its folder. After a write, a cut or a sync that failed nothing is known of the file, so each further
/// one fails too, until the disk is attached again.
///
/// For a disk that only reads, each write, cut and sync is a fault. As its length it reports 8,388,608 bytes more than its file
/// has, so that a read from the start on finds room for what another program adds until it ends, and fails if there is more.
#[derive(Drop)]
pub struct FileDisk<R: Files<File = File> + AllocGlobal + Drop> {
    rt: R,
    access: Access,
    name: String,
    file: Option<File>,
    told: u64,
    faults: u64,
    is_lost: bool,
}

// The most bytes that a name has which the system takes.
const LONGEST_NAME: usize = 4095;

// How many bytes another program may add between a look at the length and the end of a read.
const ROOM_TO_GROW: u64 = 8_388_608;

// What a call of the system answered, with its fault counted.
fn counted<T: Drop>(faults: &mut u64, answer: io::Result<T>) -> Result<T, Failed>
    ensures value { IfOk result (λ x. answer ≡ Ok x) }
    ensures no_fault { OnOk result (faults.new ≡ faults.old) }
    ensures fault { OnErr result (faults.new ≡ one_more faults.old) }
    ensures never_falls { faults.old ≤ faults.new }
{
    match answer {
        Ok(value) => Ok(value),
        Err(_) => {
            *faults = faults.saturating_add(1);
            Err(Failed)
        }
    }
}

// Keeps a name where there is room for it, so that no memory is taken.
fn keep(kept: &mut String, name: &str) -> io::Result<()> {
    if name.len() > kept.capacity() {
        return Err(io::Error::from(ErrorKind::InvalidFilename));
    }
    kept.clear();
    kept.push_str(name)?;
    Ok(())
}

// Reads from a place on a file that may grow meanwhile, and fails where it grew beyond the length that was told.
fn read_growing(file: &File, told: u64, at: u64, into: &mut [u8]) -> io::Result<usize>
    ensures { IfOk result (λ n. n ≤ length into.old) }
{
    let count = read_from(file, at, into)?;
    if count > 0 && at.saturating_add(count as u64) >= told {
        return Err(io::Error::from(ErrorKind::ResourceBusy));
    }
    Ok(count)
}

impl<R: Files<File = File> + AllocGlobal + Drop> FileDisk<R> {
    ghost use Rattle.outside.specs.FileDisk.{file_faults, is_lost};

    /// A disk that is attached to no file yet. It takes the memory for a file's name, and no call takes more.
    pub fn new(rt: R, access: Access) -> Result<FileDisk<R>, AllocError>
        ensures no_fault { IfOk result (λ d. file_faults d ≡ 0) }
        ensures not_lost { IfOk result (λ d. is_lost d ≡ false) }
    {
        let name = String::with_capacity(rt.alloc(), LONGEST_NAME)?;
        Ok(FileDisk {
            rt,
            access,
            name,
            file: None,
            told: 0,
            faults: 0,
            is_lost: false,
        })
    }

    // What comes of a change, before it is begun: a fault if the disk only reads, or an earlier change failed.
    fn may_change(&self) -> io::Result<()>
        ensures { OnOk result (is_lost self.now ≡ false) }
    {
        match (self.access, self.is_lost) {
            (Access::Read, _) => Err(io::Error::from(ErrorKind::PermissionDenied)),
            (Access::Write, true) => Err(io::Error::from(ErrorKind::Other)),
            (Access::Write, false) => Ok(()),
        }
    }

    // What a change of the file answered, with its fault counted. After a fault the disk is lost.
    fn changed(&mut self, answer: io::Result<()>) -> Result<(), Failed>
        requires { OnOk answer (is_lost self.old ≡ false) }
        ensures no_fault { OnOk result (file_faults self.new ≡ file_faults self.old) }
        ensures fault { OnErr result (file_faults self.new ≡ one_more (file_faults self.old)) }
        ensures never_falls { file_faults self.old ≤ file_faults self.new }
        ensures not_lost { OnOk result ((is_lost self.old ≡ false) × (is_lost self.new ≡ false)) }
        ensures lost { OnErr result (is_lost self.new ≡ true) }
    {
        match counted(&mut self.faults, answer) {
            Ok(()) => Ok(()),
            Err(fault) => {
                self.is_lost = true;
                Err(fault)
            }
        }
    }

    // Writes to the file, and makes it first if it is missing.
    fn write_to_file(&mut self, at: u64, bytes: &[u8]) -> io::Result<()>
        ensures no_fault { file_faults self.new ≡ file_faults self.old }
        ensures same { is_lost self.new ≡ is_lost self.old }
        ensures not_lost { OnOk result (is_lost self.new ≡ false) }
    {
        self.may_change()?;
        if self.file.is_none() {
            self.file = Some(make(&self.rt, self.name.as_str())?);
        }
        match &self.file {
            Some(file) => file.write_all_at(bytes, at),
            None => Ok(()),
        }
    }

    // Cuts the file.
    fn cut_file(&self, length: u64) -> io::Result<()>
        ensures { OnOk result (is_lost self.now ≡ false) }
    {
        self.may_change()?;
        match &self.file {
            Some(file) => cut_to(file, length),
            None => Ok(()),
        }
    }

    // Syncs the file.
    fn sync_file(&self) -> io::Result<()>
        ensures { OnOk result (is_lost self.now ≡ false) }
    {
        self.may_change()?;
        match &self.file {
            Some(file) => file.sync_data(),
            None => Ok(()),
        }
    }

    // Opens the file of this name, and keeps the name.
    fn open_file(&mut self, name: &str) -> io::Result<()>
        ensures no_fault { file_faults self.new ≡ file_faults self.old }
        ensures same { is_lost self.new ≡ is_lost self.old }
    {
        self.file = open(&self.rt, name, self.access)?;
        keep(&mut self.name, name)
    }
}

impl<R: Files<File = File> + AllocGlobal + Send + Drop> Disk for FileDisk<R> {
    ghost use Rattle.outside.specs.FileDisk.{file_faults, is_lost};

    ghost history = { λ d. None };

    ghost fault_count = { λ d. file_faults d };

    fn faults(&self) -> u64
        ensures { result ≡ file_faults self.now }
    {
        self.faults
    }

    /// Lets go of the file that it has, and opens this one, if it is there. One that is to be written is locked and synced.
    fn attach(&mut self, name: &str) -> Result<(), Failed>
        ensures counts { CountsFault result (file_faults self.old) (file_faults self.new) }
        ensures no_fault { OnOk result (file_faults self.new ≡ file_faults self.old) }
        ensures fault { OnErr result (file_faults self.new ≡ one_more (file_faults self.old)) }
        ensures found { OnOk result (is_lost self.new ≡ false) }
        ensures lost { OnErr result (is_lost self.new ≡ true) }
    {
        self.file = None;
        self.is_lost = false;
        let opened = self.open_file(name);
        self.changed(opened)
    }

    fn length(&mut self) -> Result<u64, Failed>
        ensures counts { CountsFault result (file_faults self.old) (file_faults self.new) }
        ensures no_fault { OnOk result (file_faults self.new ≡ file_faults self.old) }
        ensures fault { OnErr result (file_faults self.new ≡ one_more (file_faults self.old)) }
        ensures same { is_lost self.new ≡ is_lost self.old }
    {
        let answer = match &self.file {
            Some(file) => length_of(file),
            None => Ok(0),
        };
        let length = counted(&mut self.faults, answer)?;
        self.told = match (self.access, &self.file) {
            (Access::Read, Some(_)) => length.saturating_add(ROOM_TO_GROW),
            _ => length,
        };
        Ok(self.told)
    }

    fn read(&mut self, at: u64, into: &mut [u8]) -> Result<usize, Failed>
        ensures count { IfOk result (λ n. n ≤ length into.old) }
        ensures counts { CountsFault result (file_faults self.old) (file_faults self.new) }
        ensures no_fault { OnOk result (file_faults self.new ≡ file_faults self.old) }
        ensures fault { OnErr result (file_faults self.new ≡ one_more (file_faults self.old)) }
        ensures same { is_lost self.new ≡ is_lost self.old }
    {
        let answer = match (&self.file, self.access) {
            (Some(file), Access::Write) => read_from(file, at, into),
            (Some(file), Access::Read) => read_growing(file, self.told, at, into),
            (None, _) => Ok(0),
        };
        counted(&mut self.faults, answer)
    }

    /// Makes the file first, if it is missing.
    fn write_at(&mut self, at: u64, bytes: &[u8]) -> Result<(), Failed>
        ensures counts { CountsFault result (file_faults self.old) (file_faults self.new) }
        ensures no_fault { OnOk result (file_faults self.new ≡ file_faults self.old) }
        ensures fault { OnErr result (file_faults self.new ≡ one_more (file_faults self.old)) }
        ensures not_lost { OnOk result ((is_lost self.old ≡ false) × (is_lost self.new ≡ false)) }
        ensures lost { OnErr result (is_lost self.new ≡ true) }
    {
        let answer = self.write_to_file(at, bytes);
        self.changed(answer)
    }

    fn cut(&mut self, length: u64) -> Result<(), Failed>
        ensures counts { CountsFault result (file_faults self.old) (file_faults self.new) }
        ensures no_fault { OnOk result (file_faults self.new ≡ file_faults self.old) }
        ensures fault { OnErr result (file_faults self.new ≡ one_more (file_faults self.old)) }
        ensures not_lost { OnOk result ((is_lost self.old ≡ false) × (is_lost self.new ≡ false)) }
        ensures lost { OnErr result (is_lost self.new ≡ true) }
    {
        let answer = self.cut_file(length);
        self.changed(answer)
    }

    fn sync(&mut self) -> Result<(), Failed>
        ensures counts { CountsFault result (file_faults self.old) (file_faults self.new) }
        ensures no_fault { OnOk result (file_faults self.new ≡ file_faults self.old) }
        ensures fault { OnErr result (file_faults self.new ≡ one_more (file_faults self.old)) }
        ensures not_lost { OnOk result ((is_lost self.old ≡ false) × (is_lost self.new ≡ false)) }
        ensures lost { OnErr result (is_lost self.new ≡ true) }
    {
        let answer = self.sync_file();
        self.changed(answer)
    }
}
