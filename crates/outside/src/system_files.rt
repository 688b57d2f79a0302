//! The files of the system.
ghost use Rattle.std.specs.Prelude.{◌≡◌, ℕ, ◌≤◌, length, IfOk, OnOk, Err, None};
ghost use Rattle.outside.specs.Faults.{CountsWhere, one_more};
ghost use Rattle.outside.specs.Files.{IsFront};
ghost use Rattle.outside.specs.declared.trouble.Trouble.TheVariants as trouble;

use crate::{Files, Source, StreamSource, Trouble};
use std::alloc::Global;
use std::fs;
use std::io::{ErrorKind, Read};

/// The files of the system, by a runtime that reaches them. They count the reads that failed, and tell nothing of what they hold.
#[derive(Drop)]
pub struct SystemFiles<'a, R: std::rt::Files> {
    rt: &'a R,
    faults: u64,
}

ghost use Rattle.outside.specs.SystemFiles.{file_faults, IsFrontOf};

// The first `most` bytes that a reader has left, or all.
fn front_of<F: Read + Drop>(file: F, alloc: Global, most: u64) -> Result<Vec<u8>, Trouble>
    ensures front { IfOk result (λ bytes. IsFrontOf (F.remaining file) most bytes.items) }
    ensures few { IfOk result (λ bytes. length bytes.items ≤ most) }
{
    let mut source = StreamSource::new(file);
    let mut bytes = Vec::new(alloc);
    let mut piece = [0; 4096];
    while (bytes.len() as u64) < most {
        let room = (most - bytes.len() as u64).min(4096) as usize;
        let size = match source.read(&mut piece[..room]) {
            Ok(size) => size,
            Err(_) => return Err(Trouble::Failed),
        };
        if size == 0 {
            break;
        }
        if bytes.extend_from_slice(&piece[..size]).is_err() {
            return Err(Trouble::Memory);
        }
    }
    Ok(bytes)
}

// Opens a file and reads its front.
fn read_file<R: std::rt::Files>(
    rt: &R,
    alloc: Global,
    name: &str,
    most: u64,
) -> Result<Vec<u8>, Trouble>
    ensures { IfOk result (λ bytes. length bytes.items ≤ most) }
{
    match fs::open(rt, name) {
        Ok(file) => front_of(file, alloc, most),
        Err(error) if error.kind() == ErrorKind::OutOfMemory => Err(Trouble::Memory),
        Err(_) => Err(Trouble::Failed),
    }
}

impl<'a, R: std::rt::Files> SystemFiles<'a, R> {
    /// The files that a runtime reaches.
    pub fn new(rt: &'a R) -> SystemFiles<'a, R>
        ensures { file_faults result ≡ 0 }
    {
        SystemFiles { rt, faults: 0 }
    }
}

impl<'a, R: std::rt::Files> Files for SystemFiles<'a, R> {
    ghost use Rattle.outside.specs.SystemFiles.{file_faults};

    ghost folder = { λ s. None };

    ghost faults = { λ s. file_faults s };

    /// Gives the file's front, and fails where the system does.
    fn read_front(&mut self, alloc: Global, name: &str, most: u64) -> Result<Vec<u8>, Trouble>
        ensures reads { IfOk result (λ bytes. IsFront None name.now most bytes.items) }
        ensures few { IfOk result (λ bytes. length bytes.items ≤ most) }
        ensures counts { CountsWhere (result ≡ Err trouble.Failed) (file_faults self.old) (file_faults self.new) }

        ensures no_fault { OnOk result (file_faults self.new ≡ file_faults self.old) }
        ensures fault { result ≡ Err trouble.Failed → file_faults self.new ≡ one_more (file_faults self.old) }
        ensures refused { result ≡ Err trouble.Memory → file_faults self.new ≡ file_faults self.old }
    {
        let front = read_file(self.rt, alloc, name, most);
        if let Err(Trouble::Failed) = front {
            self.faults = self.faults.saturating_add(1);
        }
        front
    }
}
