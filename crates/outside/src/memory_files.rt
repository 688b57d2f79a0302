//! Files in memory.
ghost use Rattle.std.specs.Prelude.{◌≡◌, ℕ, ◌≤◌, take, option_map, is_some, true, false, length, [], ◌∷◌, ◌++◌, IsTrue, ◌↔◌, IfOk, OnOk, OnErr, Err, Some};
ghost use Rattle.std.specs.Str.{bytes_eq};
ghost use Rattle.outside.specs.Faults.{CountsWhere};
ghost use Rattle.outside.specs.Files.{Folder, IsFront};
ghost use Rattle.outside.specs.MemoryFiles.{MemoryFolder, NamedBytes, bytes_named, fresh_folder, with_file, next_look_fails, folder_after_fault, folder_after_read};
ghost use Rattle.outside.specs.declared.trouble.Trouble.TheVariants as trouble;

use crate::{Files, Trouble};
use std::alloc::{AllocError, Global};
use std::marker::Model;

// A file: its name and its bytes.
#[derive(Drop)]
struct StoredFile {
    name: Vec<u8>,
    bytes: Vec<u8>,
}

impl Model for StoredFile {
    ghost use Rattle.outside.specs.MemoryFiles.{NamedBytes};

    ghost Value = { NamedBytes };

    ghost view = { λ f. record { name = f.name.items; bytes = f.bytes.items } };
}

impl StoredFile {
    fn new(alloc: Global, name: &str, bytes: &[u8]) -> Result<StoredFile, AllocError>
        ensures { IfOk result (λ f. f ≡ record { name = name.now; bytes = bytes.now }) }
    {
        Ok(StoredFile {
            name: name.as_bytes().to_vec(alloc)?,
            bytes: bytes.to_vec(alloc)?,
        })
    }

    fn is_named(&self, name: &str) -> bool
        ensures { result ≡ bytes_eq self.now.name name.now }
    {
        self.name.as_slice() == name.as_bytes()
    }

    fn bytes(&self) -> &[u8]
        ensures { result.now ≡ self.now.bytes }
    {
        &self.bytes
    }
}

/// Files in memory. Those of their reads fail that they are told to, and those of a name that no file has. Contracts
/// see them as the files, the last that was put there first, the number of reads, the reads that fail and the number
/// that failed.
#[derive(Drop)]
pub struct MemoryFiles {
    files: Vec<StoredFile>,
    reads: u64,
    failing: Vec<u64>,
    faults: u64,
    alloc: Global,
}

impl Model for MemoryFiles {
    ghost use Rattle.outside.specs.MemoryFiles.{MemoryFolder};

    ghost Value = { MemoryFolder };

    ghost view = { λ m. record { files = m.files.items; reads = m.reads; failing = m.failing.items; faults = m.faults } };
}

// The first `most` bytes of a slice, or all of it.
fn front(alloc: Global, bytes: &[u8], most: u64) -> Result<Vec<u8>, AllocError>
    ensures { IfOk result (λ front. front.items ≡ take most bytes.now) }
{
    let size = most.min(bytes.len() as u64) as usize;
    bytes[..size].to_vec(alloc)
}

// The first bytes of the first file with this name. `Failed`: no file has it.
fn front_named(
    files: &[StoredFile],
    alloc: Global,
    name: &str,
    most: u64,
) -> Result<Vec<u8>, Trouble>
    ensures bytes { IfOk result (λ front. option_map (take most) (bytes_named files.now name.now) ≡ Some front.items) }
    ensures found { OnOk result (is_some (bytes_named files.now name.now) ≡ true) }
    ensures refused { result ≡ Err trouble.Memory → is_some (bytes_named files.now name.now) ≡ true }
    ensures missing { result ≡ Err trouble.Failed → is_some (bytes_named files.now name.now) ≡ false }
{
    for file in files {
        if file.is_named(name) {
            return match front(alloc, file.bytes(), most) {
                Ok(front) => Ok(front),
                Err(_) => Err(Trouble::Memory),
            };
        }
    }
    Err(Trouble::Failed)
}

impl MemoryFiles {
    /// No files yet, and no read that fails.
    pub fn new(alloc: Global) -> Result<MemoryFiles, AllocError>
        ensures { IfOk result (λ m. m ≡ fresh_folder) }
    {
        Ok(MemoryFiles {
            files: Vec::new(alloc),
            reads: 0,
            failing: Vec::new(alloc),
            faults: 0,
            alloc,
        })
    }

    /// Puts a file there, in place of one with the same name.
    pub fn put(&mut self, name: &str, bytes: &[u8]) -> Result<(), AllocError>
        ensures there { OnOk result (self.new ≡ with_file self.old name.now bytes.now) }
        ensures refused { OnErr result (self.new ≡ self.old) }
    {
        let file = StoredFile::new(self.alloc, name, bytes)?;
        self.files.insert(0, file)?;
        Ok(())
    }

    /// Lets that read fail too, the first since the files were made being 1.
    pub fn fail_at(&mut self, call: u64) -> Result<(), AllocError>
        ensures listed { OnOk result (self.new ≡ record self.old { failing = self.old.failing ++ call ∷ [] }) }
        ensures refused { OnErr result (self.new ≡ self.old) }
    {
        self.failing.push(call)?;
        Ok(())
    }
}

impl Files for MemoryFiles {
    ghost use Rattle.std.specs.Prelude.{Some};
    ghost use Rattle.outside.specs.MemoryFiles.{bytes_named};

    ghost folder = { λ m. Some (bytes_named m.files) };

    ghost faults = { λ m. m.faults };

    /// Gives the front of the file with this name, exactly where there is one and this read is none of those that fail.
    fn read_front(&mut self, alloc: Global, name: &str, most: u64) -> Result<Vec<u8>, Trouble>
        ensures reads { IfOk result (λ bytes. IsFront (Some (bytes_named self.old.files)) name.now most bytes.items) }
        ensures few { IfOk result (λ bytes. length bytes.items ≤ most) }
        ensures stays { Some (bytes_named self.new.files) ≡ Some (bytes_named self.old.files) }
        ensures counts { CountsWhere (result ≡ Err trouble.Failed) self.old.faults self.new.faults }

        // Exactly this, besides what all files promise.
        ensures fails { result ≡ Err trouble.Failed ↔ IsTrue (next_look_fails self.old name.now) }
        ensures fault { result ≡ Err trouble.Failed → self.new ≡ folder_after_fault self.old }
        ensures after { OnOk result (self.new ≡ folder_after_read self.old) }
        ensures refused { result ≡ Err trouble.Memory → self.new ≡ folder_after_read self.old }
    {
        self.reads = self.reads.saturating_add(1);
        if self.failing.contains(&self.reads) {
            self.faults = self.faults.saturating_add(1);
            return Err(Trouble::Failed);
        }
        match front_named(&self.files, alloc, name, most) {
            Ok(front) => Ok(front),
            Err(Trouble::Memory) => Err(Trouble::Memory),
            Err(Trouble::Failed) => {
                self.faults = self.faults.saturating_add(1);
                Err(Trouble::Failed)
            }
        }
    }
}
