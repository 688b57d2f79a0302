//! A small disk that keeps the writes that no sync followed, and makes the images that a crash may leave of them.
//!
//! A call that fails may have done any part of its work, so a write that fails is kept too. Of the bytes in a write's
//! range a crash leaves the old ones, the new ones or others, and of the file any length between the old one and the
//! longest reached.
ghost use Rattle.std.specs.Prelude.{◌≡◌, OnOk};
ghost use Rattle.outside.specs.Faults.{CountsFault};

use outside::{Disk, Failed};
use std::alloc::{AllocError, Global};

#[derive(Drop)]
struct Write {
    at: usize,
    bytes: Vec<u8>,
}

/// A disk that tells nothing to contracts, and of which one call fails.
#[derive(Drop)]
pub struct TracedDisk {
    alloc: Global,
    synced: Vec<u8>,
    content: Vec<u8>,
    unsynced: Vec<Write>,
    calls: u64,
    failing: u64,
    faults: u64,
}

// Puts bytes at a place, over what is there and past the end.
fn put_over(old: &mut Vec<u8>, at: usize, bytes: &[u8]) -> Result<(), AllocError> {
    let mut place = at;
    for byte in bytes {
        match old.get_mut(place) {
            Some(there) => *there = *byte,
            None => old.push(*byte)?,
        }
        place = place.saturating_add(1);
    }
    Ok(())
}

// A write's bytes of which so many came to the disk, the first ones or the last ones. The others are the old ones, or
// zeros past the old end.
fn torn(
    alloc: Global,
    old: &[u8],
    write: &Write,
    count: usize,
    is_front: bool,
) -> Result<Vec<u8>, AllocError> {
    let skipped = if is_front {
        0
    } else {
        write.bytes.len().saturating_sub(count)
    };
    let mut bytes = Vec::new(alloc);
    for (index, new_byte) in write.bytes.iter().enumerate() {
        let is_new = skipped <= index && index < skipped.saturating_add(count);
        let old_byte = *old.get(write.at.saturating_add(index)).unwrap_or(&0);
        bytes.push(if is_new { *new_byte } else { old_byte })?;
    }
    Ok(bytes)
}

// The file with these bytes at a place, at each length that a crash may leave.
fn push_lengths(
    alloc: Global,
    images: &mut Vec<Vec<u8>>,
    old: &[u8],
    at: usize,
    bytes: &[u8],
) -> Result<(), AllocError> {
    let mut whole = old.to_vec(alloc)?;
    put_over(&mut whole, at, bytes)?;
    for length in old.len()..whole.len() {
        images.push(whole[..length].to_vec(alloc)?)?;
    }
    images.push(whole)?;
    Ok(())
}

// The files that a write may leave of one: each front and each back of its bytes, and each of these with another byte.
fn push_images(
    alloc: Global,
    images: &mut Vec<Vec<u8>>,
    old: &[u8],
    write: &Write,
) -> Result<(), AllocError> {
    for count in 0..=write.bytes.len() {
        for is_front in [true, false] {
            let bytes = torn(alloc, old, write, count, is_front)?;
            push_lengths(alloc, images, old, write.at, &bytes)?;
            for index in 0..bytes.len() {
                let mut bytes = bytes.clone()?;
                bytes[index] = 0xff;
                push_lengths(alloc, images, old, write.at, &bytes)?;
            }
        }
    }
    Ok(())
}

// Some of them: each eighth front and back of the bytes, in the file at its longest.
fn push_torn(
    alloc: Global,
    images: &mut Vec<Vec<u8>>,
    old: &[u8],
    write: &Write,
) -> Result<(), AllocError> {
    for count in 0..=write.bytes.len() {
        if count % 8 != 0 && count != write.bytes.len() {
            continue;
        }
        for is_front in [true, false] {
            let mut image = old.to_vec(alloc)?;
            let bytes = torn(alloc, old, write, count, is_front)?;
            put_over(&mut image, write.at, &bytes)?;
            images.push(image)?;
        }
    }
    Ok(())
}

impl TracedDisk {
    /// A disk with these bytes, all of them synced, whose call with this number fails, the first being 1.
    pub fn new(alloc: Global, bytes: &[u8], failing: u64) -> Result<TracedDisk, AllocError> {
        Ok(TracedDisk {
            alloc,
            synced: bytes.to_vec(alloc)?,
            content: bytes.to_vec(alloc)?,
            unsynced: Vec::new(alloc),
            calls: 0,
            failing,
            faults: 0,
        })
    }

    /// The images that a crash now may leave.
    pub fn images(&self) -> Result<Vec<Vec<u8>>, AllocError> {
        let mut images = Vec::new(self.alloc);
        images.push(self.synced.clone()?)?;
        for write in &self.unsynced {
            let mut altered = Vec::new(self.alloc);
            for image in &images {
                push_images(self.alloc, &mut altered, image, write)?;
            }
            images = altered;
        }
        Ok(images)
    }

    /// Some of them: of each write each eighth front and back. A house takes longer to open than a walk.
    pub fn torn_images(&self) -> Result<Vec<Vec<u8>>, AllocError> {
        let mut images = Vec::new(self.alloc);
        images.push(self.synced.clone()?)?;
        for write in &self.unsynced {
            let mut torn = Vec::new(self.alloc);
            for image in &images {
                push_torn(self.alloc, &mut torn, image, write)?;
            }
            images = torn;
        }
        Ok(images)
    }

    fn keep(&mut self, at: usize, bytes: &[u8]) -> Result<(), AllocError>
        ensures { self.new.faults ≡ self.old.faults }
    {
        let write = Write {
            at,
            bytes: bytes.to_vec(self.alloc)?,
        };
        self.unsynced.push(write)?;
        put_over(&mut self.content, at, bytes)
    }

    // Counts a call, and its fault where it is the one that fails or was out of memory.
    fn end_call(&mut self, outcome: Result<(), AllocError>) -> Result<(), Failed>
        ensures counts { CountsFault result self.old.faults self.new.faults }
    {
        self.calls = self.calls.saturating_add(1);
        if self.calls == self.failing || outcome.is_err() {
            self.faults = self.faults.saturating_add(1);
            return Err(Failed);
        }
        Ok(())
    }
}

impl Disk for TracedDisk {
    ghost use Rattle.std.specs.Prelude.{None};

    ghost history = { λ _. None };

    ghost fault_count = { λ d. d.faults };

    fn faults(&self) -> u64 {
        self.faults
    }

    fn attach(&mut self, name: &str) -> Result<(), Failed> {
        let _ = name;
        self.end_call(Ok(()))
    }

    fn length(&mut self) -> Result<u64, Failed> {
        self.end_call(Ok(()))?;
        Ok(self.content.len() as u64)
    }

    fn read(&mut self, at: u64, into: &mut [u8]) -> Result<usize, Failed> {
        self.end_call(Ok(()))?;
        let rest = self.content.get(at as usize..).unwrap_or(&[]);
        let count = rest.len().min(into.len());
        into[..count].copy_from_slice(&rest[..count]);
        Ok(count)
    }

    fn write_at(&mut self, at: u64, bytes: &[u8]) -> Result<(), Failed> {
        let outcome = self.keep(at as usize, bytes);
        self.end_call(outcome)
    }

    fn cut(&mut self, length: u64) -> Result<(), Failed> {
        let _ = length;
        self.end_call(Err(AllocError))
    }

    fn sync(&mut self) -> Result<(), Failed> {
        self.end_call(Ok(()))?;
        let copied: Result<Vec<u8>, AllocError> = self.content.clone();
        let Ok(synced) = copied else {
            return self.end_call(Err(AllocError));
        };
        self.synced = synced;
        self.unsynced.clear();
        Ok(())
    }
}
