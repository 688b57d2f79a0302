//! The changes of a journal in memory.
ghost use Rattle.std.specs.Prelude.{◌≡◌, ◌+◌, ◌<◌, ◌≤◌, ◌^◌, [], ◌∷◌, ◌++◌, List, ℕ, length, slice_index_or, IfOk, OnOk, OnErr};
ghost use Rattle.command_types.specs.declared.spelling.Spelling.TheVariants.{Second};
ghost use Rattle.journal_core.specs.Holds.{Holds};
ghost use Rattle.journal_core.specs.RecordBytes.{walked_of};
ghost use Rattle.journal_core.specs.Walk.{bytes_of, IsWalked};
ghost use Rattle.recovery.specs.Bodies.{changes_in};
ghost use Rattle.record_pool.specs.Pool.{spelled};

use crate::appended::Appended;
use crate::opened::Opened;
use command_types::Spelling;
use journal_core::RecordBytes;
use std::alloc::{AllocError, Global};
use std::marker::Model;

/// The records of a journal's changes. Contracts see each change's spelling and its bytes, and for how many more bytes there is
/// room.
#[derive(Drop)]
pub struct Pool {
    opened: Option<Opened>,
    appended: Appended,
}

impl Model for Pool {
    ghost use Rattle.std.specs.Prelude.{◌++◌, map, unwrap_or, []};
    ghost use Rattle.record_pool.specs.Parts.{in_second};
    ghost use Rattle.record_pool.specs.Pool.{PoolView};

    ghost Value = { PoolView };

    ghost view = { λ p. record { changes = unwrap_or p.opened [] ++ map in_second p.appended.records; room = p.appended.room } };
}

// Puts a change's record that was read behind other bytes, in the second spelling.
fn put_opened(opened: &Opened, number: u64, into: &mut Vec<u8>) -> Result<(), AllocError>
    requires { number < length opened.now }
    ensures { OnOk result (into.new.items ≡ into.old.items ++ spelled (slice_index_or opened.now number (Second, []))) }
{
    let (spelling, bytes) = opened.get(number);
    match spelling {
        Spelling::First => {
            into.reserve(bytes.len() + 8)?;
            into.extend_from_slice(&[0; 8])?;
            into.extend_from_slice(bytes)?;
            Ok(())
        }
        Spelling::Second => {
            into.extend_from_slice(bytes)?;
            Ok(())
        }
    }
}

impl Pool {
    /// No changes, and no room for any. It takes no memory.
    pub fn new(alloc: Global) -> Pool
        ensures { result ≡ record { changes = []; room = 0 } }
    {
        Pool {
            opened: None,
            appended: Appended::new(alloc),
        }
    }

    /// The changes of a file whose body begins in this spelling, which keeps its bytes. The only error is want of memory.
    pub fn opened(alloc: Global, records: RecordBytes, start: Spelling) -> Result<Pool, AllocError>
        requires { IsWalked (walked_of records) }
        ensures { IfOk result (λ pool. (base : List ℕ) (all : List (List ℕ)) → Holds (bytes_of (walked_of records)) base all → pool ≡ record { changes = changes_in start all; room = 0 }) }
    {
        let opened = Opened::of(alloc, records, start)?;
        Ok(Pool {
            opened: Some(opened),
            appended: Appended::new(alloc),
        })
    }

    /// How many there are.
    pub fn len(&self) -> u64
        ensures { result ≡ length self.now.changes }
    {
        match &self.opened {
            Some(opened) => opened.len() + self.appended.len(),
            None => self.appended.len(),
        }
    }

    /// Makes room for so many more bytes, five and its own for each record. The only error is want of memory, which changes
    /// nothing.
    pub fn make_room(&mut self, alloc: Global, more: u64) -> Result<(), AllocError>
        ensures changes { self.new.changes ≡ self.old.changes }
        ensures keeps { self.old.room ≤ self.new.room }
        ensures room { OnOk result (more ≤ self.new.room) }
        ensures err { OnErr result (self.new ≡ self.old) }
    {
        self.appended.make_room(alloc, more)?;
        Ok(())
    }

    /// Puts a record of the second spelling behind the others, for which there is room. It takes no memory.
    pub fn push(&mut self, record_bytes: &[u8])
        requires small { length record_bytes.now < 2 ^ 32 }
        requires room { 5 + length record_bytes.now ≤ self.old.room }
        ensures changes { self.new.changes ≡ self.old.changes ++ (Second, record_bytes.now) ∷ [] }
        ensures room { self.new.room + (5 + length record_bytes.now) ≡ self.old.room }
    {
        self.appended.push(record_bytes);
    }

    // Puts a change's record in the second spelling behind other bytes.
    fn copy(&self, number: u64, into: &mut Vec<u8>) -> Result<(), AllocError>
        requires { number < length self.now.changes }
        ensures { OnOk result (into.new.items ≡ into.old.items ++ spelled (slice_index_or self.now.changes number (Second, []))) }
    {
        let Some(opened) = &self.opened else {
            self.appended.copy(number, into)?;
            return Ok(());
        };
        let count = opened.len();
        if number < count {
            put_opened(opened, number, into)?;
            return Ok(());
        }
        self.appended.copy(number - count, into)?;
        Ok(())
    }

    /// A change's record in the second spelling: one of the first has eight zeros in front. The only error is want of memory.
    pub fn get(&self, alloc: Global, number: u64) -> Result<Vec<u8>, AllocError>
        requires { number < length self.now.changes }
        ensures { IfOk result (λ bytes. bytes.items ≡ spelled (slice_index_or self.now.changes number (Second, []))) }
    {
        let mut bytes = Vec::new(alloc);
        self.copy(number, &mut bytes)?;
        Ok(bytes)
    }
}
