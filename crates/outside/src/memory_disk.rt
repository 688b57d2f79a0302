//! A disk over memory.
ghost use Rattle.std.specs.Prelude.{◌≡◌, ℕ, ◌+◌, ◌-◌, vec_len, vec_capacity, ◌≤◌, ◌<◌, min, take, drop, length, Some, [], ◌∷◌, ◌++◌, IsErr, IsTrue, ◌↔◌, IfOk, OnOk, OnErr};
ghost use Rattle.outside.specs.Faults.{CountsFault};
ghost use Rattle.outside.specs.Disk.{overwritten, Change, may_leave, IsPlace, HasLength, Reads, Steps, Breaks, after_write, after_cut, after_sync};
ghost use Rattle.outside.specs.MemoryDisk.{fresh_store, next_call_fails, next_step_fails, store_after_fault, store_after_look, store_after_step};

use crate::{Disk, Failed};
use std::alloc::{AllocError, Global};
use std::marker::Model;

// A write, a cut or a sync that succeeded.
#[derive(Clone, Copy)]
pub(crate) enum Step {
    Write(u64, u64),
    Cut(u64),
    Sync,
}

/// A disk over memory with a fixed room, which keeps each of its moments. Those of its calls fail that it is told to,
/// and those writes, cuts and syncs that find no room left. Contracts see it as what it holds and what a crash may leave
/// at each moment, its room and what is used of it, the number of its calls, the calls that fail and the number that
/// failed.
#[derive(Drop)]
pub struct MemoryDisk {
    room: usize,
    most_steps: usize,
    first: Vec<u8>,
    steps: Vec<Step>,
    written: Vec<u8>,
    synced: Vec<u8>,
    content: Vec<u8>,
    calls: u64,
    failing: Vec<u64>,
    faults: u64,
}

impl Model for MemoryDisk {
    ghost use Rattle.std.specs.Prelude.{◌+◌, ◌≤◌, length, vec_len, vec_capacity};
    ghost use Rattle.outside.specs.Disk.{settled_history};
    ghost use Rattle.outside.specs.MemoryDisk.{MemoryStore, replayed, IsKept};

    ghost Value = { MemoryStore };

    ghost view = { λ d. record {
      history = replayed d.steps.items d.written.items (settled_history d.first.items);
      room = d.room;
      used = length d.first.items + length d.written.items;
      most_steps = d.most_steps;
      steps = length d.steps.items;
      calls = d.calls;
      failing = d.failing.items;
      faults = d.faults;
    } };

    ghost invariant = { λ d. IsKept d.first.items d.steps.items d.written.items d.synced.items d.content.items
        × (length d.first.items + length d.written.items ≤ d.room) × (length d.steps.items ≤ d.most_steps)
        × (d.room ≤ vec_capacity d.first) × (d.room ≤ vec_capacity d.written) × (d.room ≤ vec_capacity d.synced)
        × (d.room ≤ vec_capacity d.content) × (d.most_steps ≤ vec_capacity d.steps) };
}

// Puts a piece behind the bytes, for which there is room.
fn push_all(bytes: &mut Vec<u8>, piece: &[u8])
    requires { vec_len bytes.old + length piece.now ≤ vec_capacity bytes.old }
    ensures items { bytes.new.items ≡ bytes.old.items ++ piece.now }
    ensures capacity { vec_capacity bytes.new ≡ vec_capacity bytes.old }
{
    for byte in piece {
        bytes.push_reserved(*byte);
    }
}

// Writes a piece over the bytes at a place, and past their end, for which there is room.
fn write_over(bytes: &mut Vec<u8>, place: usize, piece: &[u8])
    requires place { place ≤ vec_len bytes.old }
    requires room { place + length piece.now ≤ vec_capacity bytes.old }
    ensures items { bytes.new.items ≡ overwritten place piece.now bytes.old.items }
    ensures capacity { vec_capacity bytes.new ≡ vec_capacity bytes.old }
{
    let over = piece.len().min(bytes.len() - place);
    bytes[place..place + over].copy_from_slice(&piece[..over]);
    push_all(bytes, &piece[over..]);
}

// Leaves only the bytes before a length.
fn shorten(bytes: &mut Vec<u8>, size: u64)
    ensures items { bytes.new.items ≡ take size bytes.old.items }
    ensures capacity { vec_capacity bytes.new ≡ vec_capacity bytes.old }
{
    if size < bytes.len() as u64 {
        bytes.truncate(size as usize);
    }
}

// Makes the bytes those of another list, for which there is room.
fn refill(bytes: &mut Vec<u8>, other: &[u8])
    requires { length other.now ≤ vec_capacity bytes.old }
    ensures items { bytes.new.items ≡ other.now }
    ensures capacity { vec_capacity bytes.new ≡ vec_capacity bytes.old }
{
    bytes.clear();
    push_all(bytes, other);
}

// Copies the bytes from a place on to the front of a buffer, as many as there are and fit, and says how many.
fn copy_from(bytes: &[u8], place: u64, into: &mut [u8]) -> usize
    ensures count { result ≡ min (length into.old) (length bytes.now - place) }
    ensures copied { into.new ≡ take result (drop place bytes.now) ++ drop result into.old }
{
    if place >= bytes.len() as u64 {
        return 0;
    }
    let place = place as usize;
    let n = into.len().min(bytes.len() - place);
    into[..n].copy_from_slice(&bytes[place..place + n]);
    n
}

impl MemoryDisk {
    /// An empty disk with room for that many bytes of writes, and for that many writes, cuts and syncs, all of it taken
    /// now, and no call that is told to fail.
    pub fn new(alloc: Global, bytes: usize, calls: usize) -> Result<MemoryDisk, AllocError>
        ensures { IfOk result (λ d. d ≡ fresh_store bytes calls []) }
    {
        Ok(MemoryDisk {
            room: bytes,
            most_steps: calls,
            first: Vec::with_capacity(alloc, bytes)?,
            steps: Vec::with_capacity(alloc, calls)?,
            written: Vec::with_capacity(alloc, bytes)?,
            synced: Vec::with_capacity(alloc, bytes)?,
            content: Vec::with_capacity(alloc, bytes)?,
            calls: 0,
            failing: Vec::new(alloc),
            faults: 0,
        })
    }

    /// Lets that call fail too, the first since the disk was made being 1.
    pub fn fail_at(&mut self, call: u64) -> Result<(), AllocError>
        ensures listed { OnOk result (self.new ≡ record self.old { failing = self.old.failing ++ call ∷ [] }) }
        ensures refused { OnErr result (self.new ≡ self.old) }
    {
        self.failing.push(call)?;
        Ok(())
    }

    /// The disk after a crash now, which loses all that no sync followed, with no call that is told to fail.
    pub fn crash(mut self) -> MemoryDisk
        ensures image { may_leave self.history.now result.history.content }
        ensures fresh { result ≡ fresh_store self.room self.most_steps self.history.now.synced }
    {
        refill(&mut self.first, &self.synced);
        refill(&mut self.content, &self.synced);
        self.steps.clear();
        self.written.clear();
        self.failing.clear();
        self.calls = 0;
        self.faults = 0;
        self
    }

    // Counts a call, and a fault where the call is one of those that are to fail.
    fn begin(&mut self) -> Result<(), Failed>
        ensures fails { IsErr result ↔ IsTrue (next_call_fails self.old) }
        ensures fault { OnErr result (self.new ≡ store_after_fault self.old) }
        ensures counted { OnOk result (self.new ≡ store_after_look self.old) }
        ensures never_falls { self.old.faults ≤ self.new.faults }
    {
        self.calls = self.calls.saturating_add(1);
        if self.failing.contains(&self.calls) {
            self.faults = self.faults.saturating_add(1);
            return Err(Failed);
        }
        Ok(())
    }

    // Counts a call that takes a step, and a fault where it is one of those that are to fail or finds no room.
    fn begin_step(&mut self, count: usize) -> Result<(), Failed>
        ensures fails { IsErr result ↔ IsTrue (next_step_fails self.old count) }
        ensures fault { OnErr result (self.new ≡ store_after_fault self.old) }
        ensures counted { OnOk result (self.new ≡ store_after_look self.old) }
        ensures never_falls { self.old.faults ≤ self.new.faults }
        ensures steps { OnOk result (self.old.steps < self.old.most_steps) }
        ensures room { OnOk result (self.old.used + count ≤ self.old.room) }
    {
        let is_full = self.steps.len() >= self.most_steps;
        let finds_no_room = count > self.room - self.first.len() - self.written.len();
        self.calls = self.calls.saturating_add(1);
        if self.failing.contains(&self.calls) || is_full || finds_no_room {
            self.faults = self.faults.saturating_add(1);
            return Err(Failed);
        }
        Ok(())
    }
}

impl Disk for MemoryDisk {
    ghost use Rattle.std.specs.Prelude.{Some};

    ghost history = { λ d. Some d.history };

    ghost fault_count = { λ d. d.faults };

    fn faults(&self) -> u64
        ensures { result ≡ self.now.faults }
    {
        self.faults
    }

    /// Changes nothing, and fails exactly where this call is one of those that are to fail.
    fn attach(&mut self, name: &str) -> Result<(), Failed>
        ensures same { Some self.new.history ≡ Some self.old.history }
        ensures counts { CountsFault result self.old.faults self.new.faults }

        // Exactly this, besides what each disk promises.
        ensures fails { IsErr result ↔ IsTrue (next_call_fails self.old) }
        ensures fault { OnErr result (self.new ≡ store_after_fault self.old) }
        ensures after { OnOk result (self.new ≡ store_after_look self.old) }
    {
        let _ = name;
        self.begin()
    }

    /// Fails exactly where this call is one of those that are to fail.
    fn length(&mut self) -> Result<u64, Failed>
        ensures size { IfOk result (λ n. HasLength (Some self.old.history) n) }
        ensures same { Some self.new.history ≡ Some self.old.history }
        ensures counts { CountsFault result self.old.faults self.new.faults }

        // Exactly this, besides what each disk promises.
        ensures fails { IsErr result ↔ IsTrue (next_call_fails self.old) }
        ensures fault { OnErr result (self.new ≡ store_after_fault self.old) }
        ensures after { OnOk result (self.new ≡ store_after_look self.old) }
    {
        self.begin()?;
        Ok(self.content.len() as u64)
    }

    /// Fails exactly where this call is one of those that are to fail.
    fn read(&mut self, at: u64, into: &mut [u8]) -> Result<usize, Failed>
        ensures count { IfOk result (λ n. n ≤ length into.old) }
        ensures reads { IfOk result (λ n. Reads (Some self.old.history) at n into.old into.new) }
        ensures same { Some self.new.history ≡ Some self.old.history }
        ensures counts { CountsFault result self.old.faults self.new.faults }

        // Exactly this, besides what each disk promises.
        ensures fails { IsErr result ↔ IsTrue (next_call_fails self.old) }
        ensures fault { OnErr result (self.new ≡ store_after_fault self.old) }
        ensures kept { OnErr result (into.new ≡ into.old) }
        ensures after { OnOk result (self.new ≡ store_after_look self.old) }
    {
        self.begin()?;
        Ok(copy_from(&self.content, at, into))
    }

    /// Writes it all, exactly where this call is none of those that are to fail and there is room for it.
    fn write_at(&mut self, at: u64, bytes: &[u8]) -> Result<(), Failed>
        requires { IsPlace (Some self.old.history) at }
        ensures written { OnOk result (Steps (after_write at bytes.now) (Some self.old.history) (Some self.new.history)) }
        ensures broken { OnErr result (Breaks (Change.Write at (length bytes.now)) (Some self.old.history) (Some self.new.history)) }
        ensures counts { CountsFault result self.old.faults self.new.faults }

        // Exactly this, besides what each disk promises.
        ensures fails { IsErr result ↔ IsTrue (next_step_fails self.old (length bytes.now)) }
        ensures fault { OnErr result (self.new ≡ store_after_fault self.old) }
        ensures after { OnOk result (self.new ≡ store_after_step self.old (length bytes.now) (after_write at bytes.now self.old.history)) }
    {
        self.begin_step(bytes.len())?;
        write_over(&mut self.content, at as usize, bytes);
        push_all(&mut self.written, bytes);
        self.steps
            .push_reserved(Step::Write(at, bytes.len() as u64));
        Ok(())
    }

    /// Cuts, exactly where this call is none of those that are to fail and there is room for it.
    fn cut(&mut self, length: u64) -> Result<(), Failed>
        ensures shortened { OnOk result (Steps (after_cut length) (Some self.old.history) (Some self.new.history)) }
        ensures broken { OnErr result (Breaks (Change.Cut length) (Some self.old.history) (Some self.new.history)) }
        ensures counts { CountsFault result self.old.faults self.new.faults }

        // Exactly this, besides what each disk promises.
        ensures fails { IsErr result ↔ IsTrue (next_step_fails self.old 0) }
        ensures fault { OnErr result (self.new ≡ store_after_fault self.old) }
        ensures after { OnOk result (self.new ≡ store_after_step self.old 0 (after_cut length self.old.history)) }
    {
        self.begin_step(0)?;
        shorten(&mut self.content, length);
        self.steps.push_reserved(Step::Cut(length));
        Ok(())
    }

    /// Syncs, exactly where this call is none of those that are to fail and there is room for it.
    fn sync(&mut self) -> Result<(), Failed>
        ensures synced { OnOk result (Steps after_sync (Some self.old.history) (Some self.new.history)) }
        ensures same { OnErr result (Some self.new.history ≡ Some self.old.history) }
        ensures counts { CountsFault result self.old.faults self.new.faults }

        // Exactly this, besides what each disk promises.
        ensures fails { IsErr result ↔ IsTrue (next_step_fails self.old 0) }
        ensures fault { OnErr result (self.new ≡ store_after_fault self.old) }
        ensures after { OnOk result (self.new ≡ store_after_step self.old 0 (after_sync self.old.history)) }
    {
        self.begin_step(0)?;
        refill(&mut self.synced, &self.content);
        self.steps.push_reserved(Step::Sync);
        Ok(())
    }
}
