//! How records are appended.
ghost use Rattle.std.specs.Prelude.{◌≡◌, ◌≤◌, ◌↔◌, ◌+◌, [], ◌∷◌, length, true, false, None, IsTrue, OnOk, OnErr};
ghost use Rattle.outside.specs.Faults.{CountsFault};
ghost use Rattle.journal_core.specs.Holds.{limit};
ghost use Rattle.journal_core.specs.Frame.{framed, frames_length};
ghost use Rattle.journal_core.specs.Journal.{disk_of, form_of, size_of, staged_of, is_sound, IsReady};
ghost use Rattle.journal_core.specs.Calls.{AreAppended, AreAppending, IsAppended, IsAppendedLast, IsAppending};

use crate::journal::LIMIT;
use crate::log::Log;
use crate::put::put;
use crate::{Frame, Frames, Journal};
use outside::{Disk, Failed};

impl<D: Disk> Journal<D> {
    /// Whether a record of this length fits below the limit.
    pub fn fits(&self, length: u64) -> bool
        ensures { IsTrue result ↔ (size_of self.now + 4 + length + 1 ≤ limit) }
    {
        self.end.saturating_add(length).saturating_add(5) <= LIMIT
    }

    /// Whether a record of this length fits below the limit behind these.
    pub fn fits_behind(&self, frames: &Frames, length: u64) -> bool
        ensures { IsTrue result ↔ (size_of self.now + frames_length frames.now + 4 + length + 1 ≤ limit) }
    {
        let behind = self.end.saturating_add(frames.size());
        behind.saturating_add(length).saturating_add(5) <= LIMIT
    }

    /// Whether these fit below the limit.
    pub fn fits_all(&self, frames: &Frames) -> bool
        ensures { IsTrue result ↔ (size_of self.now + frames_length frames.now ≤ limit) }
    {
        self.end.saturating_add(frames.size()) <= LIMIT
    }

    // Puts records behind the others. Their bytes are those behind the gate of the first.
    fn put_behind(&mut self, behind: &[u8], _records: &Log) -> Result<(), Failed>
        requires ready { IsReady (D.history (disk_of self.old)) (form_of self.old) (size_of self.old) }
        requires fits { size_of self.old + length behind.now ≤ limit }
        requires sound { is_sound self.old ≡ true }
        requires framed { 1 ∷ behind.now ≡ framed _records.now.items }
        ensures done { OnOk result (AreAppended (D.history (disk_of self.old)) (D.history (disk_of self.new)) (form_of self.old) (size_of self.old) (size_of self.new) _records.now.items) }
        ensures ready { OnOk result (IsReady (D.history (disk_of self.new)) (form_of self.new) (size_of self.new)) }
        ensures sound { OnOk result (is_sound self.new ≡ true) }
        ensures poisoned { OnErr result (is_sound self.new ≡ false) }
        ensures unstaged { staged_of self.new ≡ None }
        ensures form { form_of self.new ≡ form_of self.old }
        ensures size { OnOk result (size_of self.new ≡ size_of self.old + length behind.now) }
        ensures same_size { OnErr result (size_of self.new ≡ size_of self.old) }
        ensures any_moment { AreAppending (D.history (disk_of self.old)) (D.history (disk_of self.new)) (form_of self.old) (size_of self.old) _records.now.items }
        ensures last { IsAppendedLast (D.history (disk_of self.old)) (D.history (disk_of self.new)) (form_of self.old) (size_of self.old) }
        ensures counts { CountsFault result (D.fault_count (disk_of self.old)) (D.fault_count (disk_of self.new)) }
    {
        self.staged = None;
        self.sound = false;
        let gate = self.end.saturating_sub(1);
        put(&mut self.disk, self.end, behind)?;
        // The records have to be on the disk first: behind a gate that is torn open, what stands there counts.
        put(&mut self.disk, gate, &[1])?;
        self.end += behind.len() as u64;
        self.sound = true;
        Ok(())
    }

    /// Puts records behind the others, all at once, in four calls of the disk and without memory; in none, where there are no
    /// records. When it is done, each crash leaves a file that holds them too. A crash at any moment before leaves one that holds
    /// the records from before, with all of the new ones or with none, and until the last moment it may be with none. After a
    /// fault the journal is to be opened again.
    pub fn append_all(&mut self, frames: &Frames) -> Result<(), Failed>
        requires ready { IsReady (D.history (disk_of self.old)) (form_of self.old) (size_of self.old) }
        requires fits { size_of self.old + frames_length frames.now ≤ limit }
        requires sound { is_sound self.old ≡ true }
        ensures done { OnOk result (AreAppended (D.history (disk_of self.old)) (D.history (disk_of self.new)) (form_of self.old) (size_of self.old) (size_of self.new) frames.now) }
        ensures ready { OnOk result (IsReady (D.history (disk_of self.new)) (form_of self.new) (size_of self.new)) }
        ensures sound { OnOk result (is_sound self.new ≡ true) }
        ensures poisoned { OnErr result (is_sound self.new ≡ false) }
        ensures unstaged { staged_of self.new ≡ None }
        ensures form { form_of self.new ≡ form_of self.old }
        ensures size { OnOk result (size_of self.new ≡ size_of self.old + frames_length frames.now) }
        ensures same_size { OnErr result (size_of self.new ≡ size_of self.old) }
        ensures any_moment { AreAppending (D.history (disk_of self.old)) (D.history (disk_of self.new)) (form_of self.old) (size_of self.old) frames.now }
        ensures last { IsAppendedLast (D.history (disk_of self.old)) (D.history (disk_of self.new)) (form_of self.old) (size_of self.old) }
        ensures none { frames.now ≡ [] → disk_of self.new ≡ disk_of self.old }
        ensures counts { CountsFault result (D.fault_count (disk_of self.old)) (D.fault_count (disk_of self.new)) }
    {
        if frames.is_empty() {
            self.staged = None;
            return Ok(());
        }
        self.put_behind(&frames.bytes()[1..], frames.log())
    }

    /// Puts a record behind the others, in four calls of the disk and without memory. When it is done, each crash leaves
    /// a file that holds it too. A crash at any moment before leaves one that holds the records from before, with the
    /// new one or without, and until the last moment it may be without. After a fault the journal is to be opened again.
    pub fn append(&mut self, frame: &Frame) -> Result<(), Failed>
        requires ready { IsReady (D.history (disk_of self.old)) (form_of self.old) (size_of self.old) }
        requires fits { size_of self.old + 4 + length frame.now + 1 ≤ limit }
        requires sound { is_sound self.old ≡ true }
        ensures done { OnOk result (IsAppended (D.history (disk_of self.old)) (D.history (disk_of self.new)) (form_of self.old) (size_of self.old) (size_of self.new) frame.now) }
        ensures ready { OnOk result (IsReady (D.history (disk_of self.new)) (form_of self.new) (size_of self.new)) }
        ensures sound { OnOk result (is_sound self.new ≡ true) }
        ensures poisoned { OnErr result (is_sound self.new ≡ false) }
        ensures unstaged { staged_of self.new ≡ None }
        ensures form { form_of self.new ≡ form_of self.old }
        ensures size { OnOk result (size_of self.new ≡ size_of self.old + (5 + length frame.now)) }
        ensures same_size { OnErr result (size_of self.new ≡ size_of self.old) }
        ensures any_moment { IsAppending (D.history (disk_of self.old)) (D.history (disk_of self.new)) (form_of self.old) (size_of self.old) frame.now }
        ensures last { IsAppendedLast (D.history (disk_of self.old)) (D.history (disk_of self.new)) (form_of self.old) (size_of self.old) }
        ensures counts { CountsFault result (D.fault_count (disk_of self.old)) (D.fault_count (disk_of self.new)) }
    {
        self.put_behind(frame.behind_gate(), &Log::one(frame))
    }
}
