//! A journal on a disk. What each call writes, and what a crash meanwhile leaves (`form.rt` draws the file):
//!
//! ```text
//! append    put(end, records and 00)        old records              they stand behind the closed gate, with open ones between them
//!           put(end - 1, 01)                old, or old and new      the gate opens, before all of them at once
//!           done                            old and new
//!
//! stage     put(body's place, body)         old base and records     where nothing is held
//!           put(other slot, offset)         old base and records     that slot is not selected
//!
//! switch    put(8, selector)                old, or the new base     one byte
//!           done                            the new base
//! ```
//!
//! Each `put` is a write and a sync, so the second write of an append finds the records on the disk.
ghost use Rattle.std.specs.Prelude.{◌≡◌, ◌≤◌, ◌<◌, ◌↔◌, ◌+◌, [], List, ℕ, length, true, false, Some, None, IsTrue, OnOk, OnErr, IfOk, IfErr, IfSome};
ghost use Rattle.outside.specs.Disk.{IsSettled};
ghost use Rattle.outside.specs.Faults.{CountsFault, Rose};
ghost use Rattle.journal_core.specs.Holds.{limit};
ghost use Rattle.journal_core.specs.Form.{IsSlots, begun_form, fold_end};
ghost use Rattle.journal_core.specs.Journal.{disk_of, form_of, size_of, staged_of, form_staged, end_staged, is_sound, EndsAt, IsReady, IsStaged, IsReadyToSwitch};
ghost use Rattle.journal_core.specs.Calls.{IsStarted, IsStarting, IsStaging, IsStagedBeside, IsSwitching, IsSwitched};

use crate::form::{HEADER, place_of};
use crate::put::put;
use crate::staged::Staged;
use crate::starting::begin;
use crate::{Form, Frame};
use outside::{Disk, Failed};
use units_core::MOST_JOURNAL;

mod appending;

/// The most bytes that a journal has.
pub(crate) const LIMIT: u64 = MOST_JOURNAL;

/// A journal on a disk, whose records end before a closed gate. After a fault of the disk it is to be opened again.
#[derive(Drop)]
pub struct Journal<D: Disk> {
    disk: D,
    form: Form,
    end: u64,
    staged: Option<Staged>,
    sound: bool,
}

impl<D: Disk> Journal<D> {
    /// A journal on a settled disk whose content has this form and ends at this place, as a walk found. A file that holds
    /// nothing is begun as one with slots. A crash at any moment leaves a file that holds what it held.
    pub fn start(disk: D, form: Form, end: u64) -> Result<Journal<D>, (Failed, D)>
        requires settled { IsSettled (D.history disk) }
        requires walked { EndsAt (D.history disk) form end }
        ensures at_rest { IfOk result (λ j. IsStarted (D.history disk) (D.history (disk_of j)) form) }
        ensures ready { IfOk result (λ j. IsReady (D.history (disk_of j)) (form_of j) (size_of j)) }
        ensures sound { IfOk result (λ j. is_sound j ≡ true) }
        ensures form { IfOk result (λ j. form_of j ≡ begun_form form) }
        ensures end { IfOk result (λ j. size_of j ≡ end) }
        ensures any_moment { IfOk result (λ j. IsStarting (D.history disk) (D.history (disk_of j))) }
        ensures any_moment_failed { IfErr result (λ e. IsStarting (D.history disk) (D.history e.1)) }
        ensures never_falls { IfOk result (λ j. D.fault_count disk ≤ D.fault_count (disk_of j)) }
        ensures never_falls_failed { IfErr result (λ e. D.fault_count disk ≤ D.fault_count e.1) }
        ensures failed { IfErr result (λ e. Rose (D.fault_count disk) (D.fault_count e.1)) }
    {
        let mut disk = disk;
        match begin(&mut disk, form) {
            Ok(()) => Ok(Journal {
                disk,
                form: form.begun(),
                end,
                staged: None,
                sound: true,
            }),
            Err(failed) => Err((failed, disk)),
        }
    }

    /// How many bytes the journal has.
    pub fn bytes(&self) -> u64
        ensures { result ≡ size_of self.now }
    {
        self.end
    }

    /// Whether its file has slots, so that a base can be staged in it.
    pub fn has_slots(&self) -> bool
        ensures { IsTrue result ↔ IsSlots (form_of self.now) }
    {
        match self.form {
            Form::Slots { .. } => true,
            Form::Short | Form::Plain | Form::SlotsShort => false,
        }
    }

    /// Whether the body of a base of this length fits below the limit.
    pub fn fold_fits(&self, length: u64) -> bool
        ensures { IsTrue result ↔ (fold_end (form_of self.now) (size_of self.now) length ≤ limit) }
    {
        let size = length.saturating_add(5);
        self.form.body_place(self.end, size).saturating_add(size) <= LIMIT
    }

    /// Puts a base's body where nothing is held, and its offset into the slot that is not selected, in four calls of the disk
    /// and without memory. A crash at any moment leaves a file that holds what it held.
    pub fn stage(&mut self, base: &Frame) -> Result<(), Failed>
        requires slots { IsSlots (form_of self.old) }
        requires ready { IsReady (D.history (disk_of self.old)) (form_of self.old) (size_of self.old) }
        requires fits { fold_end (form_of self.old) (size_of self.old) (length base.now) ≤ limit }
        requires sound { is_sound self.old ≡ true }
        ensures done { OnOk result (IsStagedBeside (D.history (disk_of self.old)) (D.history (disk_of self.new)) (form_of self.old) (size_of self.old)) }
        ensures staged { OnOk result (IfSome (staged_of self.new) (λ s. IsStaged (D.history (disk_of self.new)) s base.now)) }
        ensures ready { OnOk result (IsReady (D.history (disk_of self.new)) (form_of self.new) (size_of self.new)) }
        ensures to_switch { OnOk result (IsReadyToSwitch (D.history (disk_of self.new)) (form_of self.new) (staged_of self.new)) }
        ensures place { OnOk result (IfSome (staged_of self.new) (λ s. end_staged s ≡ fold_end (form_of self.old) (size_of self.old) (length base.now))) }
        ensures sound { OnOk result (is_sound self.new ≡ true) }
        ensures poisoned { OnErr result (is_sound self.new ≡ false) }
        ensures form { form_of self.new ≡ form_of self.old }
        ensures size { size_of self.new ≡ size_of self.old }
        ensures any_moment { IsStaging (D.history (disk_of self.old)) (D.history (disk_of self.new)) (form_of self.old) (size_of self.old) }
        ensures counts { CountsFault result (D.fault_count (disk_of self.old)) (D.fault_count (disk_of self.new)) }
    {
        self.staged = None;
        self.sound = false;
        let body = base.behind_gate();
        let size = body.len() as u64;
        let offset = self.form.body_place(self.end, size);
        let selected = self.form.other_slot();
        put(&mut self.disk, offset, body)?;
        put(&mut self.disk, place_of(selected), &offset.to_le_bytes())?;
        self.staged = Some(Staged {
            selected,
            offset,
            end: offset + size,
        });
        self.sound = true;
        Ok(())
    }

    /// Selects the slot that was staged, in two calls of the disk and without memory. When it is done, each crash leaves a file
    /// that holds the staged base without records. A crash at any moment before leaves one that holds that, or what was held.
    pub fn switch(&mut self) -> Result<(), Failed>
        requires ready { IsReady (D.history (disk_of self.old)) (form_of self.old) (size_of self.old) }
        requires staged { IsReadyToSwitch (D.history (disk_of self.old)) (form_of self.old) (staged_of self.old) }
        requires sound { is_sound self.old ≡ true }
        ensures done { OnOk result (IfSome (staged_of self.old) (λ s. IsSwitched (D.history (disk_of self.old)) (D.history (disk_of self.new)) s (form_of self.new) (size_of self.new))) }
        ensures ready { OnOk result (IsReady (D.history (disk_of self.new)) (form_of self.new) (size_of self.new)) }
        ensures form { OnOk result (IfSome (staged_of self.old) (λ s. form_of self.new ≡ form_staged s)) }
        ensures size { OnOk result (IfSome (staged_of self.old) (λ s. size_of self.new ≡ end_staged s)) }
        ensures same { OnErr result ((form_of self.new ≡ form_of self.old) × (size_of self.new ≡ size_of self.old)) }
        ensures sound { OnOk result (is_sound self.new ≡ true) }
        ensures poisoned { OnErr result (is_sound self.new ≡ false) }
        ensures any_moment { IfSome (staged_of self.old) (λ s. IsSwitching (D.history (disk_of self.old)) (D.history (disk_of self.new)) (form_of self.old) (size_of self.old) s) }
        ensures counts { CountsFault result (D.fault_count (disk_of self.old)) (D.fault_count (disk_of self.new)) }
    {
        let Some(staged) = self.staged else {
            return Ok(());
        };
        self.sound = false;
        // One byte: a crash leaves one selector or the other, whatever it tears.
        put(&mut self.disk, HEADER as u64, &[staged.selected])?;
        self.form = Form::Slots {
            selected: staged.selected,
            offset: staged.offset,
        };
        self.end = staged.end;
        self.staged = None;
        self.sound = true;
        Ok(())
    }

    /// The disk below it.
    pub fn end(self) -> D
        ensures { result ≡ disk_of self }
    {
        self.disk
    }
}
