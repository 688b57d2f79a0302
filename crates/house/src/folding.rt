//! Whether a house opens with the fold of its history, and the fold of its journal.
ghost use Rattle.std.specs.Prelude.{◌≡◌, ◌≤◌, length, true, IfOk, OnOk};
ghost use Rattle.command_types.specs.History.{History};
ghost use Rattle.outside.specs.Faults.{CountsFault};
ghost use Rattle.journal_core.specs.Form.{IsSlots, fold_end};
ghost use Rattle.journal_core.specs.Holds.{limit};
ghost use Rattle.journal_core.specs.Journal.{disk_of, form_of, size_of, is_sound, IsReady};
ghost use Rattle.cycle_laws.specs.Bases.{IsWritable};
ghost use Rattle.cycle_states.specs.Replayed.{IsReplayed};
ghost use Rattle.house.specs.Due.{IsDueBase, IsDue, IsFoldOf, FoldsOnly, StoresFold};

use crate::past::Past;
use base_codec::encode_base;
use command_types::Base;
use cycle_states::Machine;
use journal_core::{Form, Frame, Journal};
use outside::{Disk, Failed};
use std::alloc::{AllocError, Global};
use units_core::{MOST_JOURNAL, MOST_NUMBER};

/// The fewest changes that are folded.
pub const FEWEST_TO_FOLD: u64 = 1_000;

// What is written where the machine stands at the history's end, if the history may be folded.
fn due_base(alloc: Global, machine: &Machine, past: &Past) -> Result<Option<Base>, AllocError>
    requires { IsReplayed machine.now.state past.now }
    ensures { IfOk result (IsDueBase past.now) }
{
    if past.count() < FEWEST_TO_FOLD {
        return Ok(None);
    }
    let Some(base) = machine.base(alloc, past.length())? else {
        return Ok(None);
    };
    let small = base.position <= MOST_NUMBER
        && base.cycle <= MOST_NUMBER
        && base.version <= MOST_NUMBER;
    if !small {
        return Ok(None);
    }
    Ok(Some(base))
}

// The base of a fold as a journal takes it, and how many bytes it has.
#[derive(Drop)]
pub(crate) struct Folding {
    frame: Frame,
    pub(crate) size: u64,
}

impl Folding {
    /// The fold of this history, to which the machine's state belongs, if it may be folded in a file of this form. No base that
    /// has more bytes than a journal is made ready. The only error is want of memory.
    pub(crate) fn of(
        alloc: Global,
        machine: &Machine,
        past: &Past,
        form: Form,
    ) -> Result<Option<Folding>, AllocError>
        requires replayed { IsReplayed machine.now.state past.now }
        requires writable { IsWritable past.now.base.state.roster past.now.base.state }
        ensures { IfOk result (IsDue form past.now) }
    {
        if !matches!(form, Form::Slots { .. }) {
            return Ok(None);
        }
        let Some(base) = due_base(alloc, machine, past)? else {
            return Ok(None);
        };
        let bytes = encode_base(alloc, &base)?;
        let size = bytes.len() as u64;
        if size > MOST_JOURNAL {
            return Ok(None);
        }
        let frame = Frame::of(alloc, &bytes)?;
        Ok(Some(Folding { frame, size }))
    }

    /// Folds the journal, in six calls of the disk and without memory. A crash at any moment leaves what stands for the history
    /// from before or for its fold.
    pub(crate) fn apply<D: Disk>(&self, journal: &mut Journal<D>) -> Result<(), Failed>
        requires slots { IsSlots (form_of journal.old) }
        requires ready { IsReady (D.history (disk_of journal.old)) (form_of journal.old) (size_of journal.old) }
        requires fits { fold_end (form_of journal.old) (size_of journal.old) self.now.size ≤ limit }
        requires sound { is_sound journal.old ≡ true }
        requires sized { self.now.size ≡ length self.now.frame }
        ensures any_moment { FoldsOnly (D.history (disk_of journal.old)) journal.old self.now.frame (D.history (disk_of journal.new)) }
        ensures stored { OnOk result (StoresFold (D.history (disk_of journal.old)) journal.old self.now.frame (D.history (disk_of journal.new)) journal.new) }
        ensures size { OnOk result (size_of journal.new ≡ fold_end (form_of journal.old) (size_of journal.old) self.now.size) }
        ensures sound { OnOk result (is_sound journal.new ≡ true) }
        ensures counts { CountsFault result (D.fault_count (disk_of journal.old)) (D.fault_count (disk_of journal.new)) }
    {
        journal.stage(&self.frame)?;
        journal.switch()?;
        Ok(())
    }
}
