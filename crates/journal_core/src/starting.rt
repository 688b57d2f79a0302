//! How a file that holds nothing is begun.
ghost use Rattle.std.specs.Prelude.{◌≡◌, [], ℕ, OnOk};
ghost use Rattle.outside.specs.Disk.{IsSettled};
ghost use Rattle.outside.specs.Faults.{CountsFault};
ghost use Rattle.journal_core.specs.declared.form.Form.TheVariants.{Slots};
ghost use Rattle.journal_core.specs.Journal.{IsTiny, IsBare, IsShortAs, IsAtRest};
ghost use Rattle.journal_core.specs.Calls.{IsStarted, IsStarting};

use crate::Form;
use crate::form::HEADER;
use crate::put::put;
use outside::{Disk, Failed};

// Gives a file that begins with the header of one with slots, and holds nothing, its slots, an empty base and a closed gate.
// The selector is written too: such a file may hold any byte there.
fn begin_slots<D: Disk>(disk: &mut D) -> Result<(), Failed>
    requires settled { IsSettled (D.history disk.old) }
    requires bare { IsBare (D.history disk.old) }
    ensures at_rest { OnOk result (IsAtRest (D.history disk.new) (Slots 0 25) 30 [] []) }
    ensures any_moment { IsStarting (D.history disk.old) (D.history disk.new) }
    ensures counts { CountsFault result (D.fault_count disk.old) (D.fault_count disk.new) }
{
    put(
        disk,
        HEADER as u64,
        &[
            0, 25, 0, 0, 0, 0, 0, 0, 0, 0, 0, 0, 0, 0, 0, 0, 0, 0, 0, 0, 0, 0,
        ],
    )?;
    Ok(())
}

// Gives a file of fewer than ten bytes the header, and then its slots: in one write a crash might leave ten bytes or more that
// don't begin with the header.
fn begin_short<D: Disk>(disk: &mut D) -> Result<(), Failed>
    requires settled { IsSettled (D.history disk.old) }
    requires tiny { IsTiny (D.history disk.old) }
    ensures at_rest { OnOk result (IsAtRest (D.history disk.new) (Slots 0 25) 30 [] []) }
    ensures any_moment { IsStarting (D.history disk.old) (D.history disk.new) }
    ensures counts { CountsFault result (D.fault_count disk.old) (D.fault_count disk.new) }
{
    put(disk, 0, b"OTCJRNLC\0")?;
    begin_slots(disk)?;
    Ok(())
}

// Begins a file of this form if it holds nothing.
pub(crate) fn begin<D: Disk>(disk: &mut D, form: Form) -> Result<(), Failed>
    requires settled { IsSettled (D.history disk.old) }
    requires short { IsShortAs form (D.history disk.old) }
    ensures at_rest { OnOk result (IsStarted (D.history disk.old) (D.history disk.new) form) }
    ensures any_moment { IsStarting (D.history disk.old) (D.history disk.new) }
    ensures counts { CountsFault result (D.fault_count disk.old) (D.fault_count disk.new) }
{
    match form {
        Form::Short => {
            begin_short(disk)?;
            Ok(())
        }
        Form::SlotsShort => {
            begin_slots(disk)?;
            Ok(())
        }
        Form::Plain => Ok(()),
        Form::Slots { .. } => Ok(()),
    }
}
