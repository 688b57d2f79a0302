//! The turn of a journal: behind it, changes are spelled with their moments.
ghost use Rattle.std.specs.Prelude.{◌≡◌, ◌≤◌, true, IfOk, IfErr};
ghost use Rattle.command_types.specs.Spelling as spellings;
ghost use Rattle.outside.specs.Faults.{Rose};
ghost use Rattle.journal_core.specs.Journal.{disk_of, form_of, size_of, is_sound, IsReady};
ghost use Rattle.house.specs.Storing.{StoresTurned, TurnsOnly, end_turned};

use command_types::Spelling;
use journal_core::{Frame, Journal};
use outside::{Disk, Failed};
use std::alloc::{AllocError, Global};

// The frame of the record that turns a journal. The only error is want of memory.
fn turn_frame(alloc: Global) -> Result<Frame, AllocError>
    ensures { IfOk result (λ frame. frame ≡ spellings.turn) }
{
    Frame::of(alloc, b"MOMENTS2")
}

/// That frame, and one for the records of ACCEPTs. The only error is want of memory.
pub(crate) fn frames(alloc: Global) -> Result<(Frame, Frame), AllocError>
    ensures { IfOk result (λ f. f.0 ≡ spellings.turn) }
{
    let turn = turn_frame(alloc)?;
    let short = Frame::short(alloc)?;
    Ok((turn, short))
}

/// The journal, turned if it goes on in the first spelling and has room for that, in four calls of the disk and without memory. A
/// crash at any moment leaves what stands for the same history.
pub(crate) fn turned<D: Disk>(
    journal: Journal<D>,
    last: Spelling,
    turn: &Frame,
) -> Result<Journal<D>, (Failed, D)>
    requires turn { turn.now ≡ spellings.turn }
    requires ready { IsReady (D.history (disk_of journal)) (form_of journal) (size_of journal) }
    requires sound { is_sound journal ≡ true }
    ensures any_moment { IfOk result (λ j. TurnsOnly (D.history (disk_of journal)) journal last (D.history (disk_of j))) }
    ensures stored { IfOk result (λ j. StoresTurned (D.history (disk_of journal)) journal last (D.history (disk_of j)) j) }
    ensures size { IfOk result (λ j. size_of j ≡ end_turned last (size_of journal)) }
    ensures sound { IfOk result (λ j. is_sound j ≡ true) }
    ensures never_falls { IfOk result (λ j. D.fault_count (disk_of journal) ≤ D.fault_count (disk_of j)) }
    ensures any_moment_failed { IfErr result (λ e. TurnsOnly (D.history (disk_of journal)) journal last (D.history e.1)) }
    ensures never_falls_failed { IfErr result (λ e. D.fault_count (disk_of journal) ≤ D.fault_count e.1) }
    ensures failed { IfErr result (λ e. Rose (D.fault_count (disk_of journal)) (D.fault_count e.1)) }
{
    let mut journal = journal;
    match last {
        Spelling::Second => Ok(journal),
        Spelling::First => {
            if !journal.fits(8) {
                return Ok(journal);
            }
            match journal.append(turn) {
                Ok(()) => Ok(journal),
                Err(failed) => Err((failed, journal.end())),
            }
        }
    }
}
