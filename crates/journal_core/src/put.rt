//! A write and the sync behind it.
ghost use Rattle.std.specs.Prelude.{◌≡◌, length, OnOk};
ghost use Rattle.outside.specs.Disk.{IsPlace, IsSettled};
ghost use Rattle.outside.specs.Faults.{CountsFault};
ghost use Rattle.journal_core.specs.Moments.{LeavesOnly, TornOf, Puts, MayLeaveYet, IsContent};

use outside::{Disk, Failed};

// Writes the bytes at a place of a settled disk, and syncs it.
pub(crate) fn put<D: Disk>(disk: &mut D, place: u64, bytes: &[u8]) -> Result<(), Failed>
    requires place { IsPlace (D.history disk.old) place }
    requires settled { IsSettled (D.history disk.old) }
    ensures done { OnOk result (Puts (D.history disk.old) place bytes.now (D.history disk.new)) }
    ensures any_moment { LeavesOnly (D.history disk.old) (D.history disk.new) (TornOf (D.history disk.old) place (length bytes.now)) }
    ensures yet { MayLeaveYet (D.history disk.old) (D.history disk.new) (IsContent (D.history disk.old)) }
    ensures counts { CountsFault result (D.fault_count disk.old) (D.fault_count disk.new) }
{
    disk.write_at(place, bytes)?;
    disk.sync()?;
    Ok(())
}
