//! A trial of a standby over bytes in memory: how it begins, what its primary replies, and how that ends.

ghost use Rattle.std.specs.Prelude.{◌≡◌, false, IfOk};
ghost use Rattle.house.specs.House.{is_stopped};

use crate::houses::{crashed, disk_below, house_on, is_found, large_disk_of, named};
use crate::replies::{Told, source_of};
use house::House;
use outside::{Disk, MemoryDisk, MemorySink};
use standby::FollowEnd;
use standby_link::{Login, follow};
use std::alloc::Global;
use std::process::Abort;
use std::test::Fail;

/// A standby on a journal, and what becomes of it.
#[derive(Clone, Copy)]
pub struct Trial {
    pub journal: &'static [u8],
    /// Whether it asks for its last entry again.
    pub compare: bool,
    pub replies: &'static [Told],
    /// The read, the write and the call of the disk that fail, none where it is 0.
    pub faults: [u64; 3],
    /// What it writes.
    pub lines: &'static [u8],
    pub end: FollowEnd,
    /// How many entries there are after a crash, and the gross.
    pub found: (u64, u64),
}

// A house on this journal, whose call of the disk with this number fails.
fn house_at(
    rt: &impl Abort,
    alloc: Global,
    journal: &[u8],
    call: u64,
) -> Result<House<MemoryDisk>, Fail>
    ensures { IfOk result (λ house. is_stopped house ≡ false) }
{
    let mut disk = large_disk_of(alloc, journal)?;
    disk.fail_at(call)?;
    let house = house_on(rt, alloc, disk)?;
    if house.is_stopped() {
        return Err(Fail::new("the house is stopped"));
    }
    Ok(house)
}

// Whether a trial goes so.
fn goes(rt: &impl Abort, alloc: Global, trial: &Trial) -> Result<bool, Fail> {
    let [read, write, call] = trial.faults;
    let mut source = source_of(alloc, trial.replies, read)?;
    let mut sink = MemorySink::new(alloc, 256)?;
    sink.fail_at(write)?;
    let mut house = house_at(rt, alloc, trial.journal, call)?;
    let login = Login {
        name: named(b"OPS"),
        key: named(b"KO"),
        compare: trial.compare,
    };
    let is_ended = follow(alloc, &mut house, login, &mut source, &mut sink) == trial.end;
    let is_written = sink.bytes() == trial.lines;
    let (length, gross) = trial.found;
    let is_kept = is_found(rt, alloc, crashed(disk_below(house)), length, gross)?;
    Ok(is_ended && is_written && is_kept)
}

/// Whether all go so.
pub fn all_go(rt: &impl Abort, alloc: Global, trials: &[Trial]) -> Result<bool, Fail> {
    for trial in trials {
        if !goes(rt, alloc, trial)? {
            return Ok(false);
        }
    }
    Ok(true)
}
