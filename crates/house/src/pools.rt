//! The records of a house's changes, when it is opened.
ghost use Rattle.std.specs.Prelude.{◌≡◌, ◌≤◌, [], List, IfOk};
ghost use Rattle.recovery.specs.declared.entries.EntryAt.{EntryAt};
ghost use Rattle.recovery.specs.Reading.{entries_in, file_of, HasRead, IsRead};
ghost use Rattle.house.specs.Chronicle.{AreRecords};
ghost use Rattle.house.specs.Pools.{HaveVotesRoom};
ghost use Rattle.house.specs.declared.chronicle.TheConstants.{VOTES_ROOM};

use crate::chronicle::VOTES_ROOM;
use record_pool::Pool;
use recovery::Entries;
use std::alloc::{AllocError, Global};

/// The records of the changes that were read, and none, for a house that opens with a fold. Both have room for the votes of all
/// members.
#[derive(Drop)]
pub(crate) struct Pools {
    pub(crate) read: Pool,
    pub(crate) empty: Pool,
}

// The records from which entries were read.
fn read_pool(alloc: Global, read: Entries) -> Result<Pool, AllocError>
    requires { HasRead read }
    ensures records { IfOk result (λ pool. (list : List EntryAt) → IsRead (file_of read) list → AreRecords pool.changes (entries_in list)) }
    ensures room { IfOk result (λ pool. VOTES_ROOM ≤ pool.room) }
{
    let (records, start) = read.into_records();
    let mut pool = Pool::opened(alloc, records, start)?;
    pool.make_room(alloc, VOTES_ROOM)?;
    Ok(pool)
}

// No records.
fn empty_pool(alloc: Global) -> Result<Pool, AllocError>
    ensures none { IfOk result (λ pool. pool.changes ≡ []) }
    ensures room { IfOk result (λ pool. VOTES_ROOM ≤ pool.room) }
{
    let mut pool = Pool::new(alloc);
    pool.make_room(alloc, VOTES_ROOM)?;
    Ok(pool)
}

/// The two pools. The only error is want of memory.
pub(crate) fn pools_of(alloc: Global, read: Entries) -> Result<Pools, AllocError>
    requires { HasRead read }
    ensures records { IfOk result (λ pools. (list : List EntryAt) → IsRead (file_of read) list → AreRecords pools.read.changes (entries_in list)) }
    ensures room { IfOk result HaveVotesRoom }
{
    let read = read_pool(alloc, read)?;
    let empty = empty_pool(alloc)?;
    Ok(Pools { read, empty })
}
