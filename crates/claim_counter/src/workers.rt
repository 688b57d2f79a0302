//! A counter, and a worker that claims from it.

ghost use Rattle.std.specs.Prelude.{◌≡◌, ◌+◌, ◌^◌, ◌<◌, []};

use crate::rule::{ClaimRule, Claims};
use atomic_table::{Seat, Table};
use std::alloc::Global;

/// The next number to be claimed.
#[derive(Drop)]
pub struct Counter {
    pub(crate) table: Table<u8, Claims, u64, ClaimRule, Global>,
    ghost counts: { (table.shared.table_id.words ≡ 1) × (table.shared.key + 64 < 2 ^ 64) },
}

/// A worker, with the numbers that it has claimed.
#[derive(Drop)]
pub struct Worker {
    pub(crate) seat: Seat<u8, Claims>,
    pub ghost empty: { seat.me.1 ≡ [] },
}
