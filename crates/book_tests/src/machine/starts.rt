//! Rows that tests start with.

use super::Row;
use super::answers::Told::{Affirmed, Frozen, Traded};
use super::commands::Said::{Affirm, Freeze, Trade};
use super::words::Word::{A, B, C, Ops};

/// Trades of 10 from A to B, from B to C and from C to A.
pub const RING: [Row; 6] = [
    (A, Trade(A, B, 10), 1, Traded(1)),
    (B, Affirm(1), 2, Affirmed(1)),
    (B, Trade(B, C, 10), 3, Traded(2)),
    (C, Affirm(2), 4, Affirmed(2)),
    (C, Trade(C, A, 10), 5, Traded(3)),
    (A, Affirm(3), 6, Affirmed(3)),
];

/// The ring is frozen.
pub const FREEZE: [Row; 1] = [(Ops, Freeze, 7, Frozen(1, 3))];

/// Trades of 10 from A to B and of 7 from B to C.
pub const CHAIN: [Row; 4] = [
    (A, Trade(A, B, 10), 1, Traded(1)),
    (B, Affirm(1), 2, Affirmed(1)),
    (B, Trade(B, C, 7), 3, Traded(2)),
    (C, Affirm(2), 4, Affirmed(2)),
];
