//! Why a market can't go on over a new roster.
ghost use Rattle.std.specs.Prelude.{◌≡◌};
ghost use Rattle.period_roll.specs.declared.cause.RollFault.TheVariants.{Memory, Refused};

use std::alloc::{AllocError, AllocFailed};
use thiserror::Error;

/// What keeps a market from going on over a new roster. A trade is named by its number before the roll.
#[derive(Clone, Copy, Debug, PartialEq, Eq, Error)]
pub enum Cause {
    #[error("a cycle is open")]
    CycleOpen,
    /// The new roster has no member of this name.
    #[error("a member of trade {trade} is gone")]
    MemberGone { trade: u64 },
    #[error("a member of trade {trade} has another role")]
    RoleChanged { trade: u64 },
    /// The new roster has no product of this name.
    #[error("the product of trade {trade} is gone")]
    ProductGone { trade: u64 },
    /// In the new roster its product matures on its day or earlier.
    #[error("the product of trade {trade} matures too early")]
    MaturesEarly { trade: u64 },
    /// The position is the last one.
    #[error("no position is left")]
    PositionsFull,
}

/// Why nothing was rolled.
#[derive(Clone, Copy, Debug, PartialEq, Eq, Error)]
pub enum RollFault {
    #[error("cannot roll: {0}")]
    Refused(Cause),
    #[error("out of memory")]
    Memory,
}

impl From<Cause> for RollFault {
    ghost from_gives = { λ cause e. e ≡ Refused cause };

    fn from(cause: Cause) -> RollFault {
        RollFault::Refused(cause)
    }
}

impl From<AllocError> for RollFault {
    ghost from_gives = { λ _ e. e ≡ Memory };

    fn from(_: AllocError) -> RollFault {
        RollFault::Memory
    }
}

impl<T: Drop> From<AllocFailed<T>> for RollFault {
    ghost from_gives = { λ _ e. e ≡ Memory };

    fn from(_: AllocFailed<T>) -> RollFault {
        RollFault::Memory
    }
}
