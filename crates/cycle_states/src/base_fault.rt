//! Why a machine can't stand as a base says.
ghost use Rattle.std.specs.Prelude.{◌≡◌};
ghost use Rattle.cycle_states.specs.declared.base_fault.BaseFault.TheVariants.{Memory};

use std::alloc::AllocError;
use thiserror::Error;

/// Why no machine was made of a base.
#[derive(Clone, Copy, Debug, PartialEq, Eq, Error)]
pub enum BaseFault {
    /// The base does not fit the roster.
    #[error("the base does not fit the roster")]
    Misfit,
    /// There was no memory.
    #[error("out of memory")]
    Memory,
}

impl From<AllocError> for BaseFault {
    ghost from_gives = { λ _ e. e ≡ Memory };

    fn from(_: AllocError) -> BaseFault {
        BaseFault::Memory
    }
}
