//! Why a journal could not be read.
ghost use Rattle.std.specs.Prelude.{◌≡◌};
ghost use Rattle.journal_core.specs.declared.fault.JournalFault.TheVariants.{Memory, DiskFault};

use outside::Failed;
use std::alloc::{AllocError, AllocFailed};
use thiserror::Error;

/// Why nothing was read of a journal: neither its records, nor what they stand for.
#[derive(Clone, Copy, Debug, PartialEq, Eq, Error)]
pub enum JournalFault {
    /// The file is damaged at this place.
    #[error("damaged at {offset}")]
    Damaged { offset: u64 },
    /// The disk failed, and counted it.
    #[error("the disk failed")]
    DiskFault,
    #[error("out of memory")]
    Memory,
}

impl From<Failed> for JournalFault {
    ghost from_gives = { λ _ e. e ≡ DiskFault };

    fn from(_: Failed) -> JournalFault {
        JournalFault::DiskFault
    }
}

impl From<AllocError> for JournalFault {
    ghost from_gives = { λ _ e. e ≡ Memory };

    fn from(_: AllocError) -> JournalFault {
        JournalFault::Memory
    }
}

impl<T: Drop> From<AllocFailed<T>> for JournalFault {
    ghost from_gives = { λ _ e. e ≡ Memory };

    fn from(_: AllocFailed<T>) -> JournalFault {
        JournalFault::Memory
    }
}
