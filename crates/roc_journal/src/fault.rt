//! Why a journal is not read, and why a record is not appended.
ghost use Rattle.std.specs.Prelude.{◌≡◌};
ghost use Rattle.roc_journal.specs.declared.fault.ReadFault.TheVariants.{NoMemory as no_memory};

use roc_base::NoMemory;
use std::alloc::AllocError;
use thiserror::Error;

/// Why reading stopped.
#[derive(Clone, Copy, Debug, PartialEq, Eq, Error)]
pub enum ReadFault {
    /// The file is no journal, and this is the first place that is wrong.
    #[error("no journal")]
    Journal(u64),
    /// The disk failed.
    #[error("disk")]
    Disk,
    /// No memory for a record.
    #[error("out of memory")]
    NoMemory,
}

impl From<NoMemory> for ReadFault {
    ghost from_gives = { λ _ fault. fault ≡ no_memory };

    fn from(_want: NoMemory) -> ReadFault {
        ReadFault::NoMemory
    }
}

impl From<AllocError> for ReadFault {
    ghost from_gives = { λ _ fault. fault ≡ no_memory };

    fn from(_want: AllocError) -> ReadFault {
        ReadFault::NoMemory
    }
}

/// Why a record was not appended.
#[derive(Clone, Copy, Debug, PartialEq, Eq, Error)]
pub enum AppendFault {
    /// The file would be longer than 1,073,741,824 bytes. Nothing was written.
    #[error("full")]
    Full,
    /// The disk failed, and no one knows whether the record was kept: the file has to be read again.
    #[error("disk")]
    Disk,
}
