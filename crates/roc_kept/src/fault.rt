//! Why a server that keeps a journal gives no answer.
use thiserror::Error;

/// Why a call gave no answer.
#[derive(Clone, Copy, Debug, PartialEq, Eq, Error)]
pub enum KeptFault {
    /// There is no memory for what comes of the call. Nothing changed, so the same call may be made again.
    #[error("out of memory")]
    NoMemory,
    /// The journal would be too long. Nothing changed.
    #[error("full")]
    Full,
    /// The disk failed. No one knows whether the message was kept: the file has to be opened again.
    #[error("disk")]
    Disk,
    /// The disk failed in an earlier call.
    #[error("broken")]
    Broken,
}

/// Why no journal was opened.
#[derive(Clone, Copy, Debug, PartialEq, Eq, Error)]
pub enum OpenFault {
    /// The file is no journal of this tag, or has a record that no server of this shard takes, and this is the place.
    #[error("journal")]
    Journal(u64),
    /// The disk failed.
    #[error("disk")]
    Disk,
    /// There is no memory for the server, or for a record.
    #[error("out of memory")]
    NoMemory,
}
