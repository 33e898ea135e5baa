//! Why a workload is no grown one of another.
use thiserror::Error;

/// What is wrong first, in this order.
#[derive(Clone, Copy, Debug, PartialEq, Eq, Error)]
pub enum GrowthFault {
    /// There is another number of shards.
    #[error("shards")]
    Shards,
    /// The old tables are no front of the new ones: one is gone, or has another name, other columns or ids of another length.
    #[error("table")]
    Table,
    /// The init lines are others.
    #[error("init")]
    Init,
    /// The old procedures are no front of the new ones of the same text.
    #[error("proc")]
    Proc,
}
