//! Who waits for which list.
use roc_base::{Shard, TxnId};

/// A transaction whose list was asked for, and the shard that was asked.
#[derive(Clone, Copy)]
pub struct OpenFetch {
    pub id: TxnId,
    pub at: Shard,
}

/// A shard that asked for the list of a transaction.
#[derive(Clone, Copy)]
pub struct Asker {
    pub id: TxnId,
    pub shard: Shard,
}
