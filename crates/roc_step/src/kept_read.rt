//! A read that a server keeps.
use roc_base::{Nums, TxnId};

/// A read of a read-only transaction that waits until no undecided group here writes one of its cells.
#[derive(Drop)]
pub struct KeptRead {
    pub id: TxnId,
    /// Which of the transaction's rounds it is.
    pub round: u32,
    pub proc: u16,
    pub group: u16,
    /// The procedure's arguments.
    pub args: Nums,
}
