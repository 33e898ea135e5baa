//! What waits on a server.
use roc_base::TxnId;
use roc_group::Access;
use roc_sequence::Sequence;

/// A buffered group of a transaction that is not decided, with the cells that it uses.
#[derive(Drop)]
pub struct Waiting {
    pub id: TxnId,
    pub cells: Sequence<Access>,
}
