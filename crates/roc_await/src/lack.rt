//! A transaction that waits for lists.
use roc_base::TxnId;
use roc_sequence::Sequence;

/// A transaction whose list is known and that is not decided, with the ids that are missing: it and its ancestors whose lists are
/// unknown, rising strictly.
#[derive(Drop)]
pub struct Lack {
    pub of: TxnId,
    pub missing: Sequence<TxnId>,
}
