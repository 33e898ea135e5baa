//! What a started group is found by.
use roc_base::TxnId;

// A group of a transaction, by its number.
#[derive(Clone, Copy, PartialEq, Eq, Hash)]
pub(crate) struct GroupKey {
    pub id: TxnId,
    pub number: usize,
}
