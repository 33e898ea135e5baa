//! What a transaction depends on.
use roc_base::TxnId;

/// A transaction and its ancestors, as far as their lists are known.
#[derive(Drop)]
pub enum Closure {
    /// All lists are known: the transaction and its ancestors, rising strictly by id.
    Whole(Vec<TxnId>),
    /// The ids that are reached and whose lists are not known, rising strictly by id.
    Missing(Vec<TxnId>),
}
