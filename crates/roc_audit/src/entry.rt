//! What a caller of the system sees.

use roc_base::{Nums, TxnId};

/// An accepted submission, or an answer. A history has them in the order in which they came.
#[derive(Drop)]
pub enum Entry {
    /// A transaction was submitted: this procedure with these arguments.
    Submitted { id: TxnId, proc: u16, args: Nums },
    /// A transaction was answered.
    Answered { id: TxnId, reply: Nums },
}
