//! Where a group is found.
use roc_base::TxnId;

/// A group of a transaction that started, by its number, with its procedure, which tells its class.
#[derive(Clone, Copy)]
pub struct GroupRef {
    /// Its transaction.
    pub id: TxnId,
    /// The procedure of the transaction.
    pub proc: u16,
    /// Its number among the groups of the procedure.
    pub group: u16,
}
