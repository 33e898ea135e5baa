//! What is found is what is wanted. An assertion in a function of its own is proved once.
use roc_base::TxnId;
use std::fmt::Debug;
use std::process::Abort;

/// Fails where another value is found than is wanted.
pub(crate) fn same<T: PartialEq + Debug>(rt: &impl Abort, what: &str, found: &T, wanted: &T) {
    assert_eq!(rt; *found, *wanted, "{}", what);
}

/// Fails where other items are found than are wanted.
pub(crate) fn same_items<T: PartialEq + Debug>(
    rt: &impl Abort,
    what: &str,
    found: &[T],
    wanted: &[T],
) {
    assert_eq!(rt; found, wanted, "{}", what);
}

/// The transaction of this number.
pub(crate) fn txn(seq: u32) -> TxnId {
    TxnId { coord: 0, seq }
}

/// Fails where these are not the transactions of the numbers.
pub(crate) fn are_ids(rt: &impl Abort, what: &str, ids: &[TxnId], wanted: &[u32]) {
    same(rt, what, &ids.len(), &wanted.len());
    for (id, seq) in ids.iter().zip(wanted) {
        same(rt, what, id, &txn(*seq));
    }
}
