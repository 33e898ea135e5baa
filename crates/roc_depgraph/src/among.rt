//! Ids among others that rise.
ghost use Rattle.std.specs.Prelude.{◌≡◌};
ghost use Rattle.std.specs.List.Sorted.{IsStrictlySortedBy};
ghost use Rattle.roc_base.specs.TxnId.{is_txn, txn_cmp};
ghost use Rattle.roc_sequence.specs.Places.{is_listed};

use roc_base::TxnId;

/// Whether an id is one of these, which rise. It looks at few of them.
pub fn is_among_rising(ids: &[TxnId], id: TxnId) -> bool
    requires { IsStrictlySortedBy txn_cmp ids.now }
    ensures { result ≡ is_listed is_txn ids.now id }
{
    ids.binary_search(&id).is_ok()
}
