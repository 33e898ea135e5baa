//! Ids among others.
ghost use Rattle.std.specs.Prelude.{◌≡◌};
ghost use Rattle.roc_base.specs.TxnId.{is_txn};
ghost use Rattle.roc_sequence.specs.Places.{is_listed};

use crate::TxnId;

/// Whether an id is one of these.
pub fn is_among(ids: &[TxnId], id: TxnId) -> bool
    ensures { result ≡ is_listed is_txn ids.now id }
{
    ids.contains(&id)
}
