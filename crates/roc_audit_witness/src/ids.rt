//! Lists of ids: that none stands twice, and where one stands.
ghost use Rattle.std.specs.Prelude.{◌≡◌, ◌≤◌, [], length};
ghost use Rattle.std.specs.List.{position};
ghost use Rattle.roc_base.specs.TxnId.{is_txn};
ghost use Rattle.roc_sequence.specs.Places.{place_of};
ghost use Rattle.roc_audit_witness.specs.Inner.Tests.{repeats_none};

use roc_base::{TxnId, is_among};

/// Whether no id stands twice.
pub(crate) fn is_once(ids: &[TxnId]) -> bool
    ensures { result ≡ repeats_none [] ids.now }
{
    for (i, id) in ids.iter().enumerate() {
        if is_among(&ids[..i], *id) {
            return false;
        }
    }
    true
}

fn first(ids: &[TxnId], id: TxnId) -> Option<usize>
    ensures { result ≡ position (λ other. is_txn id other) ids.now }
{
    ids.iter().position(|other| id == *other)
}

/// Where an id stands first; the list's length, where it does not stand.
pub(crate) fn place(ids: &[TxnId], id: TxnId) -> usize
    ensures place { result ≡ place_of (is_txn id) ids.now }
    ensures within { result ≤ length ids.now }
{
    first(ids, id).unwrap_or(ids.len())
}
