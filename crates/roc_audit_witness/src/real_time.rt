//! Real time: who was answered before another's submission stands before it.
ghost use Rattle.std.specs.Prelude.{◌≡◌, ◌||◌, not, nat_le};
ghost use Rattle.roc_base.specs.TxnId.{is_txn};
ghost use Rattle.roc_sequence.specs.Places.{is_listed, place_of};
ghost use Rattle.roc_audit_witness.specs.Inner.Tests.{latest_after, stands_behind};

use crate::ids::place;
use roc_audit::Entry;
use roc_base::TxnId;

/// Whether each of an order that a history submits stands behind all that the history answers before.
pub(crate) fn keeps_real_time(history: &[Entry], order: &[TxnId]) -> bool
    ensures { result ≡ stands_behind order.now 0 history.now }
{
    // Behind the last of those that were answered so far.
    let mut latest = 0;
    for entry in history {
        match latest_after(order, latest, entry) {
            Some(next) => latest = next,
            None => return false,
        }
    }
    true
}

// The place behind all that are answered up to an entry; nothing, where one that the entry submits stands before it.
fn latest_after(order: &[TxnId], latest: usize, entry: &Entry) -> Option<usize>
    ensures { result ≡ latest_after order.now latest entry.now }
{
    match entry {
        Entry::Submitted {
            id,
            proc: _,
            args: _,
        } => {
            if stands_late(order, latest, *id) {
                Some(latest)
            } else {
                None
            }
        }
        Entry::Answered { id, reply: _ } => Some(latest.max(place(order, *id) + 1)),
    }
}

// Whether an id stands at a place or later, or not at all.
fn stands_late(order: &[TxnId], latest: usize, id: TxnId) -> bool
    ensures { result ≡ (not (is_listed is_txn order.now id) || nat_le latest (place_of (is_txn id) order.now)) }
{
    let at = place(order, id);
    if at < order.len() {
        return latest <= at;
    }
    true
}
