//! Whether replies are those of a serial run.
ghost use Rattle.std.specs.Prelude.{◌≡◌, find};
ghost use Rattle.std.specs.List.{list_all};
ghost use Rattle.std.specs.Option.{option_copied};
ghost use Rattle.roc_base.specs.TxnId.{is_txn};
ghost use Rattle.roc_audit_witness.specs.Inner.Tests.{is_answer_right, is_reply};

use crate::runs::Replied;
use roc_audit::Entry;
use roc_base::{Nums, TxnId};

/// Whether each answered transaction has its reply among these.
pub(crate) fn are_replies(history: &[Entry], replies: &[Replied]) -> bool
    ensures { result ≡ list_all (is_answer_right replies.now) history.now }
{
    history.iter().all(|entry| is_answer_right(entry, replies))
}

fn is_answer_right(entry: &Entry, replies: &[Replied]) -> bool
    ensures { result ≡ is_answer_right replies.now entry.now }
{
    match entry {
        Entry::Submitted {
            id: _,
            proc: _,
            args: _,
        } => true,
        Entry::Answered { id, reply } => is_reply_of(*id, reply, replies),
    }
}

// Whether this is the reply of a transaction among these.
fn is_reply_of(id: TxnId, reply: &Nums, replies: &[Replied]) -> bool
    ensures { result ≡ is_reply reply.now (find (λ r. is_txn r.id id) replies.now) }
{
    match found(id, replies) {
        Some(found) => found.reply == *reply,
        None => false,
    }
}

fn found(id: TxnId, replies: &[Replied]) -> Option<&Replied>
    ensures { option_copied result ≡ find (λ r. is_txn r.id id) replies.now }
{
    replies.iter().find(|found| found.id == id)
}
