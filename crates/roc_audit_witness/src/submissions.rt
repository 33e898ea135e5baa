//! What a history submits.
ghost use Rattle.std.specs.Prelude.{◌≡◌, ◌↔◌, IsTrue};
ghost use Rattle.std.specs.List.{list_all, list_any};
ghost use Rattle.roc_audit_witness.specs.Inner.Tests.{names_below, submits};
ghost use Rattle.roc_audit_witness.specs.Submissions.{NamesProcedures};

use roc_audit::Entry;
use roc_base::TxnId;
use roc_program::Workload;

/// Whether each submission of a history names a procedure of a workload, which [`crate::is_witness`] asks.
pub fn names_procedures(workload: &Workload, history: &[Entry]) -> bool
    ensures { IsTrue result ↔ NamesProcedures workload.now history.now }
{
    all_name_below(workload.procedures().len(), history)
}

fn all_name_below(count: usize, history: &[Entry]) -> bool
    ensures { result ≡ list_all (names_below count) history.now }
{
    history.iter().all(|entry| names_below(count, entry))
}

fn names_below(count: usize, entry: &Entry) -> bool
    ensures { result ≡ names_below count entry.now }
{
    match entry {
        Entry::Submitted {
            id: _,
            proc,
            args: _,
        } => (*proc as usize) < count,
        Entry::Answered { id: _, reply: _ } => true,
    }
}

/// Whether all of these were submitted.
pub(crate) fn are_submitted(history: &[Entry], ids: &[TxnId]) -> bool
    ensures { result ≡ list_all (λ t. list_any (submits t) history.now) ids.now }
{
    ids.iter().all(|id| is_submitted(history, *id))
}

fn is_submitted(history: &[Entry], id: TxnId) -> bool
    ensures { result ≡ list_any (submits id) history.now }
{
    history.iter().any(|entry| submits(entry, id))
}

/// Whether an entry submits a transaction.
pub(crate) fn submits(entry: &Entry, id: TxnId) -> bool
    ensures { result ≡ submits id entry.now }
{
    match entry {
        Entry::Submitted {
            id: of,
            proc: _,
            args: _,
        } => *of == id,
        Entry::Answered { id: _, reply: _ } => false,
    }
}
