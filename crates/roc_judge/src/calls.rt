//! What was submitted.
ghost use Rattle.std.specs.Prelude.{◌≡◌, ◌∷◌, [], find, is_none, not, IfOk, OnOk};
ghost use Rattle.roc_audit.specs.Witness.{submitted_call};
ghost use Rattle.roc_base.specs.declared.id.TxnId.{TxnId as Id};
ghost use Rattle.roc_judge.specs.Before.{told};
ghost use Rattle.roc_judge.specs.Inner.Sets.{call_in, first_of, only_at};

use crate::Folded;
use roc_audit::Entry;
use roc_base::{NoMemory, Nums, TxnId};
use std::alloc::Global;
use std::collections::BTreeMap;

/// A procedure, and its arguments.
#[derive(Drop)]
pub(crate) struct Called {
    pub proc: u16,
    pub args: Nums,
}

// Puts a call where there is none of its id.
fn put_call(
    calls: &mut BTreeMap<TxnId, Called>,
    id: TxnId,
    proc: u16,
    args: &Nums,
) -> Result<(), NoMemory>
    ensures { OnOk result ((t : Id) → call_in calls.new.entries t ≡ first_of (call_in calls.old.entries t) (only_at id (record { id = t; procedure = proc; arguments = args.now }) t)) }
{
    if calls.contains_key(&id) {
        return Ok(());
    }
    let args = args.clone()?;
    calls.insert(id, Called { proc, args })?;
    Ok(())
}

fn take_entry(calls: &mut BTreeMap<TxnId, Called>, entry: &Entry) -> Result<(), NoMemory>
    ensures { OnOk result ((t : Id) → call_in calls.new.entries t ≡ first_of (call_in calls.old.entries t) (submitted_call t (entry.now ∷ []))) }
{
    match entry {
        Entry::Submitted { id, proc, args } => put_call(calls, *id, *proc, args),
        Entry::Answered { id: _, reply: _ } => Ok(()),
    }
}

fn take_told(calls: &mut BTreeMap<TxnId, Called>, told: &[Entry]) -> Result<(), NoMemory>
    ensures { OnOk result ((t : Id) → call_in calls.new.entries t ≡ first_of (call_in calls.old.entries t) (submitted_call t told.now)) }
{
    for entry in told {
        take_entry(calls, entry)?;
    }
    Ok(())
}

/// The first submission of each id.
pub(crate) fn calls_of(alloc: Global, folds: &[Folded]) -> Result<BTreeMap<TxnId, Called>, NoMemory>
    ensures { IfOk result (λ calls. (t : Id) → call_in calls.entries t ≡ submitted_call t (told folds.now)) }
{
    let mut calls = BTreeMap::new(alloc);
    for fold in folds {
        take_told(&mut calls, fold.told.as_slice())?;
    }
    Ok(calls)
}

fn was_called(calls: &BTreeMap<TxnId, Called>, id: TxnId) -> bool
    ensures { result ≡ not (is_none (call_in calls.now.entries id)) }
{
    calls.contains_key(&id)
}

/// The first of some ids that was not submitted.
pub(crate) fn first_uncalled(calls: &BTreeMap<TxnId, Called>, ids: &[TxnId]) -> Option<TxnId>
    ensures { result ≡ find (λ t. is_none (call_in calls.now.entries t)) ids.now }
{
    for id in ids {
        if !was_called(calls, *id) {
            return Some(*id);
        }
    }
    None
}
