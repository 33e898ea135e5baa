//! All pairs of goes-before among some ids.
ghost use Rattle.std.specs.Prelude.{◌≡◌, ◌++◌, ◌∷◌, [], List, IfOk, OnOk};
ghost use Rattle.std.specs.List.{flat_map};
ghost use Rattle.std.specs.List.Sorted.{IsStrictlySortedBy};
ghost use Rattle.roc_audit.specs.declared.entry.Entry.{Entry as EntryValue};
ghost use Rattle.roc_base.specs.TxnId.{is_txn, txn_cmp};
ghost use Rattle.roc_sequence.specs.Places.{is_listed};
ghost use Rattle.roc_judge.specs.Before.{do_meet};
ghost use Rattle.roc_judge.specs.Inner.Pairs.{of_ids};
ghost use Rattle.roc_judge.specs.Inner.Whole.{all_times, all_uses, meeting_pair, pairs_behind, pairs_here, with_one, whole_pairs};

use crate::Folded;
use crate::times::pair_each;
use crate::uses::pair_with;
use roc_audit::Entry;
use roc_base::{NoMemory, TxnId};
use roc_depgraph::is_among_rising;
use roc_msg::Ran;
use roc_precedence::Pair;
use std::alloc::Global;

fn do_meet(a: &Ran, b: &Ran) -> bool
    ensures { result ≡ do_meet a.now b.now }
{
    if a.cell == b.cell {
        return a.writes || b.writes;
    }
    false
}

fn pair_meeting(pairs: &mut Vec<Pair>, a: &Ran, b: &Ran) -> Result<(), NoMemory>
    ensures { OnOk result (pairs.new.items ≡ pairs.old.items ++ meeting_pair a.now b.now) }
{
    if do_meet(a, b) {
        return pair_with(pairs, b.id, a.id);
    }
    Ok(())
}

fn pair_behind(pairs: &mut Vec<Pair>, a: &Ran, others: &[Ran]) -> Result<(), NoMemory>
    ensures { OnOk result (pairs.new.items ≡ pairs.old.items ++ pairs_behind a.now others.now) }
{
    for b in others {
        pair_meeting(pairs, a, b)?;
    }
    Ok(())
}

fn pair_one(pairs: &mut Vec<Pair>, a: &Ran, behind: &[Ran], waits: &[Ran]) -> Result<(), NoMemory>
    ensures { OnOk result (pairs.new.items ≡ pairs.old.items ++ (pairs_behind a.now behind.now ++ pairs_behind a.now waits.now)) }
{
    pair_behind(pairs, a, behind)?;
    pair_behind(pairs, a, waits)
}

fn pair_all_uses(pairs: &mut Vec<Pair>, ran: &[Ran], waits: &[Ran]) -> Result<(), NoMemory>
    ensures { OnOk result (pairs.new.items ≡ pairs.old.items ++ all_uses ran.now waits.now) }
{
    for i in 0..ran.len() {
        pair_one(pairs, &ran[i], &ran[i + 1..], waits)?;
    }
    Ok(())
}

// The accesses of these ids.
fn of_ids(alloc: Global, ids: &[TxnId], accesses: &[Ran]) -> Result<Vec<Ran>, NoMemory>
    requires { IsStrictlySortedBy txn_cmp ids.now }
    ensures { IfOk result (λ found. found.items ≡ of_ids ids.now accesses.now) }
{
    let mut found = Vec::new(alloc);
    for access in accesses {
        if is_among_rising(ids, access.id) {
            found.push(*access)?;
        }
    }
    Ok(found)
}

fn submitted(
    pairs: &mut Vec<Pair>,
    ids: &[TxnId],
    answers: &[TxnId],
    id: TxnId,
) -> Result<(), NoMemory>
    requires { IsStrictlySortedBy txn_cmp ids.now }
    ensures { OnOk result (pairs.new.items ≡ pairs.old.items ++ pairs_here (is_listed is_txn ids.now id) id answers.now) }
{
    if is_among_rising(ids, id) {
        return pair_each(pairs, id, answers);
    }
    Ok(())
}

fn answered(ids: &[TxnId], answers: &mut Vec<TxnId>, id: TxnId) -> Result<(), NoMemory>
    requires { IsStrictlySortedBy txn_cmp ids.now }
    ensures { OnOk result (answers.new.items ≡ with_one (is_listed is_txn ids.now id) answers.old.items id) }
{
    if is_among_rising(ids, id) {
        answers.push(id)?;
    }
    Ok(())
}

fn take_entry(
    pairs: &mut Vec<Pair>,
    ids: &[TxnId],
    answers: &mut Vec<TxnId>,
    entry: &Entry,
) -> Result<(), NoMemory>
    requires { IsStrictlySortedBy txn_cmp ids.now }
    ensures { OnOk result ((es : List EntryValue) → pairs.new.items ++ all_times ids.now answers.new.items es ≡ pairs.old.items ++ all_times ids.now answers.old.items (entry.now ∷ es)) }
{
    match entry {
        Entry::Submitted {
            id,
            proc: _,
            args: _,
        } => submitted(pairs, ids, answers.as_slice(), *id),
        Entry::Answered { id, reply: _ } => answered(ids, answers, *id),
    }
}

fn pair_all_times(
    alloc: Global,
    pairs: &mut Vec<Pair>,
    ids: &[TxnId],
    told: &[Entry],
) -> Result<(), NoMemory>
    requires { IsStrictlySortedBy txn_cmp ids.now }
    ensures { OnOk result (pairs.new.items ≡ pairs.old.items ++ all_times ids.now [] told.now) }
{
    let mut answers = Vec::new(alloc);
    for entry in told {
        take_entry(pairs, ids, &mut answers, entry)?;
    }
    Ok(())
}

fn pair_whole(
    alloc: Global,
    pairs: &mut Vec<Pair>,
    ids: &[TxnId],
    fold: &Folded,
) -> Result<(), NoMemory>
    requires { IsStrictlySortedBy txn_cmp ids.now }
    ensures { OnOk result (pairs.new.items ≡ pairs.old.items ++ whole_pairs ids.now fold.now) }
{
    let ran = of_ids(alloc, ids, fold.ran.as_slice())?;
    let waits = of_ids(alloc, ids, fold.waits.as_slice())?;
    pair_all_uses(pairs, &ran, &waits)?;
    pair_all_times(alloc, pairs, ids, fold.told.as_slice())
}

/// All pairs of goes-before among these ids. Their number is that of all accesses of these ids that meet.
pub(crate) fn whole_pairs(
    alloc: Global,
    ids: &[TxnId],
    folds: &[Folded],
) -> Result<Vec<Pair>, NoMemory>
    requires { IsStrictlySortedBy txn_cmp ids.now }
    ensures { IfOk result (λ pairs. pairs.items ≡ flat_map (whole_pairs ids.now) folds.now) }
{
    let mut pairs = Vec::new(alloc);
    for fold in folds {
        pair_whole(alloc, &mut pairs, ids, fold)?;
    }
    Ok(pairs)
}
