//! The serial order with the answered views put in.
ghost use Rattle.std.specs.Prelude.{◌≡◌, ◌⊎◌, ◌<◌, ◌≤◌, map, IfOk};
ghost use Rattle.std.specs.BTreeSet.{contains};
ghost use Rattle.roc_base.specs.declared.id.TxnId.{TxnId as Id};
ghost use Rattle.roc_base.specs.TxnId.{txn_cmp};
ghost use Rattle.roc_audit.specs.Woven.{woven};
ghost use Rattle.roc_law_world.specs.Witness.{was_answered, last_looks};
ghost use Rattle.roc_world.specs.Inner.Looks.{looked};

use crate::looks::Look;
use roc_audit::Entry;
use roc_base::{NoMemory, TxnId};
use std::alloc::Global;
use std::collections::BTreeSet;

// The order of a history with its answered views put in, each where it looked last.
pub(crate) fn witness_of(
    alloc: Global,
    history: &[Entry],
    order: &[TxnId],
    looks: &[Look],
) -> Result<Vec<TxnId>, NoMemory>
    ensures { IfOk result (λ ids. ids.items ≡ woven 0 order.now (last_looks (was_answered history.now) (map looked looks.now))) }
{
    let answered = answered_ids(alloc, history)?;
    let last = last_looks(alloc, &answered, looks)?;
    weave(alloc, order, &last)
}

// The ids that a history answers.
fn answered_ids(alloc: Global, history: &[Entry]) -> Result<BTreeSet<TxnId>, NoMemory>
    ensures { IfOk result (λ ids. (u : Id) → contains txn_cmp ids u ≡ was_answered history.now u) }
{
    let mut ids = BTreeSet::new(alloc);
    for entry in history {
        if let Entry::Answered { id, .. } = entry {
            ids.insert(*id)?;
        }
    }
    Ok(ids)
}

// The last looks of the views that are among ids, in the order of the looks. They are found from the last one on.
fn last_looks(alloc: Global, among: &BTreeSet<TxnId>, looks: &[Look]) -> Result<Vec<Look>, NoMemory>
    ensures { IfOk result (λ last. map looked last.items ≡ last_looks (λ u. contains txn_cmp among.now u) (map looked looks.now)) }
{
    let mut later = BTreeSet::new(alloc);
    let mut last = Vec::new(alloc);
    for at in (0..looks.len()).rev() {
        let look = looks[at];
        if among.contains(&look.id) && !later.contains(&look.id) {
            last.push(look)?;
        }
        later.insert(look.id)?;
    }
    last.reverse();
    Ok(last)
}

// Puts looks into an order, in their order, each behind as many transactions as it says, where there are so many.
fn weave(alloc: Global, order: &[TxnId], looks: &[Look]) -> Result<Vec<TxnId>, NoMemory>
    ensures { IfOk result (λ ids. ids.items ≡ woven 0 order.now (map looked looks.now)) }
{
    let mut ids = Vec::new(alloc);
    let mut taken = 0;
    for look in looks {
        let until = taken_before(taken, look.behind, order.len());
        ids.extend_from_slice(&order[taken..until])?;
        ids.push(look.id)?;
        taken = until;
    }
    ids.extend_from_slice(&order[taken..])?;
    Ok(ids)
}

// How far an order of this length is taken before a look, where it was taken so far: as far as the look says, and no further than it goes.
fn taken_before(taken: usize, behind: usize, length: usize) -> usize
    requires { taken ≤ length }
    ensures from { taken ≤ result }
    ensures within { result ≤ length }
    ensures no_further { taken < result → result ≤ behind }
    ensures far { (behind ≤ result) ⊎ (length ≤ result) }
{
    if behind <= taken {
        taken
    } else if behind <= length {
        behind
    } else {
        length
    }
}
