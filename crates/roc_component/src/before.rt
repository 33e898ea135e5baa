//! What comes before a member, by its known list.
ghost use Rattle.std.specs.Prelude.{◌≡◌, IfOk, filter};
ghost use Rattle.std.specs.List.Sorted.{IsStrictlySortedBy};
ghost use Rattle.roc_base.specs.TxnId.{txn_cmp};
ghost use Rattle.roc_component.specs.Inner.Before.{from_ids, leading_to, now_among, outside};
ghost use Rattle.roc_depgraph.specs.Deps.{entries_of};

use crate::within::among;
use roc_base::{Edge, NoMemory, TxnId};
use roc_depgraph::{Deps, is_among_rising};
use std::alloc::Global;

// The ids of a transaction's entries.
pub(crate) fn before(alloc: Global, lists: &Deps, of: TxnId) -> Result<Vec<TxnId>, NoMemory>
    ensures { IfOk result (λ ids. ids.items ≡ from_ids (entries_of lists.now of)) }
{
    match lists.list(of) {
        None => Ok(Vec::new(alloc)),
        Some(list) => from_ids(alloc, list.as_slice()),
    }
}

fn from_ids(alloc: Global, edges: &[Edge]) -> Result<Vec<TxnId>, NoMemory>
    ensures { IfOk result (λ ids. ids.items ≡ from_ids edges.now) }
{
    Ok(edges.iter().map(|edge| edge.from()).collect(alloc)?)
}

// The ids of its immediate entries that are among ids.
pub(crate) fn immediate_among(
    alloc: Global,
    lists: &Deps,
    ids: &[TxnId],
    of: TxnId,
) -> Result<Vec<TxnId>, NoMemory>
    requires { IsStrictlySortedBy txn_cmp ids.now }
    ensures { IfOk result (λ found. found.items ≡ now_among ids.now (entries_of lists.now of)) }
{
    match lists.list(of) {
        None => Ok(Vec::new(alloc)),
        Some(list) => {
            let inside = among(alloc, list.as_slice(), ids)?;
            immediate(alloc, &inside)
        }
    }
}

fn immediate(alloc: Global, edges: &[Edge]) -> Result<Vec<TxnId>, NoMemory>
    ensures { IfOk result (λ found. found.items ≡ from_ids (filter (λ d. d.imm) edges.now)) }
{
    Ok(
        edges
            .iter()
            .filter(|edge| edge.imm())
            .map(|edge| edge.from())
            .collect(alloc)?,
    )
}

// The ids of the entries of any of the ids that lead to others.
pub(crate) fn leading_to(alloc: Global, lists: &Deps, ids: &[TxnId]) -> Result<Vec<TxnId>, NoMemory>
    requires { IsStrictlySortedBy txn_cmp ids.now }
    ensures { IfOk result (λ found. found.items ≡ leading_to lists.now ids.now ids.now) }
{
    let mut found = Vec::new(alloc);
    for id in ids {
        let all = before(alloc, lists, *id)?;
        let others = not_among(alloc, &all, ids)?;
        found.extend_from_slice(&others)?;
    }
    Ok(found)
}

fn not_among(alloc: Global, some: &[TxnId], ids: &[TxnId]) -> Result<Vec<TxnId>, NoMemory>
    requires { IsStrictlySortedBy txn_cmp ids.now }
    ensures { IfOk result (λ others. others.items ≡ outside ids.now some.now) }
{
    let mut others = Vec::new(alloc);
    for id in some {
        if !is_among_rising(ids, *id) {
            others.push(*id)?;
        }
    }
    Ok(others)
}
