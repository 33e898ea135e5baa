//! What is missing for a transaction whose list is new.
ghost use Rattle.std.specs.Prelude.{◌≡◌, ◌∷◌, ◌++◌, List, Some, map, filter, IfOk, OnOk};
ghost use Rattle.std.specs.List.{flat_map};
ghost use Rattle.roc_depgraph.specs.declared.known.KnownList.{KnownList as Told};
ghost use Rattle.roc_depgraph.specs.Closure.{IsRisingListOf};
ghost use Rattle.roc_depgraph.specs.Deps.{list_of, learnt};
ghost use Rattle.roc_await.specs.Lacks.{IsMissing};
ghost use Rattle.roc_await.specs.Inner.Grown.{others};
ghost use Rattle.roc_await.specs.Inner.Groups.{all_lacks, is_other_unknown, missing_if_named, names_any};
ghost use Rattle.roc_await.specs.Inner.Taken.{AreLacksTaken};

use crate::group::Group;
use roc_base::{Edge, Edges, NoMemory, TxnId, is_among};
use roc_component::rising;
use roc_depgraph::Deps;
use std::alloc::Global;

// What is missing for a transaction once its list is known, rising. The lists of the later ones count as unknown.
pub(crate) fn missing_for(
    alloc: Global,
    deps: &Deps,
    groups: &[Group],
    id: TxnId,
    edges: &Edges,
    later: &[TxnId],
) -> Result<Vec<TxnId>, NoMemory>
    ensures { IfOk result (λ ids. (before : List Told) → (taken : AreLacksTaken before deps.now (id ∷ later.now) (all_lacks groups.now))
        → list_of id deps.now ≡ Some edges.now → IsRisingListOf (IsMissing (learnt taken.known id edges.now) id) ids.items) }
{
    let mut ids = missing_for_named(alloc, groups, id, edges)?;
    let unknown = unknown_named(alloc, deps, edges.as_slice(), id, later)?;
    ids.extend_from_slice(&unknown)?;
    let missing = rising(alloc, &ids)?;
    Ok(missing)
}

// What is missing for those that entries name, but for one. A group is looked at once, however many of it are named.
fn missing_for_named(
    alloc: Global,
    groups: &[Group],
    but: TxnId,
    edges: &Edges,
) -> Result<Vec<TxnId>, NoMemory>
    ensures { IfOk result (λ ids. ids.items ≡ flat_map (missing_if_named but edges.now) groups.now) }
{
    let mut ids = Vec::new(alloc);
    for group in groups {
        push_missing(alloc, group, but, edges, &mut ids)?;
    }
    Ok(ids)
}

fn push_missing(
    alloc: Global,
    group: &Group,
    but: TxnId,
    edges: &Edges,
    ids: &mut Vec<TxnId>,
) -> Result<(), NoMemory>
    ensures { OnOk result (ids.new.items ≡ ids.old.items ++ missing_if_named but edges.now group.now) }
{
    if !names_any(edges, group.of.as_slice()) {
        return Ok(());
    }
    push_others(alloc, group.missing.as_slice(), but, ids)
}

// Whether entries name one of these.
fn names_any(edges: &Edges, ids: &[TxnId]) -> bool
    ensures { result ≡ names_any edges.now ids.now }
{
    ids.iter().any(|id| edges.find(*id).is_some())
}

// Those that entries name and whose lists are unknown, but for one.
fn unknown_named(
    alloc: Global,
    deps: &Deps,
    edges: &[Edge],
    but: TxnId,
    later: &[TxnId],
) -> Result<Vec<TxnId>, NoMemory>
    ensures { IfOk result (λ ids. ids.items ≡ filter (is_other_unknown deps.now later.now but) (map (λ d. d.from) edges.now)) }
{
    Ok(
        edges
            .iter()
            .map(|edge| edge.from())
            .filter(|id| is_other_unknown(deps, later, but, *id))
            .collect(alloc)?,
    )
}

fn is_other_unknown(deps: &Deps, later: &[TxnId], but: TxnId, id: TxnId) -> bool
    ensures { result ≡ is_other_unknown deps.now later.now but id }
{
    id != but && (is_among(later, id) || deps.list(id).is_none())
}

// Adds ids, but for one.
pub(crate) fn push_others(
    alloc: Global,
    missing: &[TxnId],
    but: TxnId,
    ids: &mut Vec<TxnId>,
) -> Result<(), NoMemory>
    ensures { OnOk result (ids.new.items ≡ ids.old.items ++ others but missing.now) }
{
    let others: Vec<TxnId> = missing
        .iter()
        .copied()
        .filter(|id| *id != but)
        .collect(alloc)?;
    ids.extend_from_slice(&others)?;
    Ok(())
}
