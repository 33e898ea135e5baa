//! The least order that keeps pairs.
ghost use Rattle.std.specs.Prelude.{◌≡◌, ◌↔◌, None, IfOk, IfSome};
ghost use Rattle.std.specs.List.{list_all, list_any};
ghost use Rattle.roc_depgraph.specs.Deps.{Precedes};
ghost use Rattle.roc_precedence.specs.Cycles.{HasCycle};
ghost use Rattle.roc_precedence.specs.Inner.Lists.{has_one_at_most, precedes_itself};
ghost use Rattle.roc_precedence.specs.Orders.{IsLeastOrder};
ghost use Rattle.roc_precedence.specs.Pairs.{IsPaired};

use crate::Pair;
use crate::lists::{lists_of, precedes};
use roc_base::{NoMemory, TxnId};
use roc_component::{components, order, rising};
use roc_depgraph::Deps;
use roc_sequence::Sequence;
use std::alloc::Global;

/// The ids in the least order that keeps the pairs among them; nothing where some of the ids are a cycle of pairs. An id that
/// stands in `ids` more than once is taken once, and a pair with another id counts for nothing. The time is near that of sorting
/// the pairs and the ids, which no clause says.
pub fn least_order(
    alloc: Global,
    ids: &[TxnId],
    pairs: &[Pair],
) -> Result<Option<Vec<TxnId>>, NoMemory>
    ensures order { IfOk result (λ found. IfSome found (λ order. IsLeastOrder (IsPaired pairs.now) ids.now order.items)) }
    ensures none { IfOk result (λ found. (found ≡ None) ↔ HasCycle (IsPaired pairs.now) ids.now) }
{
    let set = rising(alloc, ids)?;
    let lists = lists_of(alloc, &set, pairs)?;
    order_of(alloc, &set, &lists)
}

// The order of a set that keeps known lists, where no members are a cycle of these.
fn order_of(alloc: Global, set: &[TxnId], lists: &Deps) -> Result<Option<Vec<TxnId>>, NoMemory>
    ensures order { IfOk result (λ found. IfSome found (λ order. IsLeastOrder (Precedes lists.now) set.now order.items)) }
    ensures none { IfOk result (λ found. (found ≡ None) ↔ HasCycle (Precedes lists.now) set.now) }
{
    if one_precedes_itself(lists, set) {
        return Ok(None);
    }
    let components = components(alloc, lists, set)?;
    if !are_single(&components) {
        return Ok(None);
    }
    let found = order(alloc, lists, set)?;
    Ok(Some(found))
}

fn one_precedes_itself(lists: &Deps, ids: &[TxnId]) -> bool
    ensures { result ≡ list_any (precedes_itself lists.now) ids.now }
{
    ids.iter().any(|id| precedes(lists, *id, *id))
}

// Whether no list has more than one member.
fn are_single(lists: &[Sequence<TxnId>]) -> bool
    ensures { result ≡ list_all has_one_at_most lists.now }
{
    lists.iter().all(|list| list.len() <= 1)
}
