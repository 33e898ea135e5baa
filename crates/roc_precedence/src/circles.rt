//! Who is on a cycle of pairs.
ghost use Rattle.std.specs.Prelude.{◌≡◌, IfOk, filter};
ghost use Rattle.std.specs.List.{flat_map};
ghost use Rattle.roc_component.specs.Components.{among};
ghost use Rattle.roc_depgraph.specs.Closure.{IsRisingListOf};
ghost use Rattle.roc_depgraph.specs.Deps.{Precedes};
ghost use Rattle.roc_depgraph.specs.Reach.{Reaches};
ghost use Rattle.roc_precedence.specs.Inner.Lists.{members_of_several, precedes_itself};
ghost use Rattle.roc_precedence.specs.Pairs.{IsPaired};

use crate::Pair;
use crate::lists::{lists_of, precedes};
use roc_base::{NoMemory, TxnId};
use roc_component::{components, rising};
use roc_depgraph::Deps;
use roc_sequence::Sequence;
use std::alloc::Global;

/// The ids from which a chain of pairs among the ids leads back, rising: the members of all cycles. An id that stands in `ids`
/// more than once is taken once, and a pair with another id counts for nothing.
pub fn on_circles(alloc: Global, ids: &[TxnId], pairs: &[Pair]) -> Result<Vec<TxnId>, NoMemory>
    ensures { IfOk result (λ found. IsRisingListOf (λ x. Reaches (among ids.now (IsPaired pairs.now)) x x) found.items) }
{
    let set = rising(alloc, ids)?;
    let lists = lists_of(alloc, &set, pairs)?;
    around(alloc, &set, &lists)
}

// The members of a set from which a chain of known lists leads back.
fn around(alloc: Global, set: &[TxnId], lists: &Deps) -> Result<Vec<TxnId>, NoMemory>
    ensures { IfOk result (λ found. IsRisingListOf (λ x. Reaches (among set.now (Precedes lists.now)) x x) found.items) }
{
    let components = components(alloc, lists, set)?;
    let mut found = several(alloc, &components)?;
    let mut own = own(alloc, set, lists)?;
    found.append(&mut own)?;
    rising(alloc, &found)
}

// The members of lists that have several.
fn several(alloc: Global, lists: &[Sequence<TxnId>]) -> Result<Vec<TxnId>, NoMemory>
    ensures { IfOk result (λ found. found.items ≡ flat_map members_of_several lists.now) }
{
    let mut found = Vec::new(alloc);
    for list in lists {
        if list.len() > 1 {
            found.extend_from_slice(list.as_slice())?;
        }
    }
    Ok(found)
}

// The ids that precede themselves.
fn own(alloc: Global, set: &[TxnId], lists: &Deps) -> Result<Vec<TxnId>, NoMemory>
    ensures { IfOk result (λ found. found.items ≡ filter (precedes_itself lists.now) set.now) }
{
    let mut found = Vec::new(alloc);
    for id in set {
        if precedes(lists, *id, *id) {
            found.push(*id)?;
        }
    }
    Ok(found)
}
