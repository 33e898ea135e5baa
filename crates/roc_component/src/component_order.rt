//! Component order.
ghost use Rattle.std.specs.Prelude.{◌≡◌, ◌<◌, ◌∷◌, [], IfOk, length, map};
ghost use Rattle.roc_component.specs.Components.{AreTaken, IsComponentOrderOf};

use crate::queue::{AllTaken, take_all};
use crate::search::components;
use crate::turn::turns;
use crate::within::{lists_within, rising};
use roc_base::{NoMemory, TxnId};
use roc_depgraph::Deps;
use roc_sequence::Sequence;
use std::alloc::Global;

/// The ids of a set in component order (ROCOCO, OSDI 2014: strongly connected components, executed
/// deterministically), by their known lists. An id that stands in `ids` more than once is taken
/// once; one whose list is not known counts as one without predecessors. The time is near that of
/// looking up the lists of the ids and of reading them a few times; where there are fewer than two,
/// no list is looked up.
pub fn order(alloc: Global, deps: &Deps, ids: &[TxnId]) -> Result<Vec<TxnId>, NoMemory>
    ensures { IfOk result (λ order. IsComponentOrderOf deps.now ids.now order.items) }
{
    let AllTaken { order, parts: _ } = take_set(alloc, deps, ids)?;
    Ok(order)
}

/// The strongly connected components of a set in the order in which they are taken, each in its order inside: one
/// after another they are the answer of [`order`], and what holds of it holds here.
pub fn taken_components(
    alloc: Global,
    deps: &Deps,
    ids: &[TxnId],
) -> Result<Vec<Sequence<TxnId>>, NoMemory>
    ensures { IfOk result (λ lists. AreTaken deps.now ids.now lists.items) }
{
    let AllTaken { order: _, parts } = take_set(alloc, deps, ids)?;
    Ok(parts)
}

fn take_set(alloc: Global, deps: &Deps, ids: &[TxnId]) -> Result<AllTaken, NoMemory>
    ensures order { IfOk result (λ all. IsComponentOrderOf deps.now ids.now all.order.items) }
    ensures parts { IfOk result (λ all. AreTaken deps.now ids.now all.parts.items) }
{
    let set = rising(alloc, ids)?;
    if set.len() < 2 {
        return take_few(alloc, set);
    }
    let lists = lists_within(alloc, deps, &set)?;
    let components = components(alloc, &lists, &set)?;
    let turns = turns(alloc, &lists, &set, &components)?;
    take_all(alloc, turns)
}

// A set that has one member or none is in order, whatever is known.
fn take_few(alloc: Global, set: Vec<TxnId>) -> Result<AllTaken, NoMemory>
    requires { length set.items < 2 }
    ensures order { IfOk result (λ all. all.order.items ≡ set.items) }
    ensures parts { IfOk result (λ all. all.parts.items ≡ map (λ id. id ∷ []) set.items) }
{
    let mut parts = Vec::new(alloc);
    if let Some(id) = set.first() {
        let mut part = Sequence::new(alloc);
        part.push(*id)?;
        parts.push(part)?;
    }
    Ok(AllTaken { order: set, parts })
}
