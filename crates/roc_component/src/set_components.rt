//! The strongly connected components of a set.
ghost use Rattle.std.specs.Prelude.{IfOk};
ghost use Rattle.roc_component.specs.Components.{AreComponentsOf, AreRisingOf, AreTakenRising};

use crate::component_order::taken_components;
use crate::within::rising;
use roc_base::{NoMemory, TxnId};
use roc_depgraph::Deps;
use roc_sequence::Sequence;
use std::alloc::Global;

/// The strongly connected components of a set, by the entries of known lists among its members, in the order in which they are
/// taken: each as a list of ids, which rises. An id that stands in `ids` more than once counts once.
pub fn components(
    alloc: Global,
    deps: &Deps,
    ids: &[TxnId],
) -> Result<Vec<Sequence<TxnId>>, NoMemory>
    ensures taken { IfOk result (λ lists. AreTakenRising deps.now ids.now lists.items) }
    ensures components { IfOk result (λ lists. AreComponentsOf deps.now ids.now lists.items) }
{
    let lists = taken_components(alloc, deps, ids)?;
    all_rising(alloc, &lists)
}

// The same lists, each rising.
fn all_rising(alloc: Global, lists: &[Sequence<TxnId>]) -> Result<Vec<Sequence<TxnId>>, NoMemory>
    ensures { IfOk result (λ all. AreRisingOf lists.now all.items) }
{
    let mut all = Vec::new(alloc);
    for list in lists {
        let ids = rising(alloc, list.as_slice())?;
        all.push(Sequence::from_vec(ids))?;
    }
    Ok(all)
}
