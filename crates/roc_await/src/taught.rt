//! Lists that are taken in, one after another.
ghost use Rattle.std.specs.Prelude.{◌∷◌, List, IfOk};
ghost use Rattle.roc_depgraph.specs.declared.known.KnownList.{KnownList as Told};
ghost use Rattle.roc_await.specs.Learning.{AreLacksBefore};
ghost use Rattle.roc_await.specs.Inner.Groups.{all_lacks};
ghost use Rattle.roc_await.specs.Inner.Taken.{AreLacksSince, AreLacksTaken};

use crate::group::{Group, copied};
use crate::grown::grown;
use crate::missing::missing_for;
use roc_base::{NoMemory, TxnId};
use roc_depgraph::Deps;
use std::alloc::Global;

// The groups once the lists of these are known too. What is decided by them is still in a group, for which nothing is missing.
pub(crate) fn taught(
    alloc: Global,
    deps: &Deps,
    groups: &[Group],
    ids: &[TxnId],
) -> Result<Vec<Group>, NoMemory>
    ensures { IfOk result (λ taught. (were : AreLacksBefore deps.now ids.now (all_lacks groups.now)) → AreLacksSince were.before deps.now (all_lacks taught.items)) }
{
    let mut taught = copied(alloc, groups)?;
    let mut left = ids;
    while let Some((id, later)) = left.split_first() {
        taught = with_list(alloc, deps, taught, *id, later)?;
        left = later;
    }
    Ok(taught)
}

// The groups once the list of one more is known. The lists of the later ones are not known yet.
fn with_list(
    alloc: Global,
    deps: &Deps,
    groups: Vec<Group>,
    id: TxnId,
    later: &[TxnId],
) -> Result<Vec<Group>, NoMemory>
    ensures { IfOk result (λ grown. (before : List Told) → AreLacksTaken before deps.now (id ∷ later.now) (all_lacks groups.items)
        → AreLacksTaken before deps.now later.now (all_lacks grown.items)) }
{
    match deps.list(id) {
        None => Ok(groups),
        Some(edges) => {
            let fresh = missing_for(alloc, deps, &groups, id, edges, later)?;
            let groups = grown(alloc, groups, id, &fresh)?;
            Ok(groups)
        }
    }
}
