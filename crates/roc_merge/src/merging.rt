//! Merging whole workloads.
ghost use Rattle.std.specs.Prelude.{◌↔◌, ◌⊎◌, IsOk, IfOk, IsErrOf};
ghost use Rattle.roc_program.specs.declared.piece_id.PieceId.{PieceId};
ghost use Rattle.roc_conflict.specs.Classes.{is_immediate};
ghost use Rattle.roc_merge_groups.specs.Core.{IsAcceptable};
ghost use Rattle.roc_merge_groups.specs.Grouping.{IsMerged};
ghost use Rattle.roc_merge_groups.specs.Refusals.{IsApart, IsBlocked};

use crate::Refusal;
use crate::apart::first_apart;
use crate::between::first_blocked;
use crate::group::merged;
use roc_conflict::{Classes, Columns};
use roc_merge_groups::Groups;
use roc_program::Workload;
use std::alloc::Global;

/// The merged groups of an acceptable workload. Of one that is not, the first two contended pieces of a procedure that are not
/// co-located; where there are none, the first two with a piece between them that is not. Only the groups take memory.
pub fn merge(alloc: Global, workload: &Workload, classes: &Classes) -> Result<Groups, Refusal>
    ensures merged { IfOk result (IsMerged workload.now (is_immediate classes.now)) }
    ensures acceptable { IsAcceptable workload.now (is_immediate classes.now) ↔ (IsOk result ⊎ IsErrOf result Refusal.NoMemory) }
    ensures apart { (p q : PieceId) → IsErrOf result (Refusal.Apart p q) ↔ IsApart workload.now (is_immediate classes.now) p q }
    ensures blocked { (p q x : PieceId) → IsErrOf result (Refusal.Blocked p q x) ↔ IsBlocked workload.now (is_immediate classes.now) p q x }
{
    let columns = Columns::of_all(workload);
    if let Some((p, q)) = first_apart(workload, classes, &columns) {
        return Err(Refusal::Apart { p, q });
    }
    if let Some((p, q, x)) = first_blocked(workload, classes, &columns) {
        return Err(Refusal::Blocked { p, q, x });
    }
    Ok(merged(alloc, workload, classes, &columns)?)
}
