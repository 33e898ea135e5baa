//! The plan of a workload in groups.
ghost use Rattle.std.specs.Prelude.{◌≡◌, ◌↔◌, IfOk, IsErrOf};
ghost use Rattle.roc_conflict.specs.Classes.{is_immediate};
ghost use Rattle.roc_merge_groups.specs.Accepted.{IsAcceptedGrouping};
ghost use Rattle.roc_plan.specs.Accepted.{grouped_plan, IsAccepted};

use crate::PlanFault;
use crate::build::outlines_of;
use roc_conflict::Classes;
use roc_merge_accept::are_accepted;
use roc_merge_groups::Groups;
use roc_plan::Plan;
use roc_program::Workload;
use std::alloc::Global;

/// The plan of a workload whose pieces are put into these groups. `Unfit` comes exactly where the layers above may not rely on
/// the groups, or the classes are not those of the workload; `NoMemory` where there is none for what a plan keeps of its groups.
pub fn make_plan(
    alloc: Global,
    workload: Workload,
    classes: Classes,
    groups: Groups,
) -> Result<Plan, PlanFault>
    ensures made { IfOk result (λ plan. plan ≡ grouped_plan workload (is_immediate classes) groups) }
    ensures accepted { IfOk result (λ plan. IsAccepted plan) }
    ensures unfit { IsErrOf result PlanFault.Unfit ↔ ¬ IsAcceptedGrouping workload (is_immediate classes) groups }
{
    if !are_accepted(&workload, &classes, &groups) {
        return Err(PlanFault::Unfit);
    }
    let outlines = outlines_of(alloc, &workload, &classes, &groups)?;
    Ok(Plan::from_outlines(workload, outlines))
}
