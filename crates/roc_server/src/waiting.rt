//! What waits on a server.
ghost use Rattle.std.specs.Prelude.{◌≡◌, ◌++◌, ◌∷◌, [], ◌<◌, length, map, filter, IfOk, OnOk};
ghost use Rattle.roc_plan.specs.Groups.{groups_of};
ghost use Rattle.roc_step.specs.Fits.{AreGroupsOf};
ghost use Rattle.roc_step.specs.Waiting.{is_waiting, waiting_of};

use crate::StartedGroup;
use crate::parts::ServerParts;
use roc_base::NoMemory;
use roc_plan::Plan;
use roc_sequence::Sequence;
use roc_server_groups::is_immediate;
use roc_server_table::ListTable;
use roc_step::Waiting;
use std::alloc::Global;

// The groups that wait, in order of arrival.
pub(crate) fn all_waiting(
    alloc: Global,
    plan: &Plan,
    parts: &ServerParts,
) -> Result<Vec<Waiting>, NoMemory>
    requires { AreGroupsOf plan.now parts.now.groups.ran }
    ensures { IfOk result (λ groups. groups.items ≡ map waiting_of (filter (is_waiting plan.now parts.now.lists.decided) parts.now.groups.ran)) }
{
    let mut groups = Vec::new(alloc);
    for group in parts.groups.started().as_slice() {
        if is_waiting(plan, parts.lists.table(), group) {
            push_waiting(alloc, group, &mut groups)?;
        }
    }
    Ok(groups)
}

// Whether a group is buffered, and its transaction not decided.
fn is_waiting(plan: &Plan, table: &ListTable, group: &StartedGroup) -> bool
    requires { group.now.group < length (groups_of plan.now group.now.proc) }
    ensures { result ≡ is_waiting plan.now table.now.decided group.now }
{
    !is_immediate(plan, group.proc, group.group) && !table.is_decided(group.id)
}

// Adds what is shown of a group.
fn push_waiting(
    alloc: Global,
    group: &StartedGroup,
    groups: &mut Vec<Waiting>,
) -> Result<(), NoMemory>
    ensures { OnOk result (groups.new.items ≡ groups.old.items ++ waiting_of group.now ∷ []) }
{
    let cells = Sequence::from_slice(alloc, group.cells.as_slice())?;
    groups.push(Waiting {
        id: group.id,
        cells,
    })?;
    Ok(())
}
