//! What runs in a step: the accesses of its groups, in order.
ghost use Rattle.std.specs.Prelude.{◌<◌, ◌∷◌, [], length, OnOk};
ghost use Rattle.roc_msg.specs.Outbox.{HasRun};
ghost use Rattle.roc_plan.specs.Groups.{groups_of};
ghost use Rattle.roc_step.specs.Fits.{AreGroupsOf};
ghost use Rattle.roc_server_groups.specs.Inner.Runs.{buffered};
ghost use Rattle.roc_step.specs.Runs.{accesses_of, all_buffered, buffered_here};

use crate::begun::is_immediate;
use crate::groups::{count_of_groups, find_group};
use crate::started_groups::StartedGroups;
use roc_base::{NoMemory, TxnId};
use roc_msg::{Outbox, Ran};
use roc_plan::Plan;
use roc_step::StartedGroup;

/// Notes the accesses of a group.
pub fn note_group(group: &StartedGroup, outbox: &mut Outbox) -> Result<(), NoMemory>
    ensures { OnOk result (HasRun outbox.old outbox.new (accesses_of (group.now ∷ []))) }
{
    for access in group.cells.as_slice() {
        outbox.note_ran(Ran {
            id: group.id,
            cell: access.cell,
            writes: access.writes,
        })?;
    }
    Ok(())
}

// The same where the group is buffered.
fn note_if_buffered(plan: &Plan, group: &StartedGroup, outbox: &mut Outbox) -> Result<(), NoMemory>
    requires { group.now.group < length (groups_of plan.now group.now.proc) }
    ensures { OnOk result (HasRun outbox.old outbox.new (accesses_of (buffered plan.now (group.now ∷ [])))) }
{
    if is_immediate(plan, group.proc, group.group) {
        return Ok(());
    }
    note_group(group, outbox)
}

// The same of the buffered groups of a transaction, by number.
fn note_transaction(
    plan: &Plan,
    id: TxnId,
    started: &StartedGroups,
    outbox: &mut Outbox,
) -> Result<(), NoMemory>
    requires { AreGroupsOf plan.now started.now.groups }
    ensures { OnOk result (HasRun outbox.old outbox.new (accesses_of (buffered_here plan.now id started.now.groups))) }
{
    let count = count_of_groups(plan, started, id);
    for number in 0..count {
        if let Some(group) = find_group(started, id, number) {
            note_if_buffered(plan, group, outbox)?;
        }
    }
    Ok(())
}

// The same of transactions, one by one.
pub(crate) fn note_all(
    plan: &Plan,
    ids: &[TxnId],
    started: &StartedGroups,
    outbox: &mut Outbox,
) -> Result<(), NoMemory>
    requires { AreGroupsOf plan.now started.now.groups }
    ensures { OnOk result (HasRun outbox.old outbox.new (accesses_of (all_buffered plan.now started.now.groups ids.now))) }
{
    for id in ids {
        note_transaction(plan, *id, started, outbox)?;
    }
    Ok(())
}
