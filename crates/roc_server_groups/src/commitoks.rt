//! Answers to those that are decided.
ghost use Rattle.std.specs.Prelude.{◌∷◌, [], filter, map, OnOk};
ghost use Rattle.roc_msg.specs.Outbox.{HasSent};
ghost use Rattle.roc_step.specs.Fits.{AreGroupsOf};
ghost use Rattle.roc_step.specs.Runs.{commitok};
ghost use Rattle.roc_step.specs.State.{is_here};

use crate::groups::is_here;
use crate::runs::outs_here;
use crate::started_groups::StartedGroups;
use roc_base::{NoMemory, Node, Shard, TxnId};
use roc_msg::{Msg, Outbox};
use roc_plan::Plan;
use std::alloc::Global;

/// Answers each of these that has a group here.
pub fn send_commitoks(
    alloc: Global,
    plan: &Plan,
    shard: Shard,
    started: &StartedGroups,
    ids: &[TxnId],
    outbox: &mut Outbox,
) -> Result<(), NoMemory>
    requires { AreGroupsOf plan.now started.now.groups }
    ensures { OnOk result (HasSent outbox.old outbox.new (map (commitok plan.now shard started.now.groups) (filter (λ t. is_here t started.now.groups) ids.now))) }
{
    for id in ids {
        if is_here(started, *id) {
            send_commitok(alloc, plan, shard, started, *id, outbox)?;
        }
    }
    Ok(())
}

/// Tells a transaction's coordinator what its groups here gave.
pub fn send_commitok(
    alloc: Global,
    plan: &Plan,
    shard: Shard,
    started: &StartedGroups,
    id: TxnId,
    outbox: &mut Outbox,
) -> Result<(), NoMemory>
    requires { AreGroupsOf plan.now started.now.groups }
    ensures { OnOk result (HasSent outbox.old outbox.new (commitok plan.now shard started.now.groups id ∷ [])) }
{
    let outs = outs_here(alloc, plan, id, started)?;
    outbox.send(Node::Coord(id.coord), Msg::CommitOk { id, shard, outs })
}
