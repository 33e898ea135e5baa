//! Watermarks, and transactions for which nobody has to wait any more.
ghost use Rattle.std.specs.Prelude.{IfOk, OnOk};
ghost use Rattle.roc_msg.specs.Outbox.{Collected};
ghost use Rattle.roc_step.specs.Fits.{AreGroupsOf};
ghost use Rattle.roc_step.specs.Lists.{after_ended};
ghost use Rattle.roc_server.specs.Inner.Parts.{state_behind, state_of, CanRelease, IsIdle, IsSound, Keeps};
ghost use Rattle.roc_server.specs.Inner.Settled.{Settles};
ghost use Rattle.roc_server.specs.Inner.Shown.{ShowsStep};

use crate::Handled;
use crate::parts::ServerParts;
use crate::teach::{run_newly, tell_newly};
use roc_base::{NoMemory, Shard, TxnId};
use roc_msg::Outbox;
use roc_plan::Plan;
use std::alloc::Global;

// Tries that a watermark is heard.
pub(crate) fn try_ended(
    shard: Shard,
    parts: &mut ServerParts,
    coord: u16,
    mark: u32,
) -> Result<Handled, NoMemory>
    requires sound { IsSound parts.old }
    requires idle { IsIdle parts.old }
    ensures step { IfOk result (λ answer. (out : Collected) → ShowsStep (after_ended (state_of shard parts.old) coord mark) answer (state_behind shard parts.new) out out) }
    ensures can { OnOk result (CanRelease parts.new) }
    ensures keeps { Keeps parts.old parts.new }
    ensures sound { IsSound parts.new }
{
    parts.lists.hear(coord, mark)?;
    Ok(Handled::Done)
}

// Tries that nobody has to wait for a transaction any more. Where it was not asked for, its watermark alone is heard.
pub(crate) fn try_settled(
    alloc: Global,
    plan: &Plan,
    shard: Shard,
    parts: &mut ServerParts,
    id: TxnId,
    mark: u32,
    sends: &mut Outbox,
) -> Result<Handled, NoMemory>
    requires fits { AreGroupsOf plan.now parts.old.groups.kept }
    requires sound { IsSound parts.old }
    requires idle { IsIdle parts.old }
    ensures step { IfOk result (λ answer. Settles plan.now (state_of shard parts.old) (state_behind shard parts.new) sends.old sends.new id mark answer) }
    ensures fits { OnOk result (AreGroupsOf plan.now (state_behind shard parts.new).started) }
    ensures can { OnOk result (CanRelease parts.new) }
    ensures keeps { Keeps parts.old parts.new }
    ensures sound { IsSound parts.new }
{
    if !parts.lists.was_asked_for(id) {
        parts.lists.hear(id.coord, mark)?;
        return Ok(Handled::Gone);
    }
    parts.lists.settle(id, mark)?;
    run_newly(plan, parts, sends)?;
    tell_newly(alloc, plan, shard, parts, None, sends)?;
    Ok(Handled::Done)
}
