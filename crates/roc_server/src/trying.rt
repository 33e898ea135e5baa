//! What comes of a message is tried.
ghost use Rattle.std.specs.Prelude.{◌≡◌, true, IfOk, OnOk};
ghost use Rattle.roc_server.specs.Ahead.{needs_room};
ghost use Rattle.roc_step.specs.Fits.{AreGroupsOf};
ghost use Rattle.roc_server.specs.Inner.Parts.{state_behind, state_of, CanRelease, IsIdle, IsSound, Keeps};
ghost use Rattle.roc_step.specs.State.{ServerStep};
ghost use Rattle.roc_step.specs.Step.{Handles};
ghost use Rattle.roc_server.specs.Inner.Shown.{ShowsStep};

use crate::Handled;
use crate::commits::{try_commit, try_known};
use crate::fetches::try_fetch;
use crate::parts::ServerParts;
use crate::reads::judge_read;
use crate::settled::{try_ended, try_settled};
use crate::starts::{Request, try_start};
use roc_base::{NoMemory, Nums, Shard, TxnId};
use roc_msg::{Msg, Outbox};
use roc_plan::{Known, Plan};
use std::alloc::Global;

// Tries what comes of a message of a kind that needs room: what is to be sent goes to `sends`.
pub(crate) fn try_message(
    alloc: Global,
    plan: &Plan,
    shard: Shard,
    parts: &mut ServerParts,
    msg: &Msg,
    sends: &mut Outbox,
) -> Result<Handled, NoMemory>
    requires kind { needs_room msg.now ≡ true }
    requires fits { AreGroupsOf plan.now parts.old.groups.kept }
    requires sound { IsSound parts.old }
    requires idle { IsIdle parts.old }
    ensures step { IfOk result (λ answer. (r : ServerStep) × Handles plan.now (state_of shard parts.old) msg.now r × ShowsStep r answer (state_behind shard parts.new) sends.old sends.new) }
    ensures fits { OnOk result (AreGroupsOf plan.now (state_behind shard parts.new).started) }
    ensures can { OnOk result (CanRelease parts.new) }
    ensures keeps { Keeps parts.old parts.new }
    ensures sound { IsSound parts.new }
{
    match msg {
        Msg::Start {
            id,
            proc,
            group,
            args,
            inputs,
        } => {
            let request = request(*id, *proc, *group, args, inputs)?;
            try_start(alloc, plan, shard, parts, request, sends)
        }
        Msg::Commit { id, edges, facts } => {
            try_commit(
                alloc,
                plan,
                shard,
                parts,
                *id,
                edges,
                facts.as_slice(),
                sends,
            )
        }
        Msg::Fetch { id, asker } => try_fetch(shard, parts, *id, *asker, sends),
        Msg::Known { id, edges } => try_known(alloc, plan, shard, parts, *id, edges, sends),
        Msg::Ended { coord, below } => try_ended(shard, parts, *coord, *below),
        Msg::Settled { id, below } => try_settled(alloc, plan, shard, parts, *id, *below, sends),
        Msg::Read {
            id,
            round: _,
            proc,
            group,
            args,
        } => judge_read(alloc, plan, shard, &parts.lists, *id, *proc, *group, args),
        _ => unreachable!(),
    }
}

// What a start asks for.
fn request(
    id: TxnId,
    proc: u16,
    group: u16,
    args: &Nums,
    inputs: &Nums,
) -> Result<Request, NoMemory>
    ensures { IfOk result (λ r. r ≡ record { id = id; proc = proc; group = group; known = record { args = args.now; inputs = inputs.now } }) }
{
    let known = Known {
        args: args.clone()?,
        inputs: inputs.clone()?,
    };
    Ok(Request {
        id,
        proc,
        group,
        known,
    })
}
