//! The reads of a view: where they go, and which are sent.
ghost use Rattle.std.specs.Prelude.{◌≡◌, ◌<◌, length, map, is_some, All, IfOk, OnOk};
ghost use Rattle.std.specs.Option.{option_copied};
ghost use Rattle.roc_msg.specs.Outbox.{HasSent};
ghost use Rattle.roc_plan.specs.Groups.{groups_of};
ghost use Rattle.roc_readonly.specs.Fits.{IsViewOf};
ghost use Rattle.roc_readonly.specs.Round.{find_read, read_shard};
ghost use Rattle.roc_readonly.specs.Inner.Missing.{read_in, missing_groups, missing_reads};

use crate::{TakenRead, View};
use roc_base::{NoMemory, Node, Nums, Shard};
use roc_msg::{Msg, Outbox};
use roc_plan::{Known, Plan};
use std::alloc::{AllocError, Global};

/// What a group has read, where its answer is among these.
pub(crate) fn find_read(reads: &[TakenRead], group: u16) -> Option<&TakenRead>
    ensures { option_copied result ≡ find_read group reads.now }
{
    reads.iter().find(|ok| ok.group == group)
}

/// Whether a group's answer is among these.
pub(crate) fn has_read(reads: &[TakenRead], group: u16) -> bool
    ensures { result ≡ is_some (find_read group reads.now) }
{
    find_read(reads, group).is_some()
}

/// The shard of a group's place.
pub(crate) fn read_shard(
    alloc: Global,
    plan: &Plan,
    v: &View,
    group: u16,
) -> Result<Shard, NoMemory>
    requires view { IsViewOf plan.now v.now }
    requires group { group < length (groups_of plan.now v.now.proc) }
    ensures { IfOk result (λ shard. shard ≡ read_shard plan.now v.now group) }
{
    let _accepted = plan.workload();
    let known = Known {
        args: v.args.clone()?,
        inputs: Nums::new(alloc),
    };
    Ok(plan.shard_of(plan.place(v.proc, group, &known)))
}

// The groups that are not among these, by number.
fn missing_groups(
    alloc: Global,
    plan: &Plan,
    v: &View,
    got: &[TakenRead],
) -> Result<Vec<u16>, AllocError>
    requires { v.now.proc < length plan.now.program.procedures }
    ensures { IfOk result (λ groups. groups.items ≡ missing_groups plan.now v.now got.now) }
{
    let mut groups = Vec::new(alloc);
    for group in 0..plan.groups(v.proc) {
        if !has_read(got, group) {
            groups.push(group)?;
        }
    }
    Ok(groups)
}

// Sends the reads of these groups in a round. `NoMemory` may leave some sent.
fn send_each(
    alloc: Global,
    plan: &Plan,
    v: &View,
    round: u32,
    groups: &[u16],
    outbox: &mut Outbox,
) -> Result<(), NoMemory>
    requires view { IsViewOf plan.now v.now }
    requires groups { All (λ group. group < length (groups_of plan.now v.now.proc)) groups.now }
    ensures { OnOk result (HasSent outbox.old outbox.new (map (read_in plan.now v.now round) groups.now)) }
{
    for group in groups {
        let shard = read_shard(alloc, plan, v, *group)?;
        let read = Msg::Read {
            id: v.id,
            round,
            proc: v.proc,
            group: *group,
            args: v.args.clone()?,
        };
        outbox.send(Node::Server(shard), read)?;
    }
    Ok(())
}

/// Sends the reads of a round of the groups that are not among these, in group order. `NoMemory` may leave some sent.
pub(crate) fn send_missing(
    alloc: Global,
    plan: &Plan,
    v: &View,
    round: u32,
    got: &[TakenRead],
    outbox: &mut Outbox,
) -> Result<(), NoMemory>
    requires { IsViewOf plan.now v.now }
    ensures { OnOk result (HasSent outbox.old outbox.new (missing_reads plan.now v.now round got.now)) }
{
    let groups = missing_groups(alloc, plan, v, got)?;
    send_each(alloc, plan, v, round, groups.as_slice(), outbox)
}
