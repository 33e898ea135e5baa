//! The start round: which groups can start, and what is sent to start them.
ghost use Rattle.std.specs.Prelude.{◌≡◌, ◌<◌, ◌++◌, length, filter, map, is_some, IfOk, OnOk, OnErr, All};
ghost use Rattle.std.specs.Option.{option_copied};
ghost use Rattle.roc_msg.specs.Outbox.{HasSent};
ghost use Rattle.roc_plan.specs.Groups.{groups_of};
ghost use Rattle.roc_coord.specs.State.{find_start, find_startok};
ghost use Rattle.roc_coord.specs.Fits.{IsTransactionOf};
ghost use Rattle.roc_coord.specs.Starts.{group_numbers, input_value, inputs_for, is_ready, can_start, ready_groups, shard_for, start_for, sent_start, with_starts, starts_of, all_started};
ghost use Rattle.roc_coord.specs.Inner.MoreStarts.{HasMoreStarts};
ghost use Rattle.roc_coord.specs.Tick.{awaits_startok, starts_again};

use crate::{SentStart, TakenStart, Transaction};
use roc_base::{NoMemory, Node, Nums, Shard};
use roc_msg::{Msg, Outbox};
use roc_plan::{Input, Known, Plan};
use std::alloc::{AllocError, Global};

// What a group's startok told, where one was taken.
fn find_startok(startoks: &[TakenStart], group: u16) -> Option<&TakenStart>
    ensures { option_copied result ≡ find_startok group startoks.now }
{
    startoks.iter().find(|ok| ok.group == group)
}

/// Whether a group's startok was taken.
pub(crate) fn has_startok(startoks: &[TakenStart], group: u16) -> bool
    ensures { result ≡ is_some (find_startok group startoks.now) }
{
    find_startok(startoks, group).is_some()
}

// The start of a group, where it was asked to start.
fn find_start(starts: &[SentStart], group: u16) -> Option<&SentStart>
    ensures { option_copied result ≡ find_start group starts.now }
{
    starts.iter().find(|start| start.group == group)
}

// Whether a group can start now.
fn can_start(plan: &Plan, x: &Transaction, group: u16) -> bool
    requires { group < length (groups_of plan.now x.now.proc) }
    ensures { result ≡ can_start plan.now x.now group }
{
    is_ready(plan, x, group) && find_start(x.starts.as_slice(), group).is_none()
}

// The value that an input names, or 0 where it is not known.
fn input_value(x: &Transaction, input: Input) -> i64
    ensures { result ≡ input_value x.now input }
{
    match find_startok(x.startoks.as_slice(), input.group) {
        None => 0,
        Some(ok) => {
            let bound = ok.bound.as_slice();
            bound.get(usize::from(input.at)).copied().unwrap_or(0)
        }
    }
}

// What a group's inputs are.
fn inputs_for(alloc: Global, plan: &Plan, x: &Transaction, group: u16) -> Result<Nums, NoMemory>
    requires { group < length (groups_of plan.now x.now.proc) }
    ensures { IfOk result (λ inputs. inputs ≡ inputs_for plan.now x.now group) }
{
    let mut inputs = Nums::new(alloc);
    for input in plan.inputs(x.proc, group) {
        inputs.push(input_value(x, *input))?;
    }
    Ok(inputs)
}

// Whether all of a group's inputs are known.
fn is_ready(plan: &Plan, x: &Transaction, group: u16) -> bool
    requires { group < length (groups_of plan.now x.now.proc) }
    ensures { result ≡ is_ready plan.now x.now group }
{
    let startoks = x.startoks.as_slice();
    plan.inputs(x.proc, group)
        .iter()
        .all(|input| has_startok(startoks, input.group))
}

// The groups whose inputs are known and that were not asked to start.
fn ready_groups(alloc: Global, plan: &Plan, x: &Transaction) -> Result<Vec<u16>, AllocError>
    requires { x.now.proc < length plan.now.program.procedures }
    ensures { IfOk result (λ ready. ready.items ≡ ready_groups plan.now x.now) }
{
    let mut ready = Vec::new(alloc);
    for group in 0..plan.groups(x.proc) {
        if can_start(plan, x, group) {
            ready.push(group)?;
        }
    }
    Ok(ready)
}

// The start of a group, with the shard of the group's place.
fn start_for(
    alloc: Global,
    plan: &Plan,
    x: &Transaction,
    group: u16,
) -> Result<(Shard, Msg), NoMemory>
    requires transaction { IsTransactionOf plan.now x.now }
    requires group { group < length (groups_of plan.now x.now.proc) }
    ensures shard { IfOk result (λ r. r.0 ≡ shard_for plan.now x.now group) }
    ensures start { IfOk result (λ r. record { to = Node.Server r.0; msg = r.1 } ≡ start_for plan.now x.now group) }
{
    let known = Known {
        args: x.args.clone()?,
        inputs: inputs_for(alloc, plan, x, group)?,
    };
    let shard = plan.shard_of(plan.place(x.proc, group, &known));
    let Known { args, inputs } = known;
    let start = Msg::Start {
        id: x.id,
        proc: x.proc,
        group,
        args,
        inputs,
    };
    Ok((shard, start))
}

// Sends the starts of these groups. `NoMemory` may leave some sent.
fn send_each(
    alloc: Global,
    plan: &Plan,
    x: &mut Transaction,
    ready: &[u16],
    outbox: &mut Outbox,
) -> Result<(), NoMemory>
    requires transaction { IsTransactionOf plan.now x.old }
    requires groups { All (λ group. group < length (groups_of plan.now x.old.proc)) ready.now }
    ensures kept { OnOk result (x.new ≡ record x.old { starts = x.old.starts ++ map (sent_start plan.now x.old) ready.now }) }
    ensures sent { OnOk result (HasSent outbox.old outbox.new (map (start_for plan.now x.old) ready.now)) }
    ensures err { OnErr result (HasMoreStarts x.old x.new) }
    ensures id { x.new.id ≡ x.old.id }
    ensures fits { IsTransactionOf plan.now x.new }
{
    for group in ready {
        let (shard, start) = start_for(alloc, plan, x, *group)?;
        outbox.send(Node::Server(shard), start)?;
        x.starts.push(SentStart {
            group: *group,
            shard,
        })?;
    }
    Ok(())
}

/// Sends the starts of the groups that are ready, in group order. `NoMemory` may leave some sent.
pub(crate) fn send_starts(
    alloc: Global,
    plan: &Plan,
    x: &mut Transaction,
    outbox: &mut Outbox,
) -> Result<(), NoMemory>
    requires transaction { IsTransactionOf plan.now x.old }
    ensures kept { OnOk result (x.new ≡ with_starts plan.now x.old) }
    ensures sent { OnOk result (HasSent outbox.old outbox.new (starts_of plan.now x.old)) }
    ensures err { OnErr result (HasMoreStarts x.old x.new) }
    ensures id { x.new.id ≡ x.old.id }
    ensures fits { IsTransactionOf plan.now x.new }
{
    let ready = ready_groups(alloc, plan, x)?;
    send_each(alloc, plan, x, ready.as_slice(), outbox)
}

// Whether a group was asked to start, and has no startok.
fn awaits_startok(x: &Transaction, group: u16) -> bool
    ensures { result ≡ awaits_startok x.now group }
{
    find_start(x.starts.as_slice(), group).is_some() && !has_startok(x.startoks.as_slice(), group)
}

// The groups that were asked to start, and have no startok.
fn awaiting_groups(alloc: Global, plan: &Plan, x: &Transaction) -> Result<Vec<u16>, AllocError>
    requires { x.now.proc < length plan.now.program.procedures }
    ensures { IfOk result (λ groups. groups.items ≡ filter (awaits_startok x.now) (group_numbers plan.now x.now.proc)) }
{
    let mut groups = Vec::new(alloc);
    for group in 0..plan.groups(x.proc) {
        if awaits_startok(x, group) {
            groups.push(group)?;
        }
    }
    Ok(groups)
}

// Sends the starts of these groups, of which nothing is kept.
fn resend_each(
    alloc: Global,
    plan: &Plan,
    x: &Transaction,
    groups: &[u16],
    outbox: &mut Outbox,
) -> Result<(), NoMemory>
    requires transaction { IsTransactionOf plan.now x.now }
    requires groups { All (λ group. group < length (groups_of plan.now x.now.proc)) groups.now }
    ensures { OnOk result (HasSent outbox.old outbox.new (map (start_for plan.now x.now) groups.now)) }
{
    for group in groups {
        let (shard, start) = start_for(alloc, plan, x, *group)?;
        outbox.send(Node::Server(shard), start)?;
    }
    Ok(())
}

/// Sends the starts again that have no startok, in group order. `NoMemory` may leave some sent.
pub(crate) fn send_starts_again(
    alloc: Global,
    plan: &Plan,
    x: &Transaction,
    outbox: &mut Outbox,
) -> Result<(), NoMemory>
    requires { IsTransactionOf plan.now x.now }
    ensures { OnOk result (HasSent outbox.old outbox.new (starts_again plan.now x.now)) }
{
    let groups = awaiting_groups(alloc, plan, x)?;
    resend_each(alloc, plan, x, groups.as_slice(), outbox)
}

/// Whether every group has started.
pub(crate) fn all_started(plan: &Plan, x: &Transaction) -> bool
    requires { x.now.proc < length plan.now.program.procedures }
    ensures { result ≡ all_started plan.now x.now }
{
    let startoks = x.startoks.as_slice();
    (0..plan.groups(x.proc)).all(|group| has_startok(startoks, group))
}
