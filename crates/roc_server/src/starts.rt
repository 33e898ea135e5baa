//! Starts.
ghost use Rattle.std.specs.Prelude.{◌≡◌, ◌∷◌, [], ◌<◌, length, None, false, is_none, if◌then◌else◌, IfOk, OnOk};
ghost use Rattle.roc_depgraph.specs.Deps.{is_known};
ghost use Rattle.roc_msg.specs.Outbox.{HasSent, HasRun};
ghost use Rattle.roc_group.specs.GroupRun.{call};
ghost use Rattle.roc_plan.specs.Groups.{groups_of, is_immediate_of};
ghost use Rattle.roc_step.specs.Fits.{IsCallOf, AreGroupsOf};
ghost use Rattle.roc_server.specs.Inner.Parts.{state_behind, state_of, CanRelease, IsIdle, IsSound, Keeps};
ghost use Rattle.roc_server.specs.Inner.Starts.{asked, start_fault, StartTaken, StartsNew, TellsStart};
ghost use Rattle.roc_step.specs.Runs.{accesses_of};
ghost use Rattle.roc_step.specs.Start.{has_counts, start_refusal, startok_of};
ghost use Rattle.roc_step.specs.State.{find_group};

use crate::parts::ServerParts;
use crate::started_now::new_group;
use crate::{Handled, StartedGroup};
use roc_base::{NoMemory, Node, Shard, TxnId};
use roc_msg::{Msg, Outbox, Reason};
use roc_plan::{Known, Plan};
use roc_server_groups::{differs, find_group, is_immediate, note_group};
use std::alloc::Global;

// A group that is asked to start.
#[derive(Drop)]
pub(crate) struct Request {
    pub id: TxnId,
    pub proc: u16,
    pub group: u16,
    pub known: Known,
}

// Tries a start, or ignores it.
pub(crate) fn try_start(
    alloc: Global,
    plan: &Plan,
    shard: Shard,
    parts: &mut ServerParts,
    request: Request,
    sends: &mut Outbox,
) -> Result<Handled, NoMemory>
    requires fits { AreGroupsOf plan.now parts.old.groups.kept }
    requires sound { IsSound parts.old }
    requires idle { IsIdle parts.old }
    ensures step { IfOk result (λ answer. StartTaken plan.now parts.old.lists.decided (state_of shard parts.old) (state_behind shard parts.new) sends.old sends.new request.id (asked request) answer) }
    ensures fits { OnOk result (AreGroupsOf plan.now (state_behind shard parts.new).started) }
    ensures can { OnOk result (CanRelease parts.new) }
    ensures keeps { Keeps parts.old parts.new }
    ensures sound { IsSound parts.new }
{
    if let Some(answer) = start_refusal(plan, shard, parts, &request) {
        return Ok(answer);
    }
    match find_group(parts.groups.started(), request.id, request.group) {
        Some(earlier) => {
            send_startok(shard, earlier, sends)?;
            Ok(Handled::Done)
        }
        None => start_new(alloc, plan, shard, parts, request, sends),
    }
}

// Tries that a group starts that is not here.
fn start_new(
    alloc: Global,
    plan: &Plan,
    shard: Shard,
    parts: &mut ServerParts,
    request: Request,
    sends: &mut Outbox,
) -> Result<Handled, NoMemory>
    requires call { IsCallOf plan.now (asked request) }
    requires absent { find_group request.id request.group parts.old.groups.kept ≡ None }
    requires unknown { is_known parts.old.lists.kept.lists.known request.id ≡ false }
    requires fits { AreGroupsOf plan.now parts.old.groups.kept }
    requires sound { IsSound parts.old }
    requires idle { IsIdle parts.old }
    ensures step { IfOk result (λ answer. StartsNew plan.now parts.old.lists.decided (state_of shard parts.old) (state_behind shard parts.new) sends.old sends.new request.id (asked request) answer) }
    ensures fits { OnOk result (AreGroupsOf plan.now (state_behind shard parts.new).started) }
    ensures can { OnOk result (CanRelease parts.new) }
    ensures keeps { Keeps parts.old parts.new }
    ensures sound { IsSound parts.new }
{
    let group = new_group(alloc, plan, shard, parts, request)?;
    tell_start(plan, shard, &group, sends)?;
    parts.groups.start(group)?;
    Ok(Handled::Done)
}

// Tells of a group that starts, and notes the accesses of one that ran.
fn tell_start(
    plan: &Plan,
    shard: Shard,
    group: &StartedGroup,
    sends: &mut Outbox,
) -> Result<(), NoMemory>
    requires { group.now.group < length (groups_of plan.now group.now.proc) }
    ensures { OnOk result (TellsStart plan.now shard group.now sends.old sends.new) }
{
    note_if_immediate(plan, group, sends)?;
    send_startok(shard, group, sends)
}

// Notes the accesses of a group where it runs as it starts.
fn note_if_immediate(plan: &Plan, group: &StartedGroup, sends: &mut Outbox) -> Result<(), NoMemory>
    requires { group.now.group < length (groups_of plan.now group.now.proc) }
    ensures { OnOk result (HasRun sends.old sends.new (accesses_of (if is_immediate_of plan.now group.now.proc group.now.group then group.now ∷ [] else []))) }
{
    if is_immediate(plan, group.proc, group.group) {
        return note_group(group, sends);
    }
    Ok(())
}

// What a start is answered that is not taken: it comes too late, or is ignored for the first reason that holds.
fn start_refusal(
    plan: &Plan,
    shard: Shard,
    parts: &ServerParts,
    request: &Request,
) -> Option<Handled>
    requires { IsIdle parts.now }
    ensures answer { result ≡ start_refusal plan.now (state_of shard parts.now) request.now.id (asked request.now) }
    ensures fits { result ≡ None → IsCallOf plan.now (asked request.now) }
{
    let is_new = find_group(parts.groups.started(), request.id, request.group).is_none();
    if is_new && parts.lists.is_ended(request.id) {
        return Some(Handled::Gone);
    }
    match start_fault(plan, shard, parts, request, is_new) {
        Some(reason) => Some(Handled::Ignored(reason)),
        None => None,
    }
}

// Why a start is ignored, where it is: the first reason that holds.
fn start_fault(
    plan: &Plan,
    shard: Shard,
    parts: &ServerParts,
    request: &Request,
    is_new: bool,
) -> Option<Reason>
    requires idle { IsIdle parts.now }
    requires new { is_new ≡ is_none (find_group request.now.id request.now.group parts.now.groups.kept) }
    ensures reason { result ≡ start_fault plan.now (state_of shard parts.now) request.now.id (asked request.now) }
    ensures fits { result ≡ None → IsCallOf plan.now (asked request.now) }
{
    let (id, proc, group) = (request.id, request.proc, request.group);
    if !plan.is_transaction(proc) {
        return Some(Reason::BadProc);
    }
    if group >= plan.groups(proc) {
        return Some(Reason::BadGroup);
    }
    if !has_counts(plan, proc, group, &request.known) {
        return Some(Reason::BadInputs);
    }
    if plan.shard_of(plan.place(proc, group, &request.known)) != shard {
        return Some(Reason::NotHere);
    }
    if is_new && parts.lists.table().list(id).is_some() {
        return Some(Reason::Late);
    }
    if differs(parts.groups.started(), id, proc, &request.known.args) {
        return Some(Reason::Differs);
    }
    None
}

// Whether there are as many arguments and inputs as the plan has.
fn has_counts(plan: &Plan, proc: u16, group: u16, known: &Known) -> bool
    requires procedure { proc < length plan.now.program.procedures }
    requires group { group < length (groups_of plan.now proc) }
    ensures { result ≡ has_counts plan.now (call proc group known.now.args known.now.inputs) }
{
    known.args.len() == plan.args(proc) as usize
        && known.inputs.len() == plan.inputs(proc, group).len()
}

// Tells a group's coordinator that it has started, what it gave, and what comes before.
fn send_startok(shard: Shard, e: &StartedGroup, outbox: &mut Outbox) -> Result<(), NoMemory>
    ensures sent { OnOk result (HasSent outbox.old outbox.new (startok_of shard e.now ∷ [])) }
{
    let startok = Msg::StartOk {
        id: e.id,
        group: e.group,
        shard,
        bound: e.bound.clone()?,
        outs: e.outs.clone()?,
        edges: e.edges.clone()?,
        facts: e.facts.clone()?,
    };
    outbox.send(Node::Coord(e.id.coord), startok)
}
