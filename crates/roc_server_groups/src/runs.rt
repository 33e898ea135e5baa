//! Runs of the groups that have started.
ghost use Rattle.std.specs.Prelude.{◌≡◌, ◌<◌, ◌++◌, [], length, unwrap_or, Some, slice_get, slice_set, IfOk, OnOk};
ghost use Rattle.std.specs.Option.{option_to_list};
ghost use Rattle.roc_sequence.specs.Places.{NoneTwice};
ghost use Rattle.roc_group.specs.GroupRun.{call, group_run};
ghost use Rattle.roc_step.specs.Runs.{buffered_here, group_call, outs_here, take_all};
ghost use Rattle.roc_step.specs.declared.started.StartedGroup.{StartedGroup as Group};
ghost use Rattle.roc_step.specs.Fits.{AreGroupsOf, IsCallOf};
ghost use Rattle.roc_server_groups.specs.Groups.{holding, is_same_group, AreSameGroups};
ghost use Rattle.roc_server_groups.specs.Inner.Runs.{buffered, RunTo, RunsAt, RunsIfBuffered};
ghost use Rattle.roc_server_groups.specs.Inner.Restored.{restored, with_later_at};
ghost use Rattle.roc_step.specs.State.{find_group, ServerState};

use crate::begun::is_immediate;
use crate::groups::{count_of_groups, find_group, place_of_group};
use crate::started_groups::StartedGroups;
use roc_base::{NoMemory, Nums, TxnId};
use roc_group::{Outputs, run_group};
use roc_plan::{Known, Plan};
use roc_rows::Rows;
use roc_step::StartedGroup;
use std::alloc::Global;

// What is kept of what the group at an index gave, before it runs.
#[derive(Drop)]
pub(crate) struct Earlier {
    // Where the group stands.
    pub at: usize,
    // What it had given, where it had run.
    pub later: Option<Nums>,
}

// Takes transactions one by one: the buffered groups of each run, by number. What each gave before is noted behind `earlier`, whether there is memory or
// not; cells are put back by their savepoint alone.
pub(crate) fn run_all(
    alloc: Global,
    plan: &Plan,
    ids: &[TxnId],
    started: &mut StartedGroups,
    rows: &mut Rows,
    earlier: &mut Vec<Earlier>,
) -> Result<(), NoMemory>
    requires fits { AreGroupsOf plan.now started.old.groups }
    requires once { NoneTwice is_same_group started.old.groups }
    ensures runs { OnOk result ((s : ServerState) → take_all plan.now (holding s rows.old.store started.old.groups) ids.now ≡ holding s rows.new.store started.new.groups) }
    ensures groups { OnOk result (AreSameGroups started.old.groups started.new.groups) }
    ensures restored { restored earlier.new.items started.new.groups ≡ restored earlier.old.items started.old.groups }
    ensures spare { started.new.spare ≡ started.old.spare }
    ensures saved { rows.new.saved ≡ rows.old.saved }
{
    for id in ids {
        run_transaction(alloc, plan, *id, started, rows, earlier)?;
    }
    Ok(())
}

// Runs the buffered groups of a transaction, by number.
fn run_transaction(
    alloc: Global,
    plan: &Plan,
    id: TxnId,
    started: &mut StartedGroups,
    rows: &mut Rows,
    earlier: &mut Vec<Earlier>,
) -> Result<(), NoMemory>
    requires fits { AreGroupsOf plan.now started.old.groups }
    requires once { NoneTwice is_same_group started.old.groups }
    ensures runs { OnOk result (RunTo plan.now (buffered_here plan.now id started.old.groups) started.old.groups started.new.groups rows.old.store rows.new.store) }
    ensures groups { OnOk result (AreSameGroups started.old.groups started.new.groups) }
    ensures restored { restored earlier.new.items started.new.groups ≡ restored earlier.old.items started.old.groups }
    ensures spare { started.new.spare ≡ started.old.spare }
    ensures saved { rows.new.saved ≡ rows.old.saved }
{
    let count = count_of_groups(plan, started, id);
    for number in 0..count {
        run_number(alloc, plan, id, number, started, rows, earlier)?;
    }
    Ok(())
}

// Runs a group of a transaction, where it is here and buffered.
fn run_number(
    alloc: Global,
    plan: &Plan,
    id: TxnId,
    number: u16,
    started: &mut StartedGroups,
    rows: &mut Rows,
    earlier: &mut Vec<Earlier>,
) -> Result<(), NoMemory>
    requires fits { AreGroupsOf plan.now started.old.groups }
    requires once { NoneTwice is_same_group started.old.groups }
    ensures runs { OnOk result (RunTo plan.now (buffered plan.now (option_to_list (find_group id number started.old.groups)))
        started.old.groups started.new.groups rows.old.store rows.new.store) }
    ensures groups { OnOk result (AreSameGroups started.old.groups started.new.groups) }
    ensures restored { restored earlier.new.items started.new.groups ≡ restored earlier.old.items started.old.groups }
    ensures spare { started.new.spare ≡ started.old.spare }
    ensures saved { rows.new.saved ≡ rows.old.saved }
{
    match place_of_group(started, id, number) {
        Some(at) => run_if_buffered(alloc, plan, at, started, rows, earlier),
        None => Ok(()),
    }
}

// Runs the group at an index, where it is buffered.
fn run_if_buffered(
    alloc: Global,
    plan: &Plan,
    at: usize,
    started: &mut StartedGroups,
    rows: &mut Rows,
    earlier: &mut Vec<Earlier>,
) -> Result<(), NoMemory>
    requires exists { at < length started.old.groups }
    requires fits { AreGroupsOf plan.now started.old.groups }
    ensures runs { OnOk result ((e : Group) → slice_get started.old.groups at ≡ Some e → RunsIfBuffered plan.now e at started.old.groups started.new.groups rows.old.store rows.new.store) }
    ensures restored { restored earlier.new.items started.new.groups ≡ restored earlier.old.items started.old.groups }
    ensures spare { started.new.spare ≡ started.old.spare }
    ensures saved { rows.new.saved ≡ rows.old.saved }
{
    let group = &started.as_slice()[at];
    if is_immediate(plan, group.proc, group.group) {
        return Ok(());
    }
    run_at(alloc, plan, at, started, rows, earlier)
}

// Runs the group at an index, and keeps with it what it gave.
fn run_at(
    alloc: Global,
    plan: &Plan,
    at: usize,
    started: &mut StartedGroups,
    rows: &mut Rows,
    earlier: &mut Vec<Earlier>,
) -> Result<(), NoMemory>
    requires exists { at < length started.old.groups }
    requires fits { AreGroupsOf plan.now started.old.groups }
    ensures runs { OnOk result ((e : Group) → slice_get started.old.groups at ≡ Some e → RunsAt plan.now e at started.old.groups started.new.groups rows.old.store rows.new.store) }
    ensures restored { restored earlier.new.items started.new.groups ≡ restored earlier.old.items started.old.groups }
    ensures spare { started.new.spare ≡ started.old.spare }
    ensures saved { rows.new.saved ≡ rows.old.saved }
{
    let given = given_by(alloc, plan, &started.as_slice()[at], rows)?;
    keep_given(at, given, started, earlier)
}

// Keeps with the group at an index what it gave, and notes what it had given before.
fn keep_given(
    at: usize,
    given: Nums,
    started: &mut StartedGroups,
    earlier: &mut Vec<Earlier>,
) -> Result<(), NoMemory>
    requires { at < length started.old.groups }
    ensures given { OnOk result ((e : Group) → slice_get started.old.groups at ≡ Some e → started.new.groups ≡ slice_set started.old.groups at (record e { later = Some given })) }
    ensures restored { restored earlier.new.items started.new.groups ≡ restored earlier.old.items started.old.groups }
    ensures spare { started.new.spare ≡ started.old.spare }
{
    earlier.reserve(1)?;
    let later = started.keep_later(at, Some(given));
    earlier.push(Earlier { at, later }).unwrap();
    Ok(())
}

// The groups are as they were before the runs that are noted. Takes no memory.
pub(crate) fn put_back(started: &mut StartedGroups, mut earlier: Vec<Earlier>)
    ensures { started.new.groups ≡ restored earlier.items started.old.groups }
{
    while let Some(Earlier { at, later }) = earlier.pop() {
        put_later(started, at, later);
    }
}

// Keeps something else of what the group at an index gave, where there is one.
fn put_later(started: &mut StartedGroups, at: usize, later: Option<Nums>)
    ensures { started.new.groups ≡ with_later_at at later started.old.groups }
{
    if at < started.as_slice().len() {
        started.keep_later(at, later);
    }
}

// A group runs: what it gives.
fn given_by(
    alloc: Global,
    plan: &Plan,
    group: &StartedGroup,
    rows: &mut Rows,
) -> Result<Nums, NoMemory>
    requires { IsCallOf plan.now (group_call group.now) }
    ensures store { OnOk result (rows.new.store ≡ (group_run plan.now (group_call group.now) rows.old.store).store) }
    ensures given { IfOk result (λ given. given ≡ (group_run plan.now (group_call group.now) rows.old.store).reply) }
    ensures saved { rows.new.saved ≡ rows.old.saved }
{
    let known = known_to(group)?;
    given_with(alloc, plan, group.proc, group.group, &known, rows)
}

// What a group gives that runs with this.
fn given_with(
    alloc: Global,
    plan: &Plan,
    proc: u16,
    group: u16,
    known: &Known,
    rows: &mut Rows,
) -> Result<Nums, NoMemory>
    requires { IsCallOf plan.now (call proc group known.now.args known.now.inputs) }
    ensures store { OnOk result (rows.new.store ≡ (group_run plan.now (call proc group known.now.args known.now.inputs) rows.old.store).store) }
    ensures given { IfOk result (λ given. given ≡ (group_run plan.now (call proc group known.now.args known.now.inputs) rows.old.store).reply) }
    ensures saved { rows.new.saved ≡ rows.old.saved }
{
    let mut out = Outputs::new(alloc);
    run_group(plan, proc, group, known, rows, &mut out)?;
    let (_, outs, _) = out.into_parts();
    Ok(outs)
}

// What a group was called with.
fn known_to(group: &StartedGroup) -> Result<Known, NoMemory>
    ensures { IfOk result (λ known. call group.now.proc group.now.group known.args known.inputs ≡ group_call group.now) }
{
    Ok(Known {
        args: group.args.clone()?,
        inputs: group.inputs.clone()?,
    })
}

// What the groups of a transaction here gave, by number.
pub(crate) fn outs_here(
    alloc: Global,
    plan: &Plan,
    id: TxnId,
    started: &StartedGroups,
) -> Result<Nums, NoMemory>
    requires { AreGroupsOf plan.now started.now.groups }
    ensures { IfOk result (λ outs. outs ≡ outs_here plan.now id started.now.groups) }
{
    let mut outs = Nums::new(alloc);
    let count = count_of_groups(plan, started, id);
    for number in 0..count {
        if let Some(group) = find_group(started, id, number) {
            push_outs(group, &mut outs)?;
        }
    }
    Ok(outs)
}

// Adds what a group gave, where it has run.
fn push_outs(group: &StartedGroup, outs: &mut Nums) -> Result<(), NoMemory>
    ensures { OnOk result (outs.new ≡ outs.old ++ unwrap_or group.now.later []) }
{
    match &group.later {
        Some(given) => outs.extend_from_slice(given.as_slice()),
        None => Ok(()),
    }
}
