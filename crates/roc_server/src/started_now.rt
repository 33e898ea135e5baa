//! A group that starts now.
ghost use Rattle.std.specs.Prelude.{◌≡◌, map, filter, IfOk};
ghost use Rattle.roc_base.specs.Edges.{united};
ghost use Rattle.roc_step.specs.Fits.{IsCallOf, AreGroupsOf};
ghost use Rattle.roc_step.specs.Start.{conflicts_before, edge_to};
ghost use Rattle.roc_server_groups.specs.Indexed.{IsIndexOf};
ghost use Rattle.roc_server.specs.Inner.Parts.{state_of, IsIdle, IsSound};
ghost use Rattle.roc_server.specs.Inner.Starts.{asked, IsNewGroup};

use crate::StartedGroup;
use crate::parts::ServerParts;
use crate::starts::Request;
use roc_base::{Edges, NoMemory, Shard};
use roc_group::Access;
use roc_plan::{Known, Plan};
use roc_server_groups::{Begun, Starting, begin_group, edges_for, is_immediate};
use roc_server_news::facts_for;
use std::alloc::Global;
use std::marker::Brand;
use std::sync::ledger::Blank;

// The entries of a group that starts now, where no steps are counted.
fn edges_of(
    alloc: Global,
    plan: &Plan,
    parts: &ServerParts,
    starting: Starting,
    cells: &[Access],
) -> Result<Edges, NoMemory>
    requires fits { AreGroupsOf plan.now parts.now.groups.ran }
    requires index { IsIndexOf parts.now.groups.index parts.now.lists.decided parts.now.groups.ran }
    ensures { IfOk result (λ edges. edges
        ≡ united (map (edge_to starting.shard starting.immediate) (filter (conflicts_before plan.now parts.now.lists.decided starting.id starting.immediate cells.now) parts.now.groups.ran))) }
{
    let blank = Blank::new(1);
    edges_for::<Brand>(
        alloc,
        plan,
        parts.groups.started(),
        parts.groups.index(),
        starting,
        cells,
        blank,
    )
}

// What is kept of a group that starts now. An immediate one runs.
pub(crate) fn new_group(
    alloc: Global,
    plan: &Plan,
    shard: Shard,
    parts: &mut ServerParts,
    request: Request,
) -> Result<StartedGroup, NoMemory>
    requires call { IsCallOf plan.now (asked request) }
    requires fits { AreGroupsOf plan.now parts.old.groups.kept }
    requires sound { IsSound parts.old }
    requires idle { IsIdle parts.old }
    ensures new { IfOk result (λ e. IsNewGroup plan.now parts.old.lists.decided (state_of shard parts.old) parts.new.rows.store request.id (asked request) e) }
    ensures groups { parts.new.groups ≡ parts.old.groups }
    ensures lists { parts.new.lists ≡ parts.old.lists }
    ensures saved { parts.new.rows.saved ≡ parts.old.rows.saved }
{
    let Request {
        id,
        proc,
        group,
        known,
    } = request;
    let immediate = is_immediate(plan, proc, group);
    let Begun { bound, outs, cells } = begin_group(
        alloc,
        plan,
        proc,
        group,
        &known,
        &mut parts.rows,
    )?;
    let starting = Starting {
        shard,
        id,
        immediate,
    };
    let edges = edges_of(alloc, plan, parts, starting, cells.as_slice())?;
    let facts = facts_for(alloc, parts.lists.table(), edges.as_slice())?;
    let Known { args, inputs } = known;
    Ok(StartedGroup {
        id,
        proc,
        group,
        args,
        inputs,
        cells,
        bound,
        outs,
        edges,
        facts,
        later: None,
    })
}
