//! The started groups that one that starts looks at: those that are undecided, of its class, and use one of its cells.
ghost use Rattle.std.specs.Prelude.{◌≡◌, ◌+◌, ◌≤◌, ◌<◌, ◌++◌, List, length, map, filter, if◌then◌else◌, IfOk, OnOk};
ghost use Rattle.std.specs.List.{AllByRecursion};
ghost use Rattle.roc_base.specs.Edges.{united};
ghost use Rattle.roc_base.specs.declared.id.TxnId.{TxnId as Id};
ghost use Rattle.roc_step.specs.Fits.{AreGroupsOf};
ghost use Rattle.roc_sequence.specs.Places.{NoneTwice};
ghost use Rattle.roc_server_groups.specs.Groups.{is_same_group};
ghost use Rattle.roc_server_groups.specs.Indexed.{AreGroupRefsOf, IsIndexOf};
ghost use Rattle.roc_server_groups.specs.Inner.Looks.{IsGroupRefWithin, is_looked_at, is_met, edge_from};
ghost use Rattle.roc_step.specs.Start.{conflicts_before, edge_to, users};

use crate::begun::is_immediate;
use crate::lent_groups::LentGroups;
use crate::started_groups::StartedGroups;
use crate::uncovered::uncovered;
use roc_base::{Edge, Edges, NoMemory, Shard, Steps, TxnId};
use roc_group::{Access, conflict};
use roc_plan::Plan;
use roc_server_index::{GroupRef, Index};
use std::alloc::Global;
use std::sync::ledger::{Blank, Ledger};

/// What starts: a group of this transaction and class, on this shard.
#[derive(Clone, Copy)]
pub struct Starting {
    /// Where it starts.
    pub shard: Shard,
    /// Its transaction.
    pub id: TxnId,
    /// Whether it is immediate.
    pub immediate: bool,
}

/// The entries for each undecided transaction that comes before, where the index is of these: one list, rising by id. A step is one look at a started
/// group.
pub fn entries<L: Ledger>(
    alloc: Global,
    plan: &Plan,
    started: &StartedGroups,
    index: &Index,
    starting: Starting,
    cells: &[Access],
    steps: &mut Steps<L>,
) -> Result<Edges, NoMemory>
    requires fits { AreGroupsOf plan.now started.now.groups }
    requires once { NoneTwice is_same_group started.now.groups }
    requires refs { AreGroupRefsOf started.now.groups index.now }
    ensures entries { (decided : List Id) → IsIndexOf index.now decided started.now.groups → IfOk result (λ edges. edges
        ≡ united (map (edge_to starting.shard starting.immediate) (filter (conflicts_before plan.now decided starting.id starting.immediate cells.now) started.now.groups))) }
    ensures steps { (decided : List Id) → IsIndexOf index.now decided started.now.groups
        → steps.new ≤ steps.old + length (users plan.now decided starting.immediate cells.now started.now.groups) }
{
    let uses = uncovered(alloc, cells)?;
    let lent = LentGroups::new(started, index);
    lent_entries(alloc, plan, &lent, starting, &uses, steps)
}

/// The same where no steps are counted.
pub fn edges_for<L: Ledger>(
    alloc: Global,
    plan: &Plan,
    started: &StartedGroups,
    index: &Index,
    starting: Starting,
    cells: &[Access],
    blank: Blank,
) -> Result<Edges, NoMemory>
    requires name { blank.name ≡ L.name }
    requires parts { blank.parts ≡ L.parts }
    requires some { 0 < blank.parts }
    requires fits { AreGroupsOf plan.now started.now.groups }
    requires once { NoneTwice is_same_group started.now.groups }
    requires refs { AreGroupRefsOf started.now.groups index.now }
    ensures { (decided : List Id) → IsIndexOf index.now decided started.now.groups → IfOk result (λ edges. edges
        ≡ united (map (edge_to starting.shard starting.immediate) (filter (conflicts_before plan.now decided starting.id starting.immediate cells.now) started.now.groups))) }
{
    let mut steps = Steps::<L>::new(blank);
    entries(alloc, plan, started, index, starting, cells, &mut steps)
}

// The entries, where a group is reached by a step alone.
fn lent_entries<L: Ledger>(
    alloc: Global,
    plan: &Plan,
    groups: &LentGroups<'_, L>,
    starting: Starting,
    cells: &[Access],
    steps: &mut Steps<L>,
) -> Result<Edges, NoMemory>
    requires fits { AreGroupsOf plan.now groups.now.started.now.groups }
    requires once { NoneTwice is_same_group groups.now.started.now.groups }
    requires refs { AreGroupRefsOf groups.now.started.now.groups groups.now.index.now }
    ensures entries { (decided : List Id) → IsIndexOf groups.now.index.now decided groups.now.started.now.groups → IfOk result (λ edges. edges
        ≡ united (map (edge_to starting.shard starting.immediate) (filter (conflicts_before plan.now decided starting.id starting.immediate cells.now)
        groups.now.started.now.groups))) }
    ensures steps { (decided : List Id) → IsIndexOf groups.now.index.now decided groups.now.started.now.groups
        → steps.new ≤ steps.old + length (users plan.now decided starting.immediate cells.now groups.now.started.now.groups) }
{
    let mut met = Vec::new(alloc);
    for access in cells {
        let group_refs = groups.refs_at(access.cell);
        push_met(plan, groups, group_refs, starting, access, &mut met, steps)?;
    }
    let mut edges = Edges::new(alloc);
    edges.unite(&met)?;
    Ok(edges)
}

// Adds the entries for the groups of these references that come before one that makes this use.
fn push_met<L: Ledger>(
    plan: &Plan,
    groups: &LentGroups<'_, L>,
    group_refs: &[GroupRef],
    starting: Starting,
    access: &Access,
    met: &mut Vec<Edge>,
    steps: &mut Steps<L>,
) -> Result<(), NoMemory>
    requires { AllByRecursion (IsGroupRefWithin plan.now groups.now.started.now.groups) group_refs.now }
    ensures met { OnOk result (met.new.items ≡ met.old.items
        ++ map (edge_from starting.shard starting.immediate) (filter (is_met plan.now groups.now.started.now.groups starting.id starting.immediate access.now) group_refs.now)) }
    ensures steps { steps.new ≤ steps.old + length (filter (is_looked_at plan.now starting.id starting.immediate) group_refs.now) }
{
    let Starting {
        shard,
        id: _,
        immediate,
    } = starting;
    for group_ref in group_refs {
        if is_met(plan, groups, *group_ref, starting, access, steps) {
            met.push(Edge::new(group_ref.id, immediate, !immediate, shard))?;
        }
    }
    Ok(())
}

// Whether the group of a reference comes before one that makes this use.
fn is_met<L: Ledger>(
    plan: &Plan,
    groups: &LentGroups<'_, L>,
    group_ref: GroupRef,
    starting: Starting,
    access: &Access,
    steps: &mut Steps<L>,
) -> bool
    requires { IsGroupRefWithin plan.now groups.now.started.now.groups group_ref }
    ensures met { result ≡ is_met plan.now groups.now.started.now.groups starting.id starting.immediate access.now group_ref }
    ensures steps { steps.new ≡ steps.old + (if is_looked_at plan.now starting.id starting.immediate group_ref then 1 else 0) }
{
    if group_ref.id == starting.id {
        return false;
    }
    if is_immediate(plan, group_ref.proc, group_ref.group) != starting.immediate {
        return false;
    }
    let group = groups.look(group_ref, steps);
    conflict(group.cells.as_slice(), &[*access])
}
