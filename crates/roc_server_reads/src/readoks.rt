//! Answers to reads.
ghost use Rattle.std.specs.Prelude.{◌≡◌, ◌&&◌, [], length, map, filter, IfOk, OnOk};
ghost use Rattle.std.specs.List.{AllByRecursion};
ghost use Rattle.roc_group.specs.GroupRun.{group_run, group_uses};
ghost use Rattle.roc_msg.specs.Outbox.{HasSent};
ghost use Rattle.roc_rows.specs.Cells.{is_cell};
ghost use Rattle.roc_rows.specs.Store.{read};
ghost use Rattle.roc_rows.specs.Versions.{version};
ghost use Rattle.roc_step.specs.Fits.{AreReadsOf, IsReadOf};
ghost use Rattle.roc_server_reads.specs.Answering.{readok_over};
ghost use Rattle.roc_step.specs.Reads.{read_call, with_accesses};

use crate::free_reads::{cells_of, given_to};
use roc_base::{NoMemory, Node, Nums, Shard};
use roc_group::laws::runs_follow_from_cells;
use roc_group::{Access, Outputs, run_group};
use roc_msg::{CellVersions, Msg, Outbox, Ran};
use roc_plan::laws::views_are_apart;
use roc_plan::{Known, Plan};
use roc_rows::{Cell, Rows, Versions};
use roc_step::KeptRead;
use std::alloc::Global;

// Answers reads, in this order: by the cells as they are, and by the versions once what ran is counted.
pub(crate) fn send_readoks(
    alloc: Global,
    plan: &Plan,
    shard: Shard,
    rows: &Rows,
    versions: &Versions,
    reads: &[KeptRead],
    sends: &mut Outbox,
) -> Result<(), NoMemory>
    requires { AreReadsOf plan.now reads.now }
    ensures { OnOk result (HasSent sends.old sends.new (map (readok_over plan.now shard rows.now.store (with_accesses versions.now.counts sends.old.ran)) reads.now)) }
{
    for kept in reads {
        let msg = readok(alloc, plan, shard, rows, versions, sends.ran(), kept)?;
        sends.send(Node::Coord(kept.id.coord), msg)?;
    }
    Ok(())
}

// The answer to a read.
fn readok(
    alloc: Global,
    plan: &Plan,
    shard: Shard,
    rows: &Rows,
    versions: &Versions,
    ran: &[Ran],
    kept: &KeptRead,
) -> Result<Msg, NoMemory>
    requires { IsReadOf plan.now kept.now }
    ensures { IfOk result (λ msg. msg ≡ (readok_over plan.now shard rows.now.store (with_accesses versions.now.counts ran.now) kept.now).msg) }
{
    let known = given_to(alloc, &kept.args)?;
    let cells = cells_of(alloc, plan, kept, &known)?;
    Ok(Msg::ReadOk {
        id: kept.id,
        round: kept.round,
        group: kept.group,
        shard,
        versions: versions_of(alloc, versions, ran, cells.as_slice())?,
        outs: outs_of(alloc, plan, kept, &known, cells.as_slice(), rows)?,
    })
}

// The versions of cells once what ran is counted.
fn versions_of(
    alloc: Global,
    versions: &Versions,
    ran: &[Ran],
    cells: &[Access],
) -> Result<CellVersions, NoMemory>
    ensures { IfOk result (λ counts. counts ≡ map (λ a. version (with_accesses versions.now.counts ran.now) a.cell) cells.now) }
{
    let mut counts = CellVersions::new(alloc);
    for access in cells {
        counts.push(version_then(versions, ran, access.cell))?;
    }
    Ok(counts)
}

// The version of a cell once what ran is counted, which stays at the largest number.
fn version_then(versions: &Versions, ran: &[Ran], cell: Cell) -> u64
    ensures { result ≡ version (with_accesses versions.now.counts ran.now) cell }
{
    let writes = count_writes(ran, &cell) as u64;
    versions.get(cell).saturating_add(writes)
}

// How often a cell was written by what ran.
fn count_writes(ran: &[Ran], cell: &Cell) -> usize
    ensures { result ≡ length (filter (λ a. a.writes && is_cell a.cell cell.now) ran.now) }
{
    ran.iter()
        .filter(|access| access.writes && access.cell == *cell)
        .count()
}

// What a read's group adds to the reply. It runs on a copy of the cells that it reads, so that the server's own need not be lent to be
// written.
fn outs_of(
    alloc: Global,
    plan: &Plan,
    kept: &KeptRead,
    known: &Known,
    cells: &[Access],
    rows: &Rows,
) -> Result<Nums, NoMemory>
    requires fits { IsReadOf plan.now kept.now }
    requires args { known.now.args ≡ kept.now.args }
    requires inputs { known.now.inputs ≡ [] }
    requires cells { cells.now ≡ group_uses plan.now (read_call kept.now) rows.now.store }
    ensures { IfOk result (λ outs. outs ≡ (group_run plan.now (read_call kept.now) rows.now.store).reply) }
{
    let _workload = plan.workload();
    views_are_apart();
    runs_follow_from_cells();
    let mut copy = copy_of(alloc, rows, cells)?;
    let mut out = Outputs::new(alloc);
    run_group(plan, kept.proc, kept.group, known, &mut copy, &mut out)?;
    let (_, outs, _) = out.into_parts();
    Ok(outs)
}

// These cells, with the numbers that they hold.
fn copy_of(alloc: Global, rows: &Rows, cells: &[Access]) -> Result<Rows, NoMemory>
    ensures { IfOk result (λ copy. AllByRecursion (λ a. read copy.store a.cell ≡ read rows.now.store a.cell) cells.now) }
{
    let mut copy = Rows::new(alloc);
    for access in cells {
        copy.set(access.cell, rows.get(access.cell))?;
    }
    Ok(copy)
}
