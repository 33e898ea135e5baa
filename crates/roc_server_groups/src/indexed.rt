//! What the index has of a group.
ghost use Rattle.std.specs.Prelude.{◌≡◌, false, IsOk, OnOk};
ghost use Rattle.std.specs.List.{AllByRecursion, list_any};
ghost use Rattle.std.specs.Option.{option_copied, option_map_or};
ghost use Rattle.roc_rows.specs.declared.cell.Cell.{Cell};
ghost use Rattle.roc_rows.specs.Cells.{is_cell};
ghost use Rattle.roc_server_index.specs.GroupRefs.{group_refs_at, is_same_ref, HaveSameRefs};
ghost use Rattle.roc_step.specs.Start.{uses_cell};
ghost use Rattle.roc_server_groups.specs.Indexed.{group_ref_of, AreGroupRefsOf};
ghost use Rattle.roc_server_groups.specs.Inner.Changes.{HasRoomAtCells, IsAddedAt, AreOut, IsOutOf, IsOutOfAll};

use crate::groups::group_at;
use crate::started_groups::StartedGroups;
use roc_base::{NoMemory, TxnId};
use roc_group::Access;
use roc_server_index::{GroupRef, Index};
use roc_step::StartedGroup;

// Takes memory ahead for the reference of a group at each cell that it uses. No references change, whether there is memory
// or not.
pub(crate) fn reserve_group(index: &mut Index, e: &StartedGroup) -> Result<(), NoMemory>
    ensures refs { HaveSameRefs index.old index.new }
    ensures ok { OnOk result (HasRoomAtCells e.now.cells index.new) }
{
    for access in e.cells.as_slice() {
        index.reserve(access.cell)?;
    }
    Ok(())
}

// Adds the reference of a group, which has none yet, at each cell that it uses. `NoMemory`, which comes only where a cell
// has no room, may leave it at some of them.
pub(crate) fn add_group(index: &mut Index, e: &StartedGroup) -> Result<(), NoMemory>
    requires { (c : Cell) → AllByRecursion (λ s. is_same_ref s (group_ref_of e.now) ≡ false) (group_refs_at c index.old) }
    ensures ok { OnOk result (IsAddedAt (group_ref_of e.now) e.now.cells index.old index.new) }
    ensures succeeds { HasRoomAtCells e.now.cells index.old → IsOk result }
{
    let group_ref = GroupRef {
        id: e.id,
        proc: e.proc,
        group: e.group,
    };
    for access in e.cells.as_slice() {
        index.add(access.cell, group_ref)?;
    }
    Ok(())
}

// Takes out the references of transactions.
pub(crate) fn take_out(index: &mut Index, started: &StartedGroups, ids: &[TxnId])
    requires { AreGroupRefsOf started.now.groups index.old }
    ensures { AreOut ids.now index.old index.new }
{
    for id in ids {
        take_out_one(index, started, *id);
    }
}

// Takes out the references of a transaction: they stand at the cells that its groups use.
fn take_out_one(index: &mut Index, started: &StartedGroups, id: TxnId)
    requires { AreGroupRefsOf started.now.groups index.old }
    ensures { IsOutOfAll id index.old index.new }
{
    if !started.has(id) {
        return;
    }
    for number in 0..started.numbers() {
        let group = group_at(started, started.place(id, number));
        take_out_group(index, group, id);
    }
}

// Takes out those at the cells that a group uses, where there is one.
fn take_out_group(index: &mut Index, group: Option<&StartedGroup>, id: TxnId)
    ensures { IsOutOf id (λ c. option_map_or (uses_cell c) (option_copied group.entry) false) index.old index.new }
{
    if let Some(e) = group {
        take_out_of(index, e.cells.as_slice(), id);
    }
}

// Takes out those at the cells of these uses.
fn take_out_of(index: &mut Index, cells: &[Access], id: TxnId)
    ensures { IsOutOf id (λ c. list_any (λ a. is_cell a.cell c) cells.now) index.old index.new }
{
    for access in cells {
        index.take_out(access.cell, id);
    }
}
