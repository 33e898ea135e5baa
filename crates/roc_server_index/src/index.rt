//! The index.
ghost use Rattle.std.specs.Prelude.{◌≡◌, ◌≤◌, ◌<◌, ◌+◌, [], true, false, None, IsTrue, IsOk, OnOk, OnErr};
ghost use Rattle.std.specs.Map.{lookup};
ghost use Rattle.roc_rows.specs.Cells.{is_cell};
ghost use Rattle.roc_server_index.specs.GroupRefs.{group_refs_at, spare_at, ends_with, with_group_ref, without, ChangesAt, HaveSameRefs, KeepsRoom, TakesRoomAt};
ghost use Rattle.roc_server_index.specs.Inner.Held.{held, room_of};

use crate::GroupRef;
use roc_base::{NoMemory, TxnId};
use roc_rows::Cell;
use std::alloc::Global;
use std::collections::BTreeMap;
use std::marker::Model;

/// The references of the groups that use a cell, for each cell. A cell takes no memory until a group uses it or room is
/// reserved there.
#[derive(Drop)]
pub struct Index {
    alloc: Global,
    cells: BTreeMap<Cell, Vec<GroupRef>>,
}

impl Model for Index {
    ghost use Rattle.std.specs.Prelude.{List};
    ghost use Rattle.roc_rows.specs.declared.cell.Cell.{Cell};
    ghost use Rattle.roc_server_index.specs.GroupRefs.{CellRefs};
    ghost use Rattle.roc_server_index.specs.Inner.Held.{held};

    ghost Value = { List (Cell × CellRefs) };

    ghost view = { λ i. held i.cells.entries };
}

impl Index {
    /// No references. Takes no memory.
    pub fn new(alloc: Global) -> Index
        ensures { result ≡ [] }
    {
        Index {
            alloc,
            cells: BTreeMap::new(alloc),
        }
    }

    /// The references of a cell, in the order in which they came.
    pub fn at(&self, cell: Cell) -> &[GroupRef]
        ensures { result.now ≡ group_refs_at cell self.now }
    {
        match self.cells.get(&cell) {
            Some(group_refs) => group_refs.as_slice(),
            None => &[],
        }
    }

    /// Adds a reference at a cell, unless the last one there is of the same group. `NoMemory` leaves the references of all
    /// cells as they were, and comes only where the cell has no room and its last reference is of another group.
    pub fn add(&mut self, cell: Cell, group_ref: GroupRef) -> Result<(), NoMemory>
        ensures ok { OnOk result (ChangesAt cell (with_group_ref group_ref) self.old self.new) }
        ensures err { OnErr result (HaveSameRefs self.old self.new) }
        ensures succeeds { 0 < spare_at cell self.old → IsOk result }
        ensures again { ends_with group_ref (group_refs_at cell self.old) ≡ true → IsOk result }
        ensures spare { TakesRoomAt cell self.old self.new }
    {
        if let Some(group_refs) = self.cells.get_mut(&cell) {
            put(group_refs, group_ref)?;
            return Ok(());
        }
        let mut group_refs = Vec::new(self.alloc);
        group_refs.push(group_ref)?;
        self.cells.insert(cell, group_refs)?;
        Ok(())
    }

    /// Takes memory ahead, so that one more reference finds room at a cell. No references change, whether there is memory
    /// or not.
    pub fn reserve(&mut self, cell: Cell) -> Result<(), NoMemory>
        ensures refs { HaveSameRefs self.old self.new }
        ensures ok { OnOk result (0 < spare_at cell self.new) }
        ensures succeeds { 0 < spare_at cell self.old → IsOk result }
        ensures spare { KeepsRoom self.old self.new }
    {
        if let Some(group_refs) = self.cells.get_mut(&cell) {
            group_refs.reserve(1)?;
            return Ok(());
        }
        let group_refs = Vec::with_capacity(self.alloc, 1)?;
        self.cells.insert(cell, group_refs)?;
        Ok(())
    }

    /// Takes the references of a transaction out of a cell. A cell that is left without references has no entry. Takes no memory.
    pub fn take_out(&mut self, cell: Cell, id: TxnId)
        ensures changes { ChangesAt cell (without id) self.old self.new }
        ensures let_go { group_refs_at cell self.new ≡ [] → lookup (is_cell cell) self.new ≡ None }
    {
        if empties(&mut self.cells, cell, id) {
            let _group_refs = self.cells.remove(&cell);
        }
    }
}

// Takes the references of a transaction out of a cell, and tells whether the cell has an entry without references then.
fn empties(cells: &mut BTreeMap<Cell, Vec<GroupRef>>, cell: Cell, id: TxnId) -> bool
    ensures changes { ChangesAt cell (without id) (held cells.old.entries) (held cells.new.entries) }
    ensures none { IsTrue result → group_refs_at cell (held cells.new.entries) ≡ [] }
    ensures some { result ≡ false → group_refs_at cell (held cells.new.entries) ≡ [] → lookup (is_cell cell) (held cells.new.entries) ≡ None }
{
    match cells.get_mut(&cell) {
        Some(group_refs) => {
            take_out_all(group_refs, id);
            group_refs.is_empty()
        }
        None => false,
    }
}

// Whether the last of the references is of this group.
fn ends_with(group_refs: &[GroupRef], group_ref: GroupRef) -> bool
    ensures { result ≡ ends_with group_ref group_refs.now }
{
    match group_refs.last() {
        Some(last) => last.id == group_ref.id && last.group == group_ref.group,
        None => false,
    }
}

// Adds a reference, unless the last one is of the same group.
fn put(group_refs: &mut Vec<GroupRef>, group_ref: GroupRef) -> Result<(), NoMemory>
    ensures ok { OnOk result (group_refs.new.items ≡ with_group_ref group_ref group_refs.old.items) }
    ensures err { OnErr result (group_refs.new.items ≡ group_refs.old.items) }
    ensures succeeds { 0 < room_of group_refs.old → IsOk result }
    ensures again { ends_with group_ref group_refs.old.items ≡ true → IsOk result }
    ensures spare { room_of group_refs.old ≤ room_of group_refs.new + 1 }
{
    if ends_with(group_refs, group_ref) {
        return Ok(());
    }
    group_refs.push(group_ref)?;
    Ok(())
}

// Takes out the references of a transaction.
fn take_out_all(group_refs: &mut Vec<GroupRef>, id: TxnId)
    ensures { group_refs.new.items ≡ without id group_refs.old.items }
{
    group_refs.retain(|group_ref| group_ref.id != id);
}
