//! A table of the cells that are not 0.
ghost use Rattle.std.specs.Prelude.{◌≡◌, ◌+◌, ◌<◌, ◌≤◌, IsOk, IfOk, OnOk, OnErr};

use crate::Cell;
use roc_base::NoMemory;
use std::alloc::Global;
use std::collections::HashMap;
use std::marker::Model;

// A number for each cell, 0 until another is set.
#[derive(Drop)]
pub(crate) struct Numbers {
    alloc: Global,
    numbers: HashMap<Cell, i64>,
}

impl Model for Numbers {
    ghost use Rattle.std.specs.HashMap.{spare};
    ghost use Rattle.roc_rows.specs.Inner.Kept.{Numbered, coded_numbered, store_of, HasNoZero};

    ghost Value = { Numbered };

    ghost coded = { coded_numbered };

    ghost view = { λ r. record { store = store_of r.numbers.entries; spare = spare r.numbers } };

    ghost invariant = { λ r. HasNoZero r.numbers.entries };
}

impl Numbers {
    ghost use Rattle.roc_rows.specs.Store.{empty, read, write, entries};

    // All cells 0. Takes no memory.
    pub(crate) fn new(alloc: Global) -> Numbers
        ensures { result.store ≡ empty }
    {
        Numbers {
            alloc,
            numbers: HashMap::new(alloc),
        }
    }

    // The number of a cell.
    pub(crate) fn get(&self, cell: Cell) -> i64
        ensures { result ≡ read self.now.store cell }
    {
        self.numbers.get(&cell).copied().unwrap_or(0)
    }

    // Sets the number of a cell. `NoMemory` leaves all cells as they were, and comes only where
    // `spare` is 0.
    pub(crate) fn set(&mut self, cell: Cell, number: i64) -> Result<(), NoMemory>
        ensures ok { OnOk result (self.new.store ≡ write self.old.store cell number) }
        ensures err { OnErr result (self.new.store ≡ self.old.store) }
        ensures succeeds { 0 < self.old.spare → IsOk result }
        ensures spare { self.old.spare ≤ self.new.spare + 1 }
    {
        if number == 0 {
            self.numbers.remove(&cell);
        } else {
            self.numbers.insert(cell, number)?;
        }
        Ok(())
    }

    // How many more sets cannot fail.
    pub(crate) fn spare(&self) -> usize
        ensures { result ≡ self.now.spare }
    {
        self.numbers.capacity() - self.numbers.len()
    }

    // Takes memory ahead, so that this many more sets cannot fail. No cell changes, whether there
    // is memory or not.
    pub(crate) fn reserve(&mut self, more: usize) -> Result<(), NoMemory>
        ensures store { self.new.store ≡ self.old.store }
        ensures ok { OnOk result (more ≤ self.new.spare) }
        ensures succeeds { more ≤ self.old.spare → IsOk result }
        ensures spare { self.old.spare ≤ self.new.spare }
    {
        self.numbers.reserve(more)?;
        Ok(())
    }

    // The cells that are not 0, each with its number, by cell rising.
    pub(crate) fn nonzero(&self) -> Result<Vec<(Cell, i64)>, NoMemory>
        ensures { IfOk result (λ listed. listed.items ≡ entries self.now.store) }
    {
        let mut listed = self
            .numbers
            .iter()
            .map(|(cell, number)| (*cell, *number))
            .collect::<Vec<_>>(self.alloc)?;
        listed.sort_unstable();
        Ok(listed)
    }

    // A copy of all cells, on the same allocator.
    pub(crate) fn try_clone(&self) -> Result<Numbers, NoMemory>
        ensures { IfOk result (λ copy. copy.store ≡ self.now.store) }
    {
        Ok(Numbers {
            alloc: self.alloc,
            numbers: self.numbers.clone()?,
        })
    }
}
