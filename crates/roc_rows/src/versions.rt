//! How often each cell was written.
ghost use Rattle.std.specs.Prelude.{◌≡◌, ◌+◌, ◌-◌, ◌^◌, min, ◌<◌, ◌≤◌, IsOk, IfOk, OnOk, OnErr};

use crate::Cell;
use roc_base::NoMemory;
use std::alloc::Global;
use std::collections::HashMap;
use std::marker::Model;

/// How many writes were made to each cell, at most 2^64 - 1 of them. Takes memory for the cells that were written.
#[derive(Drop)]
pub struct Versions {
    alloc: Global,
    counts: HashMap<Cell, u64>,
}

impl Model for Versions {
    ghost use Rattle.std.specs.HashMap.{spare};
    ghost use Rattle.roc_rows.specs.Versions.{Versioned};
    ghost use Rattle.roc_rows.specs.Inner.Counted.{coded_versions, counts_of};

    ghost Value = { Versioned };

    ghost coded = { coded_versions };

    ghost view = { λ v. record { counts = counts_of v.counts.entries; spare = spare v.counts } };
}

impl Versions {
    ghost use Rattle.roc_rows.specs.Versions.{version, unwritten, counted};

    /// No cell was written. Takes no memory.
    pub fn new(alloc: Global) -> Versions
        ensures { result.counts ≡ unwritten }
    {
        Versions {
            alloc,
            counts: HashMap::new(alloc),
        }
    }

    /// How often a cell was written. Takes no memory.
    pub fn get(&self, cell: Cell) -> u64
        ensures { result ≡ version self.now.counts cell }
    {
        self.writes(&cell)
    }

    /// Counts a write to a cell. `NoMemory` leaves all counts as they were, and comes only where
    /// `spare` is 0.
    pub fn count(&mut self, cell: Cell) -> Result<(), NoMemory>
        ensures ok { OnOk result (self.new.counts ≡ counted self.old.counts cell) }
        ensures err { OnErr result (self.new.counts ≡ self.old.counts) }
        ensures succeeds { 0 < self.old.spare → IsOk result }
        ensures spare { self.old.spare ≤ self.new.spare + 1 }
    {
        let next = self.next(&cell);
        self.counts.insert(cell, next)?;
        Ok(())
    }

    // How often a cell was written, after one more write.
    fn next(&self, cell: &Cell) -> u64
        ensures { result ≡ min (version self.now.counts cell.now + 1) (2 ^ 64 - 1) }
    {
        self.writes(cell).saturating_add(1)
    }

    fn writes(&self, cell: &Cell) -> u64
        ensures { result ≡ version self.now.counts cell.now }
    {
        self.counts.get(cell).copied().unwrap_or(0)
    }

    /// How many more counts cannot fail.
    pub fn spare(&self) -> usize
        ensures { result ≡ self.now.spare }
    {
        self.counts.capacity() - self.counts.len()
    }

    /// Takes memory ahead, so that this many more counts cannot fail. No count changes, whether there
    /// is memory or not.
    pub fn reserve(&mut self, more: usize) -> Result<(), NoMemory>
        ensures counts { self.new.counts ≡ self.old.counts }
        ensures ok { OnOk result (more ≤ self.new.spare) }
        ensures succeeds { more ≤ self.old.spare → IsOk result }
        ensures spare { self.old.spare ≤ self.new.spare }
    {
        self.counts.reserve(more)?;
        Ok(())
    }

    /// A copy of all counts, on the same allocator.
    pub fn try_clone(&self) -> Result<Versions, NoMemory>
        ensures { IfOk result (λ copy. copy.counts ≡ self.now.counts) }
    {
        Ok(Versions {
            alloc: self.alloc,
            counts: self.counts.clone()?,
        })
    }
}
