//! The table of bits.
ghost use Rattle.std.specs.Prelude.{◌≡◌, ℕ, false, IfOk, OnOk, OnErr};
ghost use Rattle.roc_server_reach.specs.Bits.{bit_at, AreReached, AreSameBits, IsColumnCleared, IsEnded, IsPut, IsRowCleared};

use crate::rows::{clear_column, clear_row, put_row, reached_by};
use roc_base::NoMemory;
use std::alloc::Global;
use std::marker::Model;

/// Which number leads to which. Of a number that was never named no bit is set, as row or as column.
#[derive(Drop)]
pub struct BitRows {
    alloc: Global,
    rows: Vec<Vec<u64>>,
    // Numbers whose bits do not count in any row: their columns were cleared. No row has more words.
    stale: Vec<u64>,
}

impl Model for BitRows {
    ghost use Rattle.std.specs.Prelude.{length};
    ghost use Rattle.roc_server_reach.specs.Bits.{BitTable};
    ghost use Rattle.roc_server_reach.specs.Inner.Rows.{bits_in, AreRowsWithin};

    ghost Value = { BitTable };

    ghost view = { λ b. bits_in b.rows.items b.stale.items };

    ghost invariant = { λ b. AreRowsWithin b.rows.items (length b.stale.items) };
}

impl BitRows {
    /// No bit is set. Takes no memory.
    pub fn new(alloc: Global) -> BitRows
        ensures { (n m : ℕ) → bit_at result n m ≡ false }
    {
        BitRows {
            alloc,
            rows: Vec::new(alloc),
            stale: Vec::new(alloc),
        }
    }

    /// Gives a row the bits of these numbers and no others. It takes a bit for each number up to the greatest of them, and an empty row for
    /// each number up to its own. Where it names a number whose column was cleared since all rows were last looked at, it looks at each row once, and
    /// else at its own alone. `NoMemory` comes where there is none for these bits and rows, and leaves all bits as they were.
    pub fn put(&mut self, at: usize, names: &[usize]) -> Result<(), NoMemory>
        ensures ok { OnOk result (IsPut at names.now self.old self.new) }
        ensures err { OnErr result (AreSameBits self.old self.new) }
    {
        put_row(self.alloc, &mut self.rows, &mut self.stale, at, names)
    }

    /// Takes all bits out of a row and out of a column. Takes no memory, and looks at no other row.
    pub fn end(&mut self, at: usize)
        ensures { IsEnded at self.old self.new }
    {
        self.clear_row(at);
        self.clear_column(at);
    }

    /// Takes all bits out of a row. Takes no memory.
    pub fn clear_row(&mut self, at: usize)
        ensures { IsRowCleared at self.old self.new }
    {
        clear_row(&mut self.rows, at);
    }

    /// Takes all bits out of a column. Takes no memory, and looks at no row.
    pub fn clear_column(&mut self, at: usize)
        ensures { IsColumnCleared at self.old self.new }
    {
        clear_column(&mut self.stale, at);
    }

    /// What these numbers lead to by chains of bits, they themselves among them. The order tells nothing. `NoMemory` comes where there
    /// is none for these numbers and two sets as wide as the rows.
    pub fn reached(&self, from: &[usize]) -> Result<Vec<usize>, NoMemory>
        ensures { IfOk result (λ ns. AreReached self.now from.now ns.items) }
    {
        reached_by(self.alloc, &self.rows, &self.stale, from)
    }
}
