//! Laws of stores, each the contract of a function that does nothing.
ghost use Rattle.std.specs.Prelude.{◌≡◌, ◌≢◌, ◌↔◌, ◌+◌, ◌-◌, ◌^◌, min, ℤ, pos, Contains};
ghost use Rattle.std.specs.List.Sorted.{IsStrictlySortedBy};
ghost use Rattle.std.specs.Map.{keys_of};
ghost use Rattle.roc_rows.specs.declared.cell.Cell.{Cell};
ghost use Rattle.roc_rows.specs.Cells.{cell_cmp};
ghost use Rattle.roc_rows.specs.Store.{Store, empty, read, write, entries};
ghost use Rattle.roc_rows.specs.Versions.{Counts, version, unwritten, counted};

/// At first all cells are 0. A read after a write has what was written in that cell, and what was
/// there before in every other. Stores that read alike are one.
pub fn reads_after_writes()
    ensures empty { (c : Cell) → read empty c ≡ pos 0 }
    ensures same { (s : Store) (c : Cell) (v : ℤ) → read (write s c v) c ≡ v }
    ensures other { (s : Store) (c : Cell) (v : ℤ) (d : Cell) → c ≢ d → read (write s c v) d ≡ read s d }
    ensures alike { (s t : Store) → ((c : Cell) → read s c ≡ read t c) → s ≡ t }
{}

/// The entries of a store are the cells that are not 0 with their numbers, each once, by cell
/// rising.
pub fn entries_are_not_zero()
    ensures rising { (s : Store) → IsStrictlySortedBy cell_cmp (keys_of (entries s)) }
    ensures exactly { (s : Store) (c : Cell) (v : ℤ) → Contains (entries s) (c, v) ↔ ((v ≢ pos 0) × (read s c ≡ v)) }
{}

/// At first no cell was written. A count raises the version of its cell by one, up to 2^64 - 1, and no other.
pub fn versions_count_writes()
    ensures none { (c : Cell) → version unwritten c ≡ 0 }
    ensures same { (m : Counts) (c : Cell) → version (counted m c) c ≡ min (version m c + 1) (2 ^ 64 - 1) }
    ensures other { (m : Counts) (c d : Cell) → c ≢ d → version (counted m c) d ≡ version m d }
{}
