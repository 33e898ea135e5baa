//! What holds of all files.
ghost use Rattle.std.specs.Prelude.{◌≡◌, ◌⊎◌, ℕ, List, length};
ghost use Rattle.roc_journal.specs.Faults.{IsFault};
ghost use Rattle.roc_journal.specs.Format.{IsJournal};
ghost use Rattle.roc_journal.specs.Laws.{HasRecords, HasFault};
ghost use Rattle.roc_wire.specs.Reading.{IsBytes};
ghost use Rattle.roc_journal.specs.declared.record.Record.{Record};

use roc_wire::laws::{right_or_wrong, spelled_apart};

/// A file is a journal of at most one list of records.
pub fn journals_are_unique()
    ensures { (tag bytes : List ℕ) (records others : List Record) → IsJournal tag bytes records → IsJournal tag bytes others → records ≡ others }
{
    spelled_apart();
}

/// A file that is a journal has no fault.
pub fn journals_have_no_fault()
    ensures { (tag bytes : List ℕ) (records : List Record) (at : ℕ) → length tag ≡ 8 → IsJournal tag bytes records → IsFault tag bytes at → ⊥ }
{
    spelled_apart();
}

/// A file has at most one fault.
pub fn faults_are_unique()
    ensures { (tag bytes : List ℕ) (at other : ℕ) → length tag ≡ 8 → IsFault tag bytes at → IsFault tag bytes other → at ≡ other }
{
    spelled_apart();
}

/// Each file is a journal or has a fault.
pub fn journal_or_fault()
    ensures { (tag bytes : List ℕ) → length tag ≡ 8 → IsBytes bytes → HasRecords tag bytes ⊎ HasFault tag bytes }
{
    spelled_apart();
    right_or_wrong();
}
