//! A journal that records are appended to.
ghost use Rattle.std.specs.Prelude.{◌≡◌, ℕ, true, not, List, [], ◌∷◌, ◌++◌, Some, IfSome, OnOk, OnErr, is_none, length};
ghost use Rattle.roc_io.specs.Cause.{HasCause};
ghost use Rattle.roc_disk.specs.Over.{LeavesOnly};
ghost use Rattle.roc_disk.specs.Stops.{Only};
ghost use Rattle.roc_journal.specs.Answers.{has_room, append_failed, is_full};
ghost use Rattle.roc_journal.specs.Format.{record_bytes, IsRecordOf};
ghost use Rattle.roc_journal.specs.Settled.{IsSynced, IsBeforeOrAfter, IsUnmade};
ghost use Rattle.roc_journal.specs.declared.record.Record.{Record as RecordValue};

use crate::AppendFault;
use crate::through::write_through;
use roc_disk::{Disk, DiskDone};

/// How long a journal may be, in bytes.
pub const MOST_BYTES: u64 = 1 << 30;

/// The end of a journal on a disk: the place of the gate that the next record opens.
#[derive(Clone, Copy, Debug)]
pub struct Journal {
    gate: u64,
}

// The bytes of a journal without records, but for the magic.
fn blank_head(tag: [u8; 8]) -> [u8; 13]
    ensures bytes { result ≡ 0 ∷ 0 ∷ 0 ∷ 0 ∷ tag ++ 0 ∷ [] }
    ensures tag_length { length tag ≡ 8 }
{
    let mut bytes = [0; 13];
    bytes[4..12].copy_from_slice(&tag);
    bytes
}

impl Journal {
    // The journal whose last gate has this place.
    pub(crate) fn ending_at(gate: u64) -> Journal
        ensures { result.gate ≡ gate }
    {
        Journal { gate }
    }

    /// Makes a journal without records of the open file, which has to be empty and synced. `None` where the disk failed:
    /// what is left holds no record, and may be emptied and made again.
    pub fn create<D: Disk>(tag: [u8; 8], disk: &mut D) -> Option<Journal>
        ensures cause { HasCause (is_none result) (D.faults disk.old) (D.faults disk.new) }
        ensures told { D.tells disk.new ≡ true → D.tells disk.old ≡ true }
        ensures made { D.tells disk.new ≡ true → (name : List ℕ) → D.file disk.old ≡ Some name → D.content disk.old name ≡ [] → Only [] (D.may_leave disk.old name)
            → IfSome result (λ journal. IsSynced D.Disk disk.new name tag [] journal) }
        ensures any_moment { D.tells disk.new ≡ true → (name : List ℕ) → D.file disk.old ≡ Some name → D.content disk.old name ≡ [] → Only [] (D.may_leave disk.old name)
            → LeavesOnly D.Disk disk.old disk.new name (IsUnmade tag) }
    {
        let blank = blank_head(tag);
        // The magic comes behind the rest, so that a file without it was never used.
        match write_through(disk, 0, &blank) {
            DiskDone::Failed => None,
            DiskDone::Ok => match write_through(disk, 0, b"RCJ1") {
                DiskDone::Failed => None,
                DiskDone::Ok => Some(Journal { gate: 12 }),
            },
        }
    }

    /// Whether the file is at most [`MOST_BYTES`] long with these bytes behind its gate.
    pub fn fits(&self, bytes: &[u8]) -> bool
        ensures { result ≡ has_room self.now bytes.now }
    {
        self.gate < MOST_BYTES && bytes.len() as u64 <= MOST_BYTES - 1 - self.gate
    }

    /// Appends a record, given as [`record_of`](crate::record_of) made it of a header with the journal's tag. After Ok
    /// each stop leaves the record; after `Disk` the value is of no more use, and the file has to be read again.
    pub fn append<D: Disk>(&mut self, bytes: &[u8], disk: &mut D) -> Result<(), AppendFault>
        ensures cause { HasCause (append_failed result) (D.faults disk.old) (D.faults disk.new) }
        ensures told { D.tells disk.new ≡ true → D.tells disk.old ≡ true }
        ensures full { is_full result ≡ not (has_room self.old bytes.now) }
        ensures untouched { is_full result ≡ true → disk.new ≡ disk.old }
        ensures unchanged { OnErr result (self.new ≡ self.old) }
        ensures appended { D.tells disk.new ≡ true → (name tag : List ℕ) (records : List RecordValue) (added : RecordValue) → IsSynced D.Disk disk.old name tag records self.old
            → IsRecordOf tag added → bytes.now ≡ record_bytes added ++ 0 ∷ [] → OnOk result (IsSynced D.Disk disk.new name tag (records ++ added ∷ []) self.new) }
        // A stop at any moment of the call leaves the records from before it, with the new one or without.
        ensures any_moment { D.tells disk.new ≡ true → (name tag : List ℕ) (records : List RecordValue) (added : RecordValue) → IsSynced D.Disk disk.old name tag records self.old
            → IsRecordOf tag added → bytes.now ≡ record_bytes added ++ 0 ∷ [] → LeavesOnly D.Disk disk.old disk.new name (IsBeforeOrAfter tag records added) }
    {
        if !self.fits(bytes) {
            return Err(AppendFault::Full);
        }
        // The record is on the disk before its gate opens: what was torn stands behind a closed gate.
        match write_through(disk, self.gate + 1, bytes) {
            DiskDone::Failed => Err(AppendFault::Disk),
            DiskDone::Ok => match write_through(disk, self.gate, &[1]) {
                DiskDone::Failed => Err(AppendFault::Disk),
                DiskDone::Ok => {
                    self.gate += bytes.len() as u64;
                    Ok(())
                }
            },
        }
    }
}
