//! Reading a journal, record by record.
ghost use Rattle.std.specs.Prelude.{◌≡◌, ◌+◌, ◌<◌, ◌≤◌, ℕ, true, false, List, Some, IfSome, is_none, length, take, drop};
ghost use Rattle.std.specs.Int.{w32, to_be_bytes, from_be_bytes};
ghost use Rattle.roc_io.specs.Cause.{HasCause};
ghost use Rattle.roc_disk.specs.Over.{LeavesOnly, Stays};
ghost use Rattle.roc_journal.specs.Format.{magic, IsJournal};
ghost use Rattle.roc_journal.specs.Settled.{IsDurable, IsSynced};
ghost use Rattle.roc_journal.specs.Answers.{read_failed};
ghost use Rattle.roc_journal.specs.Inner.Pieces.{HasOpenGate};
ghost use Rattle.roc_journal.specs.Reading.{most_datagram, IsReadTo, IsGateWithin, MovesOn, ReadsNext, OpensRight, Opens};
ghost use Rattle.roc_journal.specs.declared.record.Record.{Record as RecordValue};

use crate::pieces::{byte_at, eight_at, four_at, number_at, read_at, record_in, synced_len, zeros};
use crate::through::cut_through;
use crate::{Journal, ReadFault, Record};
use roc_disk::{Disk, DiskDone};
use std::alloc::Global;

// The longest datagram that a message has.
const MOST_DATAGRAM: u32 = 60_000;

/// A journal that is being read: its tag, the place of the next gate, and how long the file is.
#[derive(Clone, Copy, Debug)]
pub struct Reader {
    tag: [u8; 8],
    gate: u64,
    len: u64,
}

impl Reader {
    /// Begins to read the open file, once all of it is on the disk. `None` where it is empty, and is made a journal by [`Journal::create`].
    /// A file that is no journal of this tag from its head on is refused at 0 (the magic), 4 (the tag) or 12 (no gate byte).
    pub fn open<D: Disk>(tag: [u8; 8], disk: &mut D) -> Result<Option<Reader>, ReadFault>
        ensures cause { HasCause (read_failed result) (D.faults disk.old) (D.faults disk.new) }
        ensures told { D.tells disk.new ≡ true → D.tells disk.old ≡ true }
        ensures stays { D.tells disk.new ≡ true → Stays D.Disk disk.old disk.new }
        ensures right { OpensRight tag result }
        ensures started { D.tells disk.new ≡ true → (name : List ℕ) → D.file disk.old ≡ Some name → Opens tag (D.content disk.old name) result }
        ensures durable { D.tells disk.new ≡ true → (name : List ℕ) → D.file disk.old ≡ Some name → read_failed result ≡ false
            → IsDurable D.Disk disk.new name (D.content disk.old name) }
    {
        match synced_len(disk) {
            None => Err(ReadFault::Disk),
            Some(len) => {
                if len == 0 {
                    return Ok(None);
                }
                Reader::open_magic(tag, len, disk)
            }
        }
    }

    /// The next record, with the place of its length; `None` where the journal ends. Behind a record the reader stands further on, and else
    /// where it stood. A fault is that of the record behind those that were read; for a length that no datagram has no memory is wanted.
    pub fn next<D: Disk>(
        &mut self,
        alloc: Global,
        disk: &mut D,
    ) -> Result<Option<(u64, Record)>, ReadFault>
        requires within { IsGateWithin self.old }
        requires len { D.tells disk.old ≡ true → (name : List ℕ) → D.file disk.old ≡ Some name → self.old.len ≡ length (D.content disk.old name) }
        ensures cause { HasCause (read_failed result) (D.faults disk.old) (D.faults disk.new) }
        ensures told { D.tells disk.new ≡ true → D.tells disk.old ≡ true }
        ensures stays { D.tells disk.new ≡ true → Stays D.Disk disk.old disk.new }
        ensures same { (self.new.tag ≡ self.old.tag) × (self.new.len ≡ self.old.len) × IsGateWithin self.new }
        ensures moves { MovesOn self.old self.new result }
        ensures read { D.tells disk.new ≡ true → (name : List ℕ) → D.file disk.old ≡ Some name → (records : List RecordValue)
            → IsReadTo (D.content disk.old name) records self.old → ReadsNext (D.content disk.old name) records self.old self.new result }
    {
        match byte_at(disk, self.gate) {
            None => Err(ReadFault::Disk),
            Some(byte) => {
                if byte == 1 {
                    self.next_record(alloc, disk)
                } else {
                    Ok(None)
                }
            }
        }
    }

    /// The journal whose end was read. What stands behind its closed gate is cut. `None` where the disk failed.
    pub fn into_journal<D: Disk>(self, disk: &mut D) -> Option<Journal>
        requires { IsGateWithin self }
        ensures cause { HasCause (is_none result) (D.faults disk.old) (D.faults disk.new) }
        ensures told { D.tells disk.new ≡ true → D.tells disk.old ≡ true }
        ensures settled { D.tells disk.new ≡ true → (name bytes : List ℕ) (records : List RecordValue) → IsDurable D.Disk disk.old name bytes
            → IsReadTo bytes records self → IsJournal self.tag bytes records → IfSome result (λ journal. IsSynced D.Disk disk.new name self.tag records journal) }
        // A stop at any moment of the call leaves the same records.
        ensures any_moment { D.tells disk.new ≡ true → (name bytes : List ℕ) (records : List RecordValue) → IsDurable D.Disk disk.old name bytes
            → IsReadTo bytes records self → IsJournal self.tag bytes records → LeavesOnly D.Disk disk.old disk.new name (λ image. IsJournal self.tag image records) }
    {
        match cut_through(disk, self.gate + 1) {
            DiskDone::Failed => None,
            DiskDone::Ok => Some(Journal::ending_at(self.gate)),
        }
    }

    // The reader of a file of this length, where its head is right.
    fn open_magic<D: Disk>(
        tag: [u8; 8],
        len: u64,
        disk: &mut D,
    ) -> Result<Option<Reader>, ReadFault>
        requires some { 0 < len }
        requires len { D.tells disk.old ≡ true → (name : List ℕ) → D.file disk.old ≡ Some name → len ≡ length (D.content disk.old name) }
        ensures cause { HasCause (read_failed result) (D.faults disk.old) (D.faults disk.new) }
        ensures told { D.tells disk.new ≡ true → D.tells disk.old ≡ true }
        ensures stays { D.tells disk.new ≡ true → Stays D.Disk disk.old disk.new }
        ensures right { OpensRight tag result }
        ensures started { D.tells disk.new ≡ true → (name : List ℕ) → D.file disk.old ≡ Some name → Opens tag (D.content disk.old name) result }
    {
        if len < 4 {
            return Err(ReadFault::Journal(0));
        }
        match four_at(disk, 0) {
            None => Err(ReadFault::Disk),
            Some(found) => {
                if found == *b"RCJ1" {
                    Reader::open_tag(tag, len, disk)
                } else {
                    Err(ReadFault::Journal(0))
                }
            }
        }
    }

    // The same, behind the right magic.
    fn open_tag<D: Disk>(tag: [u8; 8], len: u64, disk: &mut D) -> Result<Option<Reader>, ReadFault>
        requires some { 4 ≤ len }
        requires len { D.tells disk.old ≡ true → (name : List ℕ) → D.file disk.old ≡ Some name → len ≡ length (D.content disk.old name) }
        ensures cause { HasCause (read_failed result) (D.faults disk.old) (D.faults disk.new) }
        ensures told { D.tells disk.new ≡ true → D.tells disk.old ≡ true }
        ensures stays { D.tells disk.new ≡ true → Stays D.Disk disk.old disk.new }
        ensures right { OpensRight tag result }
        ensures started { D.tells disk.new ≡ true → (name : List ℕ) → D.file disk.old ≡ Some name → take 4 (D.content disk.old name) ≡ magic
            → Opens tag (D.content disk.old name) result }
    {
        if len < 12 {
            return Err(ReadFault::Journal(4));
        }
        match eight_at(disk, 4) {
            None => Err(ReadFault::Disk),
            Some(found) => {
                if found == tag {
                    Reader::open_gate(tag, len)
                } else {
                    Err(ReadFault::Journal(4))
                }
            }
        }
    }

    // The same, behind the right tag.
    fn open_gate(tag: [u8; 8], len: u64) -> Result<Option<Reader>, ReadFault>
        requires { 12 ≤ len }
        ensures no_disk { read_failed result ≡ false }
        ensures right { OpensRight tag result }
        ensures started { (bytes : List ℕ) → len ≡ length bytes → take 4 bytes ≡ magic → take 8 (drop 4 bytes) ≡ tag → Opens tag bytes result }
    {
        if len == 12 {
            return Err(ReadFault::Journal(12));
        }
        Ok(Some(Reader { tag, gate: 12, len }))
    }

    // The record behind the open gate.
    fn next_record<D: Disk>(
        &mut self,
        alloc: Global,
        disk: &mut D,
    ) -> Result<Option<(u64, Record)>, ReadFault>
        requires within { IsGateWithin self.old }
        requires len { D.tells disk.old ≡ true → (name : List ℕ) → D.file disk.old ≡ Some name → self.old.len ≡ length (D.content disk.old name) }
        ensures cause { HasCause (read_failed result) (D.faults disk.old) (D.faults disk.new) }
        ensures told { D.tells disk.new ≡ true → D.tells disk.old ≡ true }
        ensures stays { D.tells disk.new ≡ true → Stays D.Disk disk.old disk.new }
        ensures same { (self.new.tag ≡ self.old.tag) × (self.new.len ≡ self.old.len) × IsGateWithin self.new }
        ensures moves { MovesOn self.old self.new result }
        ensures read { D.tells disk.new ≡ true → (name : List ℕ) → D.file disk.old ≡ Some name → (records : List RecordValue) (behind : List ℕ)
            → HasOpenGate (D.content disk.old name) records self.old behind → ReadsNext (D.content disk.old name) records self.old self.new result }
    {
        if self.len - self.gate < 5 {
            return Err(ReadFault::Journal(self.gate + 1));
        }
        match number_at(disk, self.gate + 1) {
            None => Err(ReadFault::Disk),
            Some(n) => {
                if n > MOST_DATAGRAM {
                    return Err(ReadFault::Journal(self.gate + 1));
                }
                if self.len - self.gate - 5 <= n as u64 {
                    return Err(ReadFault::Journal(self.gate + 1));
                }
                self.take_datagram(alloc, disk, n)
            }
        }
    }

    // The record whose datagram has so many bytes.
    fn take_datagram<D: Disk>(
        &mut self,
        alloc: Global,
        disk: &mut D,
        n: u32,
    ) -> Result<Option<(u64, Record)>, ReadFault>
        requires within { self.old.gate + 5 + n < self.old.len }
        requires few { n ≤ most_datagram }
        requires len { D.tells disk.old ≡ true → (name : List ℕ) → D.file disk.old ≡ Some name → self.old.len ≡ length (D.content disk.old name) }
        ensures cause { HasCause (read_failed result) (D.faults disk.old) (D.faults disk.new) }
        ensures told { D.tells disk.new ≡ true → D.tells disk.old ≡ true }
        ensures stays { D.tells disk.new ≡ true → Stays D.Disk disk.old disk.new }
        ensures same { (self.new.tag ≡ self.old.tag) × (self.new.len ≡ self.old.len) × IsGateWithin self.new }
        ensures moves { MovesOn self.old self.new result }
        ensures read { D.tells disk.new ≡ true → (name : List ℕ) → D.file disk.old ≡ Some name → (records : List RecordValue) (behind : List ℕ)
            → HasOpenGate (D.content disk.old name) records self.old behind → n ≡ from_be_bytes w32 (take 4 behind) → to_be_bytes w32 n ≡ take 4 behind
            → ReadsNext (D.content disk.old name) records self.old self.new result }
    {
        let Ok(mut datagram) = zeros(alloc, n as usize) else {
            return Err(ReadFault::NoMemory);
        };
        match read_at(disk, self.gate + 5, &mut datagram) {
            DiskDone::Failed => Err(ReadFault::Disk),
            DiskDone::Ok => self.judge(alloc, &datagram),
        }
    }

    // The record that the datagram behind the length is.
    fn judge(&mut self, alloc: Global, datagram: &[u8]) -> Result<Option<(u64, Record)>, ReadFault>
        requires within { self.old.gate + 5 + length datagram.now < self.old.len }
        requires few { length datagram.now ≤ most_datagram }
        ensures no_disk { read_failed result ≡ false }
        ensures same { (self.new.tag ≡ self.old.tag) × (self.new.len ≡ self.old.len) × IsGateWithin self.new }
        ensures moves { MovesOn self.old self.new result }
        ensures read { (bytes : List ℕ) (records : List RecordValue) (behind : List ℕ) → HasOpenGate bytes records self.old behind → self.old.len ≡ length bytes
            → length datagram.now ≡ from_be_bytes w32 (take 4 behind) → to_be_bytes w32 (length datagram.now) ≡ take 4 behind
            → datagram.now ≡ take (length datagram.now) (drop 4 behind) → ReadsNext bytes records self.old self.new result }
    {
        match record_in(alloc, self.tag, datagram) {
            Err(_) => Err(ReadFault::NoMemory),
            Ok(None) => Err(ReadFault::Journal(self.gate + 1)),
            Ok(Some(found)) => {
                let at = self.gate + 1;
                self.gate += 5 + datagram.len() as u64;
                Ok(Some((at, found)))
            }
        }
    }
}
