//! Single reads of a file, which change nothing.
ghost use Rattle.std.specs.Prelude.{◌≡◌, ◌+◌, ◌≤◌, ℕ, List, Some, true, [], ◌∷◌, length, take, drop, is_none, IfOk, IfSome};
ghost use Rattle.std.specs.Int.{w32, to_be_bytes, from_be_bytes};
ghost use Rattle.roc_io.specs.Cause.{HasCause};
ghost use Rattle.roc_disk.specs.Answers.{disk_failed, OnDone};
ghost use Rattle.roc_disk.specs.Over.{Stays};
ghost use Rattle.roc_journal.specs.Inner.Pieces.{IsFound, IsNone, IsNumber};
ghost use Rattle.roc_journal.specs.Settled.{IsDurable};

use crate::Record;
use roc_base::NoMemory;
use roc_disk::{Disk, DiskDone, DiskLen};
use roc_wire::{WireFault, decode};
use std::alloc::Global;

/// Fills a buffer from this place on.
pub(crate) fn read_at<D: Disk>(disk: &mut D, at: u64, into: &mut [u8]) -> DiskDone
    requires { D.tells disk.old ≡ true → (name : List ℕ) → D.file disk.old ≡ Some name → at + length into.old ≤ length (D.content disk.old name) }
    ensures cause { HasCause (disk_failed result) (D.faults disk.old) (D.faults disk.new) }
    ensures told { D.tells disk.new ≡ true → D.tells disk.old ≡ true }
    ensures stays { D.tells disk.new ≡ true → Stays D.Disk disk.old disk.new }
    ensures same_length { length into.new ≡ length into.old }
    ensures read { D.tells disk.new ≡ true → (name : List ℕ) → D.file disk.old ≡ Some name
        → OnDone result (into.new ≡ take (length into.old) (drop at (D.content disk.old name))) }
{
    disk.read(at, into)
}

/// The byte at a place. `None` where the disk failed.
pub(crate) fn byte_at<D: Disk>(disk: &mut D, at: u64) -> Option<u8>
    requires { D.tells disk.old ≡ true → (name : List ℕ) → D.file disk.old ≡ Some name → at + 1 ≤ length (D.content disk.old name) }
    ensures cause { HasCause (is_none result) (D.faults disk.old) (D.faults disk.new) }
    ensures told { D.tells disk.new ≡ true → D.tells disk.old ≡ true }
    ensures stays { D.tells disk.new ≡ true → Stays D.Disk disk.old disk.new }
    ensures byte { D.tells disk.new ≡ true → (name : List ℕ) → D.file disk.old ≡ Some name → IfSome result (λ byte. byte ∷ [] ≡ take 1 (drop at (D.content disk.old name))) }
{
    let mut into = [0; 1];
    match read_at(disk, at, &mut into) {
        DiskDone::Failed => None,
        DiskDone::Ok => Some(into[0]),
    }
}

/// The four bytes from a place on. `None` where the disk failed.
pub(crate) fn four_at<D: Disk>(disk: &mut D, at: u64) -> Option<[u8; 4]>
    requires { D.tells disk.old ≡ true → (name : List ℕ) → D.file disk.old ≡ Some name → at + 4 ≤ length (D.content disk.old name) }
    ensures cause { HasCause (is_none result) (D.faults disk.old) (D.faults disk.new) }
    ensures told { D.tells disk.new ≡ true → D.tells disk.old ≡ true }
    ensures stays { D.tells disk.new ≡ true → Stays D.Disk disk.old disk.new }
    ensures bytes { D.tells disk.new ≡ true → (name : List ℕ) → D.file disk.old ≡ Some name → IfSome result (λ bytes. bytes ≡ take 4 (drop at (D.content disk.old name))) }
{
    let mut into = [0; 4];
    match read_at(disk, at, &mut into) {
        DiskDone::Failed => None,
        DiskDone::Ok => Some(into),
    }
}

/// The eight bytes from a place on. `None` where the disk failed.
pub(crate) fn eight_at<D: Disk>(disk: &mut D, at: u64) -> Option<[u8; 8]>
    requires { D.tells disk.old ≡ true → (name : List ℕ) → D.file disk.old ≡ Some name → at + 8 ≤ length (D.content disk.old name) }
    ensures cause { HasCause (is_none result) (D.faults disk.old) (D.faults disk.new) }
    ensures told { D.tells disk.new ≡ true → D.tells disk.old ≡ true }
    ensures stays { D.tells disk.new ≡ true → Stays D.Disk disk.old disk.new }
    ensures bytes { D.tells disk.new ≡ true → (name : List ℕ) → D.file disk.old ≡ Some name → IfSome result (λ bytes. bytes ≡ take 8 (drop at (D.content disk.old name))) }
{
    let mut into = [0; 8];
    match read_at(disk, at, &mut into) {
        DiskDone::Failed => None,
        DiskDone::Ok => Some(into),
    }
}

/// The length of the open file, once what a read gives of it is on the disk. `None` where the disk failed.
pub(crate) fn synced_len<D: Disk>(disk: &mut D) -> Option<u64>
    ensures cause { HasCause (is_none result) (D.faults disk.old) (D.faults disk.new) }
    ensures told { D.tells disk.new ≡ true → D.tells disk.old ≡ true }
    ensures stays { D.tells disk.new ≡ true → Stays D.Disk disk.old disk.new }
    ensures len { D.tells disk.new ≡ true → (name : List ℕ) → D.file disk.old ≡ Some name → IfSome result (λ n. n ≡ length (D.content disk.old name)) }
    ensures durable { D.tells disk.new ≡ true → (name : List ℕ) → D.file disk.old ≡ Some name → IfSome result (λ n. IsDurable D.Disk disk.new name (D.content disk.old name)) }
{
    match disk.sync() {
        DiskDone::Failed => None,
        DiskDone::Ok => match disk.len() {
            DiskLen::Failed => None,
            DiskLen::Len(n) => Some(n),
        },
    }
}

/// The number in the four bytes from a place on. `None` where the disk failed.
pub(crate) fn number_at<D: Disk>(disk: &mut D, at: u64) -> Option<u32>
    requires { D.tells disk.old ≡ true → (name : List ℕ) → D.file disk.old ≡ Some name → at + 4 ≤ length (D.content disk.old name) }
    ensures cause { HasCause (is_none result) (D.faults disk.old) (D.faults disk.new) }
    ensures told { D.tells disk.new ≡ true → D.tells disk.old ≡ true }
    ensures stays { D.tells disk.new ≡ true → Stays D.Disk disk.old disk.new }
    ensures number { D.tells disk.new ≡ true → (name : List ℕ) → D.file disk.old ≡ Some name → IsNumber (drop at (D.content disk.old name)) result }
{
    let mut into = [0; 4];
    match read_at(disk, at, &mut into) {
        DiskDone::Failed => None,
        DiskDone::Ok => Some(number_of(&into)),
    }
}

// The number of four bytes.
fn number_of(bytes: &[u8]) -> u32
    requires { length bytes.now ≡ 4 }
    ensures number { result ≡ from_be_bytes w32 bytes.now }
    ensures bytes { to_be_bytes w32 result ≡ bytes.now }
{
    u32::from_be_bytes([bytes[0], bytes[1], bytes[2], bytes[3]])
}

/// So many zeros.
pub(crate) fn zeros(alloc: Global, n: usize) -> Result<Vec<u8>, NoMemory>
    ensures { IfOk result (λ bytes. length bytes.items ≡ n) }
{
    let bytes: Vec<u8> = vec![in alloc; 0; n]?;
    Ok(bytes)
}

/// The record of a journal with this tag that a datagram is, if it is one.
pub(crate) fn record_in(
    alloc: Global,
    tag: [u8; 8],
    datagram: &[u8],
) -> Result<Option<Record>, NoMemory>
    ensures { IfOk result (λ found. IsFound tag datagram.now found) }
{
    match decode(alloc, datagram) {
        Err(fault) => no_record(fault),
        Ok((header, msg)) => {
            if header.tag == tag {
                Ok(Some(Record { header, msg }))
            } else {
                Ok(None)
            }
        }
    }
}

// Want of memory tells nothing of the bytes.
fn no_record(fault: WireFault) -> Result<Option<Record>, NoMemory>
    ensures { IsNone fault result }
{
    match fault {
        WireFault::NoMemory => Err(NoMemory),
        WireFault::Short => Ok(None),
        WireFault::Magic => Ok(None),
        WireFault::Version => Ok(None),
        WireFault::Kind => Ok(None),
        WireFault::Count => Ok(None),
        WireFault::Order => Ok(None),
        WireFault::Rest => Ok(None),
    }
}
