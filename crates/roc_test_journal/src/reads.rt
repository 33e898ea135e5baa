//! What is read of files that are a journal, that are none, and that a stop left.
ghost use Rattle.std.specs.Prelude.{◌≡◌, ℕ, true, List, Some, length};
ghost use Rattle.roc_journal.specs.Reading.{IsGateWithin};

use crate::disks::{Way, failing, ways, whole};
use crate::same::same;
use crate::{EMPTY, ONE, TAG};
use roc_disk::Disk;
use roc_disk_memory::MemDisk;
use roc_journal::{ReadFault, Reader, Record};
use std::alloc::Global;
use std::process::Abort;
use std::test::Fail;

// Gives an empty disk a synced file of these bytes. These are its calls 1 to 3.
fn hold(disk: &mut MemDisk, bytes: &[u8]) {
    disk.open("journal");
    disk.write_at(0, bytes);
    disk.sync();
}

fn is_record(next: &Result<Option<(u64, Record)>, ReadFault>) -> Result<bool, ReadFault> {
    match next {
        Err(fault) => Err(*fault),
        Ok(found) => Ok(found.is_some()),
    }
}

// Whether there is one record more.
fn has_more<D: Disk>(alloc: Global, reader: &mut Reader, disk: &mut D) -> Result<bool, ReadFault>
    requires within { IsGateWithin reader.old }
    requires len { D.tells disk.old ≡ true → (name : List ℕ) → D.file disk.old ≡ Some name → reader.old.len ≡ length (D.content disk.old name) }
    ensures within { IsGateWithin reader.new }
    ensures len { D.tells disk.new ≡ true → (name : List ℕ) → D.file disk.new ≡ Some name → reader.new.len ≡ length (D.content disk.new name) }
{
    let next = reader.next(alloc, disk);
    is_record(&next)
}

// Reads up to two records: how many there are, or that the disk failed when the rest was cut.
fn counted<D: Disk>(alloc: Global, reader: Reader, disk: &mut D) -> Result<u64, ReadFault>
    requires within { IsGateWithin reader }
    requires len { D.tells disk.old ≡ true → (name : List ℕ) → D.file disk.old ≡ Some name → reader.len ≡ length (D.content disk.old name) }
{
    let mut reader = reader;
    let one = has_more(alloc, &mut reader, disk);
    if one != Ok(true) {
        return ended(one, 0, reader, disk);
    }
    let two = has_more(alloc, &mut reader, disk);
    if two != Ok(true) {
        return ended(two, 1, reader, disk);
    }
    ended(Ok(false), 2, reader, disk)
}

fn ended<D: Disk>(
    last: Result<bool, ReadFault>,
    count: u64,
    reader: Reader,
    disk: &mut D,
) -> Result<u64, ReadFault>
    requires { IsGateWithin reader }
{
    match last {
        Err(fault) => Err(fault),
        Ok(_) => match reader.into_journal(disk) {
            None => Err(ReadFault::Disk),
            Some(_) => Ok(count),
        },
    }
}

// How many records the open file has. An empty file has none.
pub(crate) fn count<D: Disk>(alloc: Global, disk: &mut D) -> Result<u64, ReadFault> {
    match Reader::open(TAG, disk) {
        Err(fault) => Err(fault),
        Ok(None) => Ok(0),
        Ok(Some(reader)) => counted(alloc, reader, disk),
    }
}

// The same of these bytes, as they are found after a stop.
pub(crate) fn count_of(alloc: Global, bytes: &[u8]) -> Result<u64, ReadFault> {
    let mut disk = whole(alloc);
    hold(&mut disk, bytes);
    count(alloc, &mut disk)
}

// What is found of each file.
fn reads_files(rt: &impl Abort, alloc: Global, files: &[(&[u8], Result<u64, ReadFault>)]) {
    for file in files {
        same(
            rt,
            "the records of a file",
            &count_of(alloc, file.0),
            &file.1,
        );
    }
}

#[test]
fn a_head_is_judged_at_its_places(rt: HostRuntime) {
    let files: [(&[u8], Result<u64, ReadFault>); 8] = [
        (b"", Ok(0)),
        (EMPTY, Ok(0)),
        (b"RCJ", Err(ReadFault::Journal(0))),
        (
            b"RCJ2\x01\x02\x03\x04\x05\x06\x07\x08\x00",
            Err(ReadFault::Journal(0)),
        ),
        (&EMPTY[..4], Err(ReadFault::Journal(4))),
        (&EMPTY[..11], Err(ReadFault::Journal(4))),
        (
            b"RCJ1\x01\x02\x03\x04\x05\x06\x07\x09\x00",
            Err(ReadFault::Journal(4)),
        ),
        (&EMPTY[..12], Err(ReadFault::Journal(12))),
    ];
    reads_files(&rt, rt.alloc(), &files);
}

// The journal of one record, with another byte at a place.
fn changed(alloc: Global, at: usize, byte: u8) -> Result<u64, ReadFault> {
    let Ok(mut bytes) = ONE.to_vec(alloc) else {
        return Err(ReadFault::NoMemory);
    };
    if at < bytes.len() {
        bytes[at] = byte;
    }
    count_of(alloc, &bytes)
}

// A place, another byte there, and what is then found.
type Change = (usize, u8, Result<u64, ReadFault>);

fn reads_changed(rt: &impl Abort, alloc: Global, changes: &[Change]) {
    for change in changes {
        same(
            rt,
            "the records of a changed file",
            &changed(alloc, change.0, change.1),
            &change.2,
        );
    }
}

#[test]
fn a_bad_record_is_told_at_its_length(rt: HostRuntime) {
    let bad = Err(ReadFault::Journal(13));
    let files: [(&[u8], Result<u64, ReadFault>); 3] = [
        (ONE, Ok(1)),
        (&ONE[..16], bad),
        (&ONE[..ONE.len() - 1], bad),
    ];
    // a gate that is closed, lengths that are one more, one less and far too long, a datagram of another tag, and an open gate behind the record
    let changes: [Change; 6] = [
        (12, 2, Ok(0)),
        (16, 18, bad),
        (16, 16, bad),
        (13, 255, bad),
        (24, 9, bad),
        (34, 1, Err(ReadFault::Journal(35))),
    ];
    reads_files(&rt, rt.alloc(), &files);
    reads_changed(&rt, rt.alloc(), &changes);
}

// Reads a journal of one record, with bytes behind it, and cuts these, by the calls 4 to 13, of which one fails or stops.
fn fails(rt: &impl Abort, alloc: Global, bytes: &[u8], disk: &mut MemDisk) {
    hold(disk, bytes);
    same(rt, "the count", &count(alloc, disk), &Err(ReadFault::Disk));
    same(
        rt,
        "the records that are left",
        &count_of(alloc, disk.image()),
        &Ok(1),
    );
}

fn fails_at(rt: &impl Abort, alloc: Global, bytes: &[u8], way: Way) -> Result<(), Fail> {
    let mut disk = failing(alloc, way)?;
    fails(rt, alloc, bytes, &mut disk);
    Ok(())
}

fn fails_each_way(rt: &impl Abort, alloc: Global, bytes: &[u8], ways: &[Way]) -> Result<(), Fail> {
    for way in ways {
        fails_at(rt, alloc, bytes, *way)?;
    }
    Ok(())
}

fn fails_each_call(rt: &impl Abort, alloc: Global, bytes: &[u8]) -> Result<(), Fail> {
    for call in 4..14 {
        fails_each_way(rt, alloc, bytes, &ways(call))?;
    }
    Ok(())
}

#[test]
fn a_stop_while_reading_leaves_the_records(rt: HostRuntime) -> Result<(), Fail> {
    let mut bytes = ONE.to_vec(rt.alloc())?;
    bytes.extend_from_slice(b"torn")?;
    fails_each_call(&rt, rt.alloc(), &bytes)
}
