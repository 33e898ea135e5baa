//! What an append leaves, whichever of its calls of the disk fails or stops.
use crate::disks::{Way, failing, ways, whole};
use crate::reads::count_of;
use crate::same::{same, same_items};
use crate::{EMPTY, ONE, TAG};
use roc_base::Node;
use roc_disk::Disk;
use roc_disk_memory::MemDisk;
use roc_journal::{AppendFault, Journal, MOST_BYTES, record_of};
use roc_msg::Msg;
use roc_wire::Header;
use std::alloc::Global;
use std::process::Abort;
use std::test::Fail;

// A record: a stop of coordinator 0.
fn stop_of(alloc: Global) -> Option<Vec<u8>> {
    let from = Node::Coord(0);
    record_of(alloc, &Header { tag: TAG, from }, &Msg::Stop).ok()
}

// Makes a journal, by the calls 1 to 5 of the disk, and appends a record, by the calls 6 to 9.
fn appends<D: Disk>(alloc: Global, disk: &mut D) -> Option<Result<(), AppendFault>> {
    let bytes = stop_of(alloc)?;
    disk.open("journal");
    let mut journal = Journal::create(TAG, disk)?;
    Some(journal.append(&bytes, disk))
}

// What is left where one of the calls of the append fails or stops is read as the journal with the record or without.
fn fails(rt: &impl Abort, alloc: Global, disk: &mut MemDisk) {
    same(
        rt,
        "an append",
        &appends(alloc, disk),
        &Some(Err(AppendFault::Disk)),
    );
    let found = count_of(alloc, disk.image());
    assert!(rt; found == Ok(0) || found == Ok(1));
}

fn fails_at(rt: &impl Abort, alloc: Global, way: Way) -> Result<(), Fail> {
    let mut disk = failing(alloc, way)?;
    fails(rt, alloc, &mut disk);
    Ok(())
}

fn fails_each_way(rt: &impl Abort, alloc: Global, ways: &[Way]) -> Result<(), Fail> {
    for way in ways {
        fails_at(rt, alloc, *way)?;
    }
    Ok(())
}

#[test]
fn a_stop_leaves_the_journal_with_the_record_or_without(rt: HostRuntime) -> Result<(), Fail> {
    for call in 6..10 {
        fails_each_way(&rt, rt.alloc(), &ways(call))?;
    }
    Ok(())
}

fn keeps_it(rt: &impl Abort, alloc: Global, disk: &mut MemDisk) {
    same(rt, "an append", &appends(alloc, disk), &Some(Ok(())));
    same_items(rt, "the disk", disk.image(), ONE);
    same(rt, "the records", &count_of(alloc, disk.image()), &Ok(1));
}

#[test]
fn an_append_is_kept(rt: HostRuntime) {
    keeps_it(&rt, rt.alloc(), &mut whole(rt.alloc()));
}

// Makes a journal: whether as much as it has already fits into it.
fn has_room(disk: &mut MemDisk) -> Option<bool> {
    disk.open("journal");
    match Journal::create(TAG, disk) {
        None => None,
        Some(journal) => Some(journal.fits(EMPTY)),
    }
}

fn is_made(rt: &impl Abort, disk: &mut MemDisk) {
    same(rt, "room", &has_room(disk), &Some(true));
    assert!(rt; MOST_BYTES == 1_073_741_824);
    same_items(rt, "the disk", disk.image(), EMPTY);
}

#[test]
fn a_new_journal_has_room(rt: HostRuntime) {
    is_made(&rt, &mut whole(rt.alloc()));
}

// Makes a journal and appends a record twice.
fn appends_twice(alloc: Global, disk: &mut MemDisk) -> Option<Result<(), AppendFault>> {
    let bytes = stop_of(alloc)?;
    disk.open("journal");
    let mut journal = Journal::create(TAG, disk)?;
    journal.append(&bytes, disk).ok()?;
    Some(journal.append(&bytes, disk))
}

fn reads_two(rt: &impl Abort, alloc: Global, disk: &mut MemDisk) {
    same(
        rt,
        "two appends",
        &appends_twice(alloc, disk),
        &Some(Ok(())),
    );
    same(rt, "the records", &count_of(alloc, disk.image()), &Ok(2));
}

#[test]
fn two_records_are_read_back(rt: HostRuntime) {
    reads_two(&rt, rt.alloc(), &mut whole(rt.alloc()));
}
