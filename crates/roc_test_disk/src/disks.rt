//! What is written, what is cut, and what a stop leaves.
ghost use Rattle.std.specs.Prelude.{◌≡◌, false};
ghost use Rattle.roc_disk.specs.Answers.{disk_failed};

use crate::same::{answers, holds, same};
use roc_disk::{Disk, DiskDone, DiskLen};
use roc_disk_memory::{CalmDisk, MemDisk, Tear};
use std::alloc::Global;
use std::process::Abort;

// Makes a file of four bytes, and writes over two of them and two more, without a sync behind that.
fn writes_over<D: Disk>(rt: &impl Abort, disk: &mut D, synced: DiskDone, written: DiskDone) {
    disk.open("file");
    disk.write_at(0, b"abcd");
    answers(rt, "the first sync", disk.sync(), synced);
    answers(rt, "the second write", disk.write_at(2, b"XYZW"), written);
}

fn syncs<D: Disk>(rt: &impl Abort, disk: &mut D, wanted: DiskDone, faults: u64) {
    answers(rt, "the last sync", disk.sync(), wanted);
    same(rt, "the faults", &disk.faults(), &faults);
}

// Over a disk that never fails, the cause of a failure is excluded.
fn syncs_calmly(disk: &mut CalmDisk) -> DiskDone
    ensures { disk_failed result ≡ false }
{
    disk.sync()
}

fn holds_what_was_written(rt: &impl Abort, disk: &mut CalmDisk) {
    writes_over(rt, disk, DiskDone::Ok, DiskDone::Ok);
    answers(rt, "the last sync", syncs_calmly(disk), DiskDone::Ok);
    assert!(rt; disk.is_told());
    holds(rt, "the file", disk.bytes(), b"abXYZW");
}

#[test]
fn a_calm_disk_holds_what_was_written(rt: HostRuntime) {
    holds_what_was_written(&rt, &mut CalmDisk::new(rt.alloc()));
}

fn has_length<D: Disk>(rt: &impl Abort, disk: &mut D, wanted: u64) {
    same(rt, "the length", &disk.len(), &DiskLen::Len(wanted));
}

fn is_cut(rt: &impl Abort, disk: &mut CalmDisk) {
    writes_over(rt, disk, DiskDone::Ok, DiskDone::Ok);
    answers(rt, "a cut", disk.cut(3), DiskDone::Ok);
    has_length(rt, disk, 3);
    holds(rt, "the file", disk.bytes(), b"abX");
    disk.open("other");
    has_length(rt, disk, 0);
    same(rt, "the faults", &disk.faults(), &0);
}

#[test]
fn a_file_is_cut_and_another_is_empty(rt: HostRuntime) {
    is_cut(&rt, &mut CalmDisk::new(rt.alloc()));
}

// What a stop in the second write leaves.
fn is_torn(rt: &impl Abort, disk: &mut MemDisk, image: &[u8]) {
    writes_over(rt, disk, DiskDone::Ok, DiskDone::Failed);
    holds(rt, "the image", disk.image(), image);
    syncs(rt, disk, DiskDone::Failed, 2);
    holds(rt, "the last image", disk.image(), image);
}

// The second write is the fourth call.
fn are_torn(rt: &impl Abort, alloc: Global, cases: &[(Tear, &[u8])]) {
    for case in cases {
        let mut disk = MemDisk::new(alloc, Vec::new(alloc), 4, case.0);
        is_torn(rt, &mut disk, case.1);
    }
}

const TEARS: [(Tear, &[u8]); 4] = [
    (Tear::Nothing, b"abcd"),
    (Tear::Half, b"abXY"),
    (Tear::Whole, b"abXYZW"),
    (Tear::Other(7), b"ab\x07\x07\x07\x07"),
];

#[test]
fn a_stop_leaves_what_it_was_told(rt: HostRuntime) {
    are_torn(&rt, rt.alloc(), &TEARS);
}

fn loses_what_was_not_synced(rt: &impl Abort, disk: &mut MemDisk) {
    writes_over(rt, disk, DiskDone::Ok, DiskDone::Ok);
    holds(rt, "what is seen", disk.seen(), b"abXYZW");
    answers(rt, "the last sync", disk.sync(), DiskDone::Failed);
    holds(rt, "the image", disk.image(), b"abcd");
}

#[test]
fn a_sync_that_stops_loses_what_was_not_synced(rt: HostRuntime) {
    let alloc = rt.alloc();
    loses_what_was_not_synced(
        &rt,
        &mut MemDisk::new(alloc, Vec::new(alloc), 5, Tear::Nothing),
    );
}

fn fails_once(rt: &impl Abort, disk: &mut MemDisk) {
    writes_over(rt, disk, DiskDone::Failed, DiskDone::Ok);
    holds(rt, "the image", disk.image(), b"abXY");
    syncs(rt, disk, DiskDone::Ok, 1);
    holds(rt, "the last image", disk.image(), b"abXYZW");
}

#[test]
fn a_call_fails_where_told_and_the_next_goes_on(rt: HostRuntime) {
    let failing = [3].to_vec(rt.alloc()).expect(&rt, "memory");
    fails_once(
        &rt,
        &mut MemDisk::new(rt.alloc(), failing, u64::MAX, Tear::Half),
    );
}
