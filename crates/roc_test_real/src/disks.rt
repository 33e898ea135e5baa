//! A disk and a book over files of the folder that the tests run in, which they take away again.
use crate::same::{same, same_items};
use roc_book::{Book, Opened};
use roc_disk::{Disk, DiskDone, DiskLen};
use roc_io::Written;
use roc_io_real::{RealBook, RealDisk};
use std::fs;
use std::fs::File;
use std::process::Abort;
use std::rt::Files;
use std::test::Fail;

// What each of some calls of a disk answered.
fn all_are(rt: &impl Abort, what: &str, answers: &[DiskDone], wanted: DiskDone) {
    for answer in answers {
        same(rt, what, answer, &wanted);
    }
}

fn reads<R: Files<File = File>>(
    rt: &impl Abort,
    disk: &mut RealDisk<R>,
    at: u64,
    into: &mut [u8],
    wanted: &[u8],
) {
    same(rt, "a read", &disk.read(at, into), &DiskDone::Ok);
    same_items(rt, "what is read", into, wanted);
}

fn writes<D: Disk>(rt: &impl Abort, disk: &mut D) {
    let answers = [
        disk.open("written.test"),
        disk.cut(0),
        disk.write_at(0, b"abcdef"),
        disk.write_at(4, b"EFG"),
        disk.sync(),
    ];
    all_are(rt, "the writes", &answers, DiskDone::Ok);
}

fn is_cut<R: Files<File = File>>(rt: &impl Abort, disk: &mut RealDisk<R>, into: &mut [u8]) {
    same(rt, "a cut", &disk.cut(5), &DiskDone::Ok);
    same(rt, "the length", &disk.len(), &DiskLen::Len(5));
    let read = disk.read(3, into);
    same(rt, "a read beyond it", &read, &DiskDone::Failed);
    same(rt, "the faults", &disk.faults(), &1);
}

fn is_written_and_read<R: Files<File = File>>(rt: &impl Abort, disk: &mut RealDisk<R>) {
    let mut bytes = [0; 3];
    writes(rt, disk);
    reads(rt, disk, 3, &mut bytes, b"dEF");
    is_cut(rt, disk, &mut bytes);
}

#[test]
fn what_is_written_is_read(rt: HostRuntime) {
    is_written_and_read(&rt, &mut RealDisk::new(&rt));
    let _ = fs::remove_file(&rt, "written.test");
}

fn locks_it<D: Disk>(rt: &impl Abort, disk: &mut D) {
    let answers = [
        disk.open("locked.test"),
        disk.cut(0),
        disk.write_at(0, b"kept"),
    ];
    all_are(rt, "the first disk", &answers, DiskDone::Ok);
}

fn is_locked_out<D: Disk>(rt: &impl Abort, disk: &mut D) {
    let answers = [
        disk.open("locked.test"),
        disk.write_at(0, b"lost"),
        disk.cut(0),
    ];
    all_are(rt, "the second disk", &answers, DiskDone::Failed);
}

fn follows<R: Files<File = File>>(
    rt: &impl Abort,
    first: &mut RealDisk<R>,
    second: &mut RealDisk<R>,
) {
    let answers = [
        first.open("locked.test"),
        first.open("other.test"),
        second.open("locked.test"),
    ];
    all_are(rt, "the opens", &answers, DiskDone::Ok);
    reads(rt, second, 0, &mut [0; 4], b"kept");
    same(rt, "the faults", &second.faults(), &3);
}

fn takes_turns<R: Files<File = File>>(rt: &impl Abort, files: &R) {
    let mut first = RealDisk::new(files);
    let mut second = RealDisk::new(files);
    locks_it(rt, &mut first);
    is_locked_out(rt, &mut second);
    follows(rt, &mut first, &mut second);
}

#[test]
fn one_disk_has_a_file_at_a_time(rt: HostRuntime) {
    takes_turns(&rt, &rt);
    let _ = fs::remove_file(&rt, "locked.test");
    let _ = fs::remove_file(&rt, "other.test");
}

fn makes_no_file<D: Disk>(rt: &impl Abort, disk: &mut D) {
    let answers = [disk.open("no_such_folder/a.test"), disk.sync()];
    all_are(rt, "the calls", &answers, DiskDone::Failed);
    same(rt, "the length", &disk.len(), &DiskLen::Failed);
    same(rt, "the faults", &disk.faults(), &3);
}

#[test]
fn no_file_is_made_without_its_folder(rt: HostRuntime) {
    makes_no_file(&rt, &mut RealDisk::new(&rt));
}

fn begins_anew<B: Book>(rt: &impl Abort, book: &mut B) {
    let opened = [
        book.open("no_such_folder/book.test"),
        book.open("book.test"),
    ];
    same_items(rt, "the opens", &opened, &[Opened::Failed, Opened::Ok]);
    let written = [book.write(b"a\n"), book.write(b"b\n")];
    same_items(rt, "the writes", &written, &[Written::Ok; 2]);
    same(rt, "the faults", &book.faults(), &1);
}

#[test]
fn a_book_begins_anew(rt: HostRuntime) -> Result<(), Fail> {
    fs::write(&rt, "book.test", b"old lines\n".as_slice())?;
    begins_anew(&rt, &mut RealBook::new(&rt));
    let held = fs::read(&rt, "book.test")?;
    let _ = fs::remove_file(&rt, "book.test");
    same_items(&rt, "the book", held.as_slice(), b"a\nb\n".as_slice());
    Ok(())
}
