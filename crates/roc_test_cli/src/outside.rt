//! The outside in memory, of which one call fails, and runs of the program over it.
use crate::same::same;
use crate::texts::FILES;
use roc_book_memory::MemBook;
use roc_cli::run;
use roc_disk::{Disk, DiskDone};
use roc_disk_memory::{MemDisk, Tear};
use roc_io::{Addr, Datagram};
use roc_io_memory::{MemFiles, MemLink, MemSink, MemSpawner, StoredFile};
use std::alloc::Global;
use std::process::Abort;

/// A datagram with the address that it comes from or goes to.
pub(crate) type Packet = (Addr, &'static [u8]);

/// The call that fails of each kind, counted by themselves and from 1, or 0 where none does: reads, writes of standard output and of the line, binds
/// and receives, sends, starts and awaits of children, and opens of logs and writes to them.
pub(crate) struct Failing {
    pub files: u64,
    pub out: u64,
    pub line: u64,
    pub link: u64,
    pub sends: u64,
    pub children: u64,
    pub log: u64,
}

pub(crate) const NOTHING: Failing = Failing {
    files: 0,
    out: 0,
    line: 0,
    link: 0,
    sends: 0,
    children: 0,
    log: 0,
};

/// What a run uses, but for the disk.
#[derive(Drop)]
pub(crate) struct Outside {
    pub files: MemFiles,
    pub out: MemSink,
    pub err: MemSink,
    pub link: MemLink,
    pub children: MemSpawner,
    pub book: MemBook,
}

// The call of this number, which none has if it is 0.
fn calls_of(rt: &impl Abort, alloc: Global, number: u64) -> Vec<u64> {
    vec![in alloc; number].expect(rt, "memory")
}

fn stored_files(rt: &impl Abort, alloc: Global) -> Vec<StoredFile> {
    let mut files = Vec::new(alloc);
    for (name, bytes) in &FILES {
        let name = String::from_str(alloc, name).expect(rt, "memory");
        let bytes = bytes.to_vec(alloc).expect(rt, "memory");
        files
            .push(StoredFile::new(name, bytes))
            .expect(rt, "memory");
    }
    files
}

fn arrivals_of(rt: &impl Abort, alloc: Global, packets: &[Packet]) -> Vec<Datagram> {
    let mut arrivals = Vec::new(alloc);
    for (from, bytes) in packets {
        let datagram = Datagram::copied(alloc, *from, bytes).expect(rt, "memory");
        arrivals.push(datagram).expect(rt, "memory");
    }
    arrivals
}

/// Each child ends with 0.
pub(crate) fn outside_of(
    rt: &impl Abort,
    alloc: Global,
    packets: &[Packet],
    failing: &Failing,
) -> Outside {
    let arrivals = arrivals_of(rt, alloc, packets);
    let (calls, sends) = (
        calls_of(rt, alloc, failing.link),
        calls_of(rt, alloc, failing.sends),
    );
    let statuses = vec![in alloc; Some(0), Some(0)].expect(rt, "memory");
    Outside {
        files: MemFiles::new(
            alloc,
            stored_files(rt, alloc),
            calls_of(rt, alloc, failing.files),
        ),
        out: MemSink::new(alloc, calls_of(rt, alloc, failing.out)),
        err: MemSink::new(alloc, calls_of(rt, alloc, failing.line)),
        link: MemLink::new(alloc, arrivals, calls, sends),
        children: MemSpawner::new(alloc, statuses, calls_of(rt, alloc, failing.children)),
        book: MemBook::new(alloc, calls_of(rt, alloc, failing.log)),
    }
}

/// A disk of which this call fails, or none if it is 0.
pub(crate) fn disk_of(rt: &impl Abort, alloc: Global, failing: u64) -> MemDisk {
    MemDisk::new(alloc, calls_of(rt, alloc, failing), u64::MAX, Tear::Nothing)
}

/// Gives a disk these bytes under the journal's name, or nothing.
pub(crate) fn hold(rt: &impl Abort, disk: &mut MemDisk, journal: &[u8]) {
    if !journal.is_empty() {
        same(rt, "the open", &disk.open("j"), &DiskDone::Ok);
        same(rt, "the write", &disk.write_at(0, journal), &DiskDone::Ok);
    }
}

fn given(rt: &impl Abort, alloc: Global, words: &[&str]) -> Vec<String> {
    let mut given = Vec::new(alloc);
    for word in words {
        let word = String::from_str(alloc, word).expect(rt, "memory");
        given.push(word).expect(rt, "memory");
    }
    given
}

/// The status with which the words end.
pub(crate) fn status_of(
    rt: &impl Abort,
    alloc: Global,
    words: &[&str],
    outside: &mut Outside,
    disk: &mut MemDisk,
) -> u8 {
    let words = given(rt, alloc, words);
    run(
        alloc,
        &words,
        &mut outside.files,
        &mut outside.out,
        &mut outside.err,
        &mut outside.link,
        &mut outside.children,
        disk,
        &mut outside.book,
    )
}
