//! Links, sinks, books and disks of which one call may fail, and what they are to have seen.
use crate::datagrams::{Packet, are_sent, arrivals_of};
use crate::same::{same, same_items};
use roc_book_memory::MemBook;
use roc_disk::{Disk, DiskDone};
use roc_disk_memory::{MemDisk, Tear};
use roc_io::Addr;
use roc_io_memory::{MemLink, MemSink};
use std::alloc::Global;
use std::process::Abort;

/// Which call fails, by its number from 1; none does where it is 0. Binds and receives are counted together, and so are the open of a log and writes
/// to it.
pub(crate) struct Failing {
    pub call: u64,
    pub send: u64,
    pub write: u64,
    pub log: u64,
}

pub(crate) const NOTHING: Failing = Failing {
    call: 0,
    send: 0,
    write: 0,
    log: 0,
};

/// What a node is to bind, send and write. The name is that of the case.
pub(crate) struct Seen {
    pub name: &'static str,
    pub bound: &'static [Addr],
    pub sent: &'static [Packet],
    pub lines: &'static [u8],
}

/// The call of this number, which none has if it is 0.
pub(crate) fn calls_of(rt: &impl Abort, alloc: Global, number: u64) -> Vec<u64> {
    vec![in alloc; number].expect(rt, "memory")
}

/// A disk that holds nothing, and of which the call of this number fails, or none if it is 0.
pub(crate) fn disk_of(rt: &impl Abort, alloc: Global, failing: u64) -> MemDisk {
    MemDisk::new(alloc, calls_of(rt, alloc, failing), u64::MAX, Tear::Nothing)
}

/// Gives a disk these bytes under the journal's name.
pub(crate) fn hold(rt: &impl Abort, disk: &mut MemDisk, journal: &[u8]) {
    same(rt, "the open", &disk.open("journal"), &DiskDone::Ok);
    same(rt, "the write", &disk.write_at(0, journal), &DiskDone::Ok);
    same(rt, "the sync", &disk.sync(), &DiskDone::Ok);
}

/// The link, the sink and the book of a node.
#[derive(Drop)]
pub(crate) struct Outside {
    pub link: MemLink,
    pub out: MemSink,
    pub book: MemBook,
}

pub(crate) fn outside_of(
    rt: &impl Abort,
    alloc: Global,
    arrivals: &[Packet],
    failing: &Failing,
) -> Outside {
    Outside {
        link: MemLink::new(
            alloc,
            arrivals_of(rt, alloc, arrivals),
            calls_of(rt, alloc, failing.call),
            calls_of(rt, alloc, failing.send),
        ),
        out: MemSink::new(alloc, calls_of(rt, alloc, failing.write)),
        book: MemBook::new(alloc, calls_of(rt, alloc, failing.log)),
    }
}

/// Asserts that a link and a sink have seen exactly this, and what a log has taken.
pub(crate) fn have_seen(rt: &impl Abort, outside: &Outside, seen: &Seen, log: &[u8]) {
    let name = seen.name;
    let bound = outside.link.bound().expect(rt, "told");
    same_items(rt, name, bound, seen.bound);
    are_sent(rt, name, outside.link.sent().expect(rt, "told"), seen.sent);
    let lines = outside.out.bytes().expect(rt, "told");
    same_items(rt, name, lines, seen.lines);
    same_items(rt, name, outside.book.bytes().expect(rt, "told"), log);
}
