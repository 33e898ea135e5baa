//! Files and sinks in memory, with calls that fail.
ghost use Rattle.std.specs.Prelude.{◌≡◌, false};
ghost use Rattle.roc_io_memory.specs.Callers.{two_failed};

use crate::same::{bytes_of, same, same_items};
use roc_io::{Files, Read, Sink, Written, write_all};
use roc_io_memory::{CalmFiles, CalmSink, MemFiles, MemSink, StoredFile, TwoRead, read_two};
use std::alloc::Global;
use std::process::Abort;

// One file, of the name plan.
fn one_file(rt: &impl Abort, alloc: Global) -> Vec<StoredFile> {
    let name = String::from_str(alloc, "plan").expect(rt, "memory");
    let bytes = bytes_of(rt, alloc, b"abcd");
    vec![in alloc; StoredFile::new(name, bytes)].expect(rt, "memory")
}

// Over files that never fail, the cause of a failure is excluded.
fn read_two_calmly(files: &mut CalmFiles, first: &mut Vec<u8>, second: &mut Vec<u8>) -> TwoRead
    ensures { two_failed result ≡ false }
{
    read_two(files, ("plan", "none"), first, second, 4)
}

// These files, of which the calls of these numbers fail.
fn files_of(rt: &impl Abort, alloc: Global, failing: &[u64]) -> MemFiles {
    let failing = failing.to_vec(alloc).expect(rt, "memory");
    MemFiles::new(alloc, one_file(rt, alloc), failing)
}

fn reads_four(rt: &impl Abort, files: &mut MemFiles, into: &mut Vec<u8>) {
    same(rt, "a read", &files.read("plan", into, 4), &Read::Ok);
    same_items(rt, "what is read", into.as_slice(), b"abcd".as_slice());
    same(
        rt,
        "a long read",
        &files.read("plan", into, 3),
        &Read::TooLong,
    );
    same(rt, "what is left", &into.len(), &0);
}

#[test]
fn a_read_stops_at_the_limit(rt: HostRuntime) {
    let alloc = rt.alloc();
    let mut files = files_of(&rt, alloc, &[]);
    reads_four(&rt, &mut files, &mut bytes_of(&rt, alloc, b"before"));
}

fn fails_two_reads(rt: &impl Abort, files: &mut MemFiles, into: &mut Vec<u8>) {
    same(rt, "the first", &files.read("plan", into, 4), &Read::Failed);
    same(rt, "what it leaves", &(into.len(), files.faults()), &(0, 1));
    same(
        rt,
        "the second",
        &files.read("none", into, 4),
        &Read::Failed,
    );
    same(rt, "the faults", &files.faults(), &2);
}

#[test]
fn a_read_fails_where_told_and_at_a_missing_name(rt: HostRuntime) {
    let alloc = rt.alloc();
    let mut files = files_of(&rt, alloc, &[1]);
    fails_two_reads(&rt, &mut files, &mut bytes_of(&rt, alloc, b"before"));
}

fn reads_both(rt: &impl Abort, files: &mut CalmFiles, first: &mut Vec<u8>, second: &mut Vec<u8>) {
    let read = read_two_calmly(files, first, second);
    let found = (read, second.len(), files.faults());
    same(rt, "both", &found, &(TwoRead::Both, 0, 0));
    same_items(rt, "the first", first.as_slice(), b"abcd".as_slice());
}

#[test]
fn a_name_that_calm_files_lack_holds_no_bytes(rt: HostRuntime) {
    let alloc = rt.alloc();
    let mut second = bytes_of(&rt, alloc, b"before");
    let mut files = CalmFiles::new(one_file(&rt, alloc));
    reads_both(&rt, &mut files, &mut Vec::new(alloc), &mut second);
}

fn stops_at_the_second(
    rt: &impl Abort,
    files: &mut MemFiles,
    first: &mut Vec<u8>,
    second: &mut Vec<u8>,
) {
    let read = read_two(files, ("plan", "none"), first, second, 4);
    same(rt, "the reads", &read, &TwoRead::Second(Read::Failed));
}

#[test]
fn the_first_name_that_is_not_read_decides(rt: HostRuntime) {
    let alloc = rt.alloc();
    let mut files = files_of(&rt, alloc, &[]);
    stops_at_the_second(&rt, &mut files, &mut Vec::new(alloc), &mut Vec::new(alloc));
}

// Over a sink that never fails, the cause of a failure is excluded.
fn write_all_calmly(sink: &mut CalmSink, pieces: &[&[u8]]) -> Written
    ensures { result ≡ Written.Ok }
{
    write_all(sink, pieces)
}

fn takes_both(rt: &impl Abort, sink: &mut CalmSink) {
    let written = write_all_calmly(sink, &[b"ab".as_slice(), b"c".as_slice()]);
    let bytes = sink.bytes().expect(rt, "told");
    same(
        rt,
        "the writes",
        &(written, sink.faults()),
        &(Written::Ok, 0),
    );
    same_items(rt, "the bytes", bytes, b"abc".as_slice());
}

#[test]
fn a_calm_sink_takes_all_pieces(rt: HostRuntime) {
    takes_both(&rt, &mut CalmSink::new(rt.alloc()));
}

fn takes_one_and_a_half(rt: &impl Abort, sink: &mut MemSink) {
    let written = write_all(
        sink,
        &[b"one ".as_slice(), b"two!".as_slice(), b"six".as_slice()],
    );
    let bytes = sink.bytes().expect(rt, "told");
    same(
        rt,
        "the writes",
        &(written, sink.faults()),
        &(Written::Failed, 1),
    );
    same_items(rt, "the bytes", bytes, b"one tw".as_slice());
}

#[test]
fn a_failed_write_takes_the_first_half(rt: HostRuntime) {
    let failing = [2].to_vec(rt.alloc()).expect(&rt, "memory");
    takes_one_and_a_half(&rt, &mut MemSink::new(rt.alloc(), failing));
}
