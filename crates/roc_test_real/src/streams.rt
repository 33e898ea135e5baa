//! Streams that gather, over files of the folder that the tests run in, which they take away again, and over writers that hold five bytes.
use crate::same::{same, same_items};
use roc_io::{Sink, Written};
use roc_io_real::{Gathered, finish_both};
use std::alloc::Global;
use std::fs;
use std::fs::File;
use std::io::{Cursor, Write};
use std::process::Abort;
use std::rt::Files;
use std::test::Fail;

// Writes these pieces: whether each was written.
fn writes<S: Sink>(rt: &impl Abort, sink: &mut S, pieces: &[&[u8]], wanted: Written) {
    for piece in pieces {
        same(rt, "a write", &sink.write(piece), &wanted);
    }
}

fn finishes<W: Write>(rt: &impl Abort, stream: &mut Gathered<W>, wanted: Written) {
    same(rt, "the end", &stream.finish(), &wanted);
}

fn holds<R: Files + AllocGlobal + Abort>(rt: &R, name: &str, wanted: &[u8]) -> Result<(), Fail> {
    let held = fs::read(rt, name)?;
    same_items(rt, "the file", held.as_slice(), wanted);
    Ok(())
}

fn writes_in_order<R: Files + AllocGlobal + Abort, W: Write>(
    rt: &R,
    stream: &mut Gathered<W>,
) -> Result<(), Fail> {
    writes(rt, stream, &[b"ab", b"cdef"], Written::Ok);
    holds(rt, "gathered.test", b"")?;
    writes(rt, stream, &[b"ghi", b"", b"0123456789", b"z"], Written::Ok);
    holds(rt, "gathered.test", b"abcdefghi0123456789")?;
    finishes(rt, stream, Written::Ok);
    holds(rt, "gathered.test", b"abcdefghi0123456789z")
}

#[test]
fn what_is_gathered_is_written_in_order(rt: HostRuntime) -> Result<(), Fail> {
    let file = File::create(&rt, "gathered.test")?;
    let ended = writes_in_order(&rt, &mut Gathered::new(rt.alloc(), file, 8));
    let _ = fs::remove_file(&rt, "gathered.test");
    ended
}

fn writes_at_once<R: Files + AllocGlobal + Abort, W: Write>(
    rt: &R,
    stream: &mut Gathered<W>,
) -> Result<(), Fail> {
    writes(rt, stream, &[b"a\n", b"b\n"], Written::Ok);
    holds(rt, "at_once.test", b"a\nb\n")
}

#[test]
fn each_piece_goes_out_where_there_is_no_room(rt: HostRuntime) -> Result<(), Fail> {
    let file = File::create(&rt, "at_once.test")?;
    let ended = writes_at_once(&rt, &mut Gathered::new(rt.alloc(), file, 0));
    let _ = fs::remove_file(&rt, "at_once.test");
    ended
}

fn writes_nothing_more<W: Write>(rt: &impl Abort, stream: &mut Gathered<W>) {
    writes(rt, stream, &[b"ab"], Written::Ok);
    writes(rt, stream, &[b"cdefgh", b""], Written::Failed);
    finishes(rt, stream, Written::Failed);
    same(rt, "the faults", &stream.faults(), &3);
}

#[test]
fn a_stream_that_failed_writes_nothing_more(rt: HostRuntime) {
    let mut held = Cursor::new([0; 5]);
    writes_nothing_more(&rt, &mut Gathered::new(rt.alloc(), &mut held, 4));
    same_items(&rt, "the writer", held.get_ref(), b"abcde");
}

// A piece, what its write to a writer of five bytes answers, what the end answers, and what is told by then.
type Case = (&'static [u8], Written, Written, &'static [u8]);

fn ends<V: Write, W: Write>(
    rt: &impl Abort,
    out: &mut Gathered<V>,
    err: &mut Gathered<W>,
    case: &Case,
) {
    writes(rt, out, &[case.0], case.1);
    err.write(b"told\n");
    let last = finish_both(out, err, b"sink\n");
    same(rt, "the end", &last, &case.2);
}

fn ends_so(rt: &impl Abort, alloc: Global, told: &mut Vec<u8>, case: &Case) {
    let mut out = Gathered::new(alloc, Cursor::new([0; 5]), 8);
    let mut err = Gathered::new(alloc, told, 8);
    ends(rt, &mut out, &mut err, case);
}

fn is_told(rt: &impl Abort, alloc: Global, case: &Case) {
    let mut told = Vec::new(alloc);
    ends_so(rt, alloc, &mut told, case);
    same_items(rt, "what is told", told.as_slice(), case.3);
}

const ENDS: [Case; 3] = [
    (b"abcde", Written::Ok, Written::Ok, b"told\n"),
    (b"abcdef", Written::Ok, Written::Failed, b"sink\n"),
    (b"abcdefgh", Written::Failed, Written::Failed, b"told\n"),
];

fn are_told(rt: &impl Abort, alloc: Global, cases: &[Case]) {
    for case in cases {
        is_told(rt, alloc, case);
    }
}

#[test]
fn what_fails_at_the_end_is_told_alone_and_once(rt: HostRuntime) {
    are_told(&rt, rt.alloc(), &ENDS);
}
