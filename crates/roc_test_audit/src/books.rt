//! Books in memory, through the trait.
use crate::same::{same, same_items};
use roc_book::{Book, Opened};
use roc_book_memory::{CalmBook, MemBook};
use roc_io::Written;
use std::process::Abort;

// Opens a name and writes two pieces, of which the second has this answer.
fn keeps<B: Book>(rt: &impl Abort, book: &mut B, last: Written) {
    let opened = book.open("c.log");
    same(rt, "an open", &opened, &Opened::Ok);
    let first = book.write(b"node c0\n");
    same(rt, "a write", &first, &Written::Ok);
    same(rt, "the last write", &book.write(b"tick\n"), &last);
}

fn keeps_all(rt: &impl Abort, book: &mut CalmBook) {
    keeps(rt, book, Written::Ok);
    assert!(rt; book.names().expect(rt, "told").len() == 1 && book.faults() == 0);
    let bytes = book.bytes().expect(rt, "told");
    same_items(rt, "the bytes", bytes, b"node c0\ntick\n");
}

#[test]
fn a_calm_book_keeps_all(rt: HostRuntime) {
    keeps_all(&rt, &mut CalmBook::new(rt.alloc()));
}

fn keeps_a_front(rt: &impl Abort, book: &mut MemBook) {
    keeps(rt, book, Written::Failed);
    assert!(rt; book.names().expect(rt, "told").len() == 1 && book.faults() == 1);
    let bytes = book.bytes().expect(rt, "told");
    same_items(rt, "the bytes", bytes, b"node c0\nti");
}

#[test]
fn a_failed_write_takes_the_first_half(rt: HostRuntime) {
    let failing = [3].to_vec(rt.alloc()).expect(&rt, "memory");
    keeps_a_front(&rt, &mut MemBook::new(rt.alloc(), failing));
}
