//! Each count of a datagram at its limit and one past it, each range at its end, and every front of a datagram.
use crate::datagrams::{FETCH, START, TWICE, written_again};
use roc_wire::{WireFault, decode};
use std::alloc::Global;
use std::process::Abort;

// What stands in front of the number of its place in each member of a list, and what stands behind it.
type Members = (&'static [u8], &'static [u8]);

const NUMS: Members = (&[0xff; 6], &[]);

const EDGES: Members = (&[0; 4], &[3, 63]);

const FACTS: Members = (&[0; 4], &[0; 2]);

// A list of a datagram: the kind, the body in front of the list and behind it, and the most members.
type List = (u8, &'static [u8], Members, u16, &'static [u8]);

const LISTS: [List; 15] = [
    (1, &[0; 10], NUMS, 8, &[0; 2]),
    (1, &[0; 12], NUMS, 1024, &[]),
    (2, &[0; 9], NUMS, 1024, &[0; 6]),
    (2, &[0; 11], NUMS, 1024, &[0; 4]),
    (2, &[0; 13], EDGES, 4096, &[0; 2]),
    (2, &[0; 15], FACTS, 16, &[]),
    (3, &[0; 6], EDGES, 4096, &[0; 2]),
    (3, &[0; 8], FACTS, 16, &[]),
    (3, b"\0\0\0\0\0\0\0\0\0\x01\0\0\0\0\0\x01", EDGES, 1000, &[]),
    (
        3,
        b"\0\0\0\0\0\0\0\0\0\x02\0\0\0\0\0\x01\0\x01\0\0\0\0\0\x01\x01\0\0\0\0\0\0\x02",
        EDGES,
        999,
        &[],
    ),
    (4, &[0; 7], NUMS, 1024, &[]),
    (6, &[0; 6], EDGES, 4096, &[]),
    (10, &[0; 14], NUMS, 8, &[]),
    (11, &[0; 13], NUMS, 64, &[0; 2]),
    (11, &[0; 15], NUMS, 1024, &[]),
];

fn put(rt: &impl Abort, bytes: &mut Vec<u8>, part: &[u8]) {
    bytes.extend_from_slice(part).expect(rt, "memory");
}

fn put_members(rt: &impl Abort, bytes: &mut Vec<u8>, members: Members, count: u16) {
    put(rt, bytes, &count.to_be_bytes());
    for place in 0..count {
        put(rt, bytes, members.0);
        put(rt, bytes, &place.to_be_bytes());
        put(rt, bytes, members.1);
    }
}

// The front of a datagram of a kind, a sender and a body that begins so.
fn put_front(rt: &impl Abort, bytes: &mut Vec<u8>, kind: u8, sender: &[u8; 3], body: &[u8]) {
    put(rt, bytes, b"RCO1\x02");
    put(rt, bytes, &[kind]);
    put(rt, bytes, b"\x01\x02\x03\x04\x05\x06\x07\x08");
    put(rt, bytes, sender);
    put(rt, bytes, body);
}

// A datagram with so many members in the list.
fn with_members(rt: &impl Abort, alloc: Global, list: &List, count: u16) -> Vec<u8> {
    let mut bytes = Vec::new(alloc);
    put_front(rt, &mut bytes, list.0, &[1, 0, 15], list.1);
    put_members(rt, &mut bytes, list.2, count);
    put(rt, &mut bytes, list.4);
    bytes
}

fn is_judged(rt: &impl Abort, alloc: Global, bytes: &[u8], wanted: Option<WireFault>) {
    assert!(rt; written_again(alloc, bytes).err() == wanted);
}

fn is_limited(rt: &impl Abort, alloc: Global, list: &List, count: u16, wanted: Option<WireFault>) {
    let bytes = with_members(rt, alloc, list, count);
    is_judged(rt, alloc, &bytes, wanted);
}

fn are_limited(rt: &impl Abort, alloc: Global, lists: &[List]) {
    for list in lists {
        let past = list.3.saturating_add(1);
        is_limited(rt, alloc, list, list.3, None);
        is_limited(rt, alloc, list, past, Some(WireFault::Count));
    }
}

#[test]
fn lists_are_taken_up_to_their_limits(rt: HostRuntime) {
    are_limited(&rt, rt.alloc(), &LISTS);
}

// The kind, the sender's role and number, the body, and the first fault.
type Field = (u8, [u8; 3], &'static [u8], Option<WireFault>);

const FIELDS: [Field; 31] = [
    (0, [1, 0, 0], b"", Some(WireFault::Kind)),
    (14, [1, 0, 0], b"", Some(WireFault::Kind)),
    (7, [0, 0, 63], b"", None),
    (7, [0, 0, 64], b"", Some(WireFault::Count)),
    (7, [1, 0, 15], b"", None),
    (7, [1, 0, 16], b"", Some(WireFault::Count)),
    (7, [2, 0, 0], b"", Some(WireFault::Count)),
    (7, [1, 0, 0], b"\0", Some(WireFault::Rest)),
    (
        1,
        [1, 0, 0],
        b"\0\0\0\0\0\0\0\0\0\0\0\x01\0\0\0\0\0\0\0\x05\0\0\0",
        Some(WireFault::Rest),
    ),
    (5, [0, 0, 1], b"\0\x0f\xff\xff\xff\xff\x3f", None),
    (5, [0, 0, 1], b"\0\0\0\0\0\0\x40", Some(WireFault::Count)),
    (5, [0, 0, 1], b"\0\x0f\0", Some(WireFault::Short)),
    (5, [0, 0, 1], b"\0\x10\0", Some(WireFault::Count)),
    (6, [0, 0, 1], b"\0\0\0\0\0\0\0\x01\0\0\0\0\0\0\x01\0", None),
    (
        6,
        [0, 0, 1],
        b"\0\0\0\0\0\0\0\x01\0\0\0\0\0\0\x03\x3f",
        None,
    ),
    (
        6,
        [0, 0, 1],
        b"\0\0\0\0\0\0\0\x01\0\0\0\0\0\0\0\0",
        Some(WireFault::Count),
    ),
    (
        6,
        [0, 0, 1],
        b"\0\0\0\0\0\0\0\x01\0\0\0\0\0\0\x04\0",
        Some(WireFault::Count),
    ),
    (
        6,
        [0, 0, 1],
        b"\0\0\0\0\0\0\0\x01\0\0\0\0\0\0\x01\x40",
        Some(WireFault::Count),
    ),
    (
        6,
        [0, 0, 1],
        b"\0\0\0\0\0\0\0\x02\0\0\0\0\0\x01\x01\0\0\0\0\0\0\0",
        Some(WireFault::Order),
    ),
    (
        3,
        [1, 0, 0],
        b"\0\0\0\0\0\0\0\0\0\x02\0\0\0\0\0\x01\0\0\0\0\0\0\0\x01",
        Some(WireFault::Order),
    ),
    (8, [1, 0, 0], b"\0\x0f\0\0\0\0", None),
    (8, [1, 0, 0], b"\0\x10\0", Some(WireFault::Count)),
    (8, [1, 0, 0], b"\0\0\0\0\0", Some(WireFault::Short)),
    (9, [0, 0, 1], b"\0\0\0\0\0\x01\0\0\0\x02", None),
    (
        9,
        [0, 0, 1],
        b"\0\0\0\0\0\x01\0\0\0\x01",
        Some(WireFault::Count),
    ),
    (
        9,
        [0, 0, 1],
        b"\0\0\xff\xff\xff\xff\xff\xff\xff\xff",
        Some(WireFault::Count),
    ),
    (
        11,
        [0, 0, 1],
        b"\0\0\0\0\0\0\0\0\0\x01\0\0\x40",
        Some(WireFault::Count),
    ),
    (12, [1, 0, 0], b"\0\x0f\xff\xff\xff\xff", None),
    (12, [1, 0, 0], b"\0\0\0\0\0\0\0", Some(WireFault::Rest)),
    (13, [0, 0, 1], b"\0\0\0\0\0\x01\x3f", None),
    (13, [0, 0, 1], b"\0\0\0\0\0\x01\x40", Some(WireFault::Count)),
];

fn is_field(rt: &impl Abort, alloc: Global, field: &Field) {
    let mut bytes = Vec::new(alloc);
    put_front(rt, &mut bytes, field.0, &field.1, field.2);
    is_judged(rt, alloc, &bytes, field.3);
}

fn are_fields(rt: &impl Abort, alloc: Global, fields: &[Field]) {
    for field in fields {
        is_field(rt, alloc, field);
    }
}

#[test]
fn fields_are_judged_from_left_to_right(rt: HostRuntime) {
    are_fields(&rt, rt.alloc(), &FIELDS);
}

fn have_fronts(rt: &impl Abort, alloc: Global, bytes: &[u8], whole: usize) {
    for length in 0..whole.min(bytes.len()) {
        is_judged(rt, alloc, &bytes[..length], Some(WireFault::Short));
    }
}

#[test]
fn a_front_is_short(rt: HostRuntime) {
    have_fronts(&rt, rt.alloc(), START, 39);
    have_fronts(&rt, rt.alloc(), FETCH, 24);
    have_fronts(&rt, rt.alloc(), TWICE, 39);
    is_judged(&rt, rt.alloc(), &TWICE[..39], Some(WireFault::Order));
}
