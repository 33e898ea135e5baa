//! Shortest cycles through two pieces, as lists of vertices.
use crate::plans::workload;
use crate::same::same;
use roc_conflict::promote;
use roc_program::PieceId;
use roc_scgraph::{Instance, Vertex};
use roc_witness::shortest;
use std::alloc::Global;
use std::process::Abort;

/// Two transfers that cross.
const TRANSFERS: &[u8] = b"shards 2;
table acct { bal }
proc pay(f,t,n) {
  now take at f { get b = acct[0].bal; set acct[0].bal = b - n; out b; }
  now give at t { get d = acct[0].bal; set acct[0].bal = d + n; out d; }
}
";

/// Two readers of one procedure, each with a writer of its own in another, and a piece that conflicts with none.
const READERS: &[u8] = b"shards 2;
table A { x }
table B { y }
table C { z }
proc P(a,b) {
  now p1 at a { get u = A[0].x; out u; }
  now p2 at b { get v = B[0].y; out v; }
  now p3 at b { get w = C[0].z; out w; }
}
proc Q(a) { now q at a { set A[0].x = 1; } }
proc R(b) { now r at b { set B[0].y = 1; } }
";

/// As in [`TRANSFERS`], with pieces that may wait.
const DEFERRED: &[u8] = b"shards 2;
table acct { bal }
proc pay(f,t,n) {
  later take at f { get b = acct[0].bal; set acct[0].bal = b - n; out b; }
  later give at t { get d = acct[0].bal; set acct[0].bal = d + n; out d; }
}
";

// The shortest cycle through two pieces of the first procedure, or nothing.
fn cycle(rt: &impl Abort, alloc: Global, text: &[u8], p: u16, q: u16) -> Option<Vec<Vertex>> {
    let workload = workload(rt, alloc, text);
    let classes = promote(alloc, &workload).expect(rt, "classes");
    let p = PieceId { proc: 0, piece: p };
    let q = PieceId { proc: 0, piece: q };
    shortest(alloc, &workload, &classes, p, q).expect(rt, "memory")
}

// A vertex by procedure, piece and instance.
fn shown(vertex: &Vertex) -> (u16, u16, u8) {
    match vertex.instance {
        Instance::First => (vertex.proc, vertex.piece, 1),
        Instance::Second => (vertex.proc, vertex.piece, 2),
    }
}

fn are_vertices(rt: &impl Abort, cycle: &[Vertex], wanted: &[(u16, u16, u8)]) {
    same(rt, "the length", &cycle.len(), &wanted.len());
    for (vertex, wanted) in cycle.iter().zip(wanted) {
        same(rt, "a vertex", &shown(vertex), wanted);
    }
}

// The shortest cycle through the first two pieces.
fn is_cycle(rt: &impl Abort, alloc: Global, text: &[u8], wanted: &[(u16, u16, u8)]) {
    match &cycle(rt, alloc, text, 0, 1) {
        None => same(rt, "no cycle", &wanted.len(), &0),
        Some(cycle) => are_vertices(rt, cycle, wanted),
    }
}

#[test]
fn transfers_cross(rt: HostRuntime) {
    let wanted = [(0, 0, 1), (0, 0, 2), (0, 1, 1)];
    is_cycle(&rt, rt.alloc(), TRANSFERS, &wanted);
}

#[test]
fn deferred_transfers_have_no_cycle(rt: HostRuntime) {
    is_cycle(&rt, rt.alloc(), DEFERRED, &[]);
}

#[test]
fn readers_meet_through_their_writers(rt: HostRuntime) {
    let wanted = [
        (0, 0, 1),
        (1, 0, 1),
        (0, 0, 2),
        (0, 1, 2),
        (2, 0, 1),
        (0, 1, 1),
    ];
    is_cycle(&rt, rt.alloc(), READERS, &wanted);
}

#[test]
fn a_piece_without_conflicts_lies_on_a_cycle(rt: HostRuntime) {
    assert!(rt; cycle(&rt, rt.alloc(), READERS, 0, 2).is_some());
}
