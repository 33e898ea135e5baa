//! Merged groups, and why pieces cannot be merged.
use crate::plans::workload;
use crate::same::{same, same_items};
use roc_conflict::promote;
use roc_merge::{Refusal, merge};
use roc_merge_groups::Groups;
use roc_program::PieceId;
use std::alloc::Global;
use std::process::Abort;

/// Two contended pieces at one place, and one at another that no path joins with them.
const BESIDE: &[u8] = b"shards 2;
table t { c } table k { d }
proc f(a,b) {
  now p at a { get u = t[0].c; set t[0].c = u + 1; }
  now x at b { get v = k[0].d; }
  now q at a { set t[1].c = v; }
}
";

/// The same, with a path from the first through the other to the last.
const BETWEEN: &[u8] = b"shards 2;
table t { c } table k { d }
proc f(a,b) {
  now p at a { get u = t[0].c; set t[0].c = u + 1; }
  now x at b { get v = k[u].d; }
  now q at a { set t[1].c = v; }
}
";

/// Two contended pieces at two places.
const CROSSING: &[u8] = b"shards 2;
table t { c }
proc f(a,b) {
  now p at a { get u = t[0].c; set t[0].c = u + 1; }
  now q at b { get v = t[0].c; set t[0].c = v + 1; }
}
";

fn merged(rt: &impl Abort, alloc: Global, text: &[u8]) -> Result<Groups, Refusal> {
    let workload = workload(rt, alloc, text);
    let classes = promote(alloc, &workload).expect(rt, "classes");
    merge(alloc, &workload, &classes)
}

fn piece(piece: u16) -> PieceId {
    PieceId { proc: 0, piece }
}

fn are_two(rt: &impl Abort, groups: &Groups) {
    assert!(rt; groups.group_count(0) == 2);
    same_items(rt, "the first", groups.pieces(0, 0), &[0, 2]);
    same_items(rt, "the second", groups.pieces(0, 1), &[1]);
}

#[test]
fn contended_pieces_are_one_group(rt: HostRuntime) {
    let groups = merged(&rt, rt.alloc(), BESIDE).expect(&rt, "refused");
    are_two(&rt, &groups);
}

fn is_refused(rt: &impl Abort, alloc: Global, text: &[u8], wanted: Refusal) {
    let found = merged(rt, alloc, text).err();
    same(rt, "a refusal", &found, &Some(wanted));
}

#[test]
fn refusals_name_their_pieces(rt: HostRuntime) {
    let apart = Refusal::Apart {
        p: piece(0),
        q: piece(1),
    };
    let blocked = Refusal::Blocked {
        p: piece(0),
        q: piece(2),
        x: piece(1),
    };
    is_refused(&rt, rt.alloc(), CROSSING, apart);
    is_refused(&rt, rt.alloc(), BETWEEN, blocked);
}
