//! Orders: of components, and of a list of decisions.
use crate::same::{are_ids, txn};
use roc_audit::Order;
use roc_base::{Edge, Edges, Shard, TxnId};
use roc_component::order;
use roc_depgraph::Deps;
use std::alloc::Global;
use std::process::Abort;

// The list of a transaction, from triples of a transaction, one that precedes it, and whether it does by immediate groups.
fn list_of(rt: &impl Abort, alloc: Global, of: u32, triples: &[(u32, u32, bool)]) -> Edges {
    let mut edges = Edges::new(alloc);
    for (to, from, immediate) in triples {
        if *to == of {
            let edge = Edge::new(txn(*from), *immediate, !*immediate, Shard(0));
            edges.unite(&[edge]).expect(rt, "memory");
        }
    }
    edges
}

fn known(rt: &impl Abort, alloc: Global, triples: &[(u32, u32, bool)]) -> Deps {
    let mut deps = Deps::new(alloc);
    for of in 0..8u32 {
        let list = list_of(rt, alloc, of, triples);
        deps.learn(txn(of), &list).expect(rt, "memory");
    }
    deps
}

fn ids_of(rt: &impl Abort, alloc: Global, seqs: &[u32]) -> Vec<TxnId> {
    let mut ids = Vec::new(alloc);
    for seq in seqs {
        ids.push(txn(*seq)).expect(rt, "memory");
    }
    ids
}

// What is tried, its triples, the transactions of these numbers, and how they are ordered.
type Case = (
    &'static str,
    &'static [(u32, u32, bool)],
    &'static [u32],
    &'static [u32],
);

const CASES: [Case; 8] = [
    ("no edges: by id", &[], &[3, 1, 2], &[1, 2, 3]),
    (
        "crossing edges: 4 before 1, 3 before 2",
        &[(1, 4, false), (2, 3, false)],
        &[1, 2, 3, 4],
        &[3, 2, 4, 1],
    ),
    (
        "a cycle of three by deferrable edges: by id",
        &[(1, 3, false), (3, 2, false), (2, 1, false)],
        &[3, 2, 1],
        &[1, 2, 3],
    ),
    (
        "a cycle of two with an immediate edge against the ids",
        &[(1, 2, true), (2, 1, false)],
        &[1, 2],
        &[2, 1],
    ),
    (
        "a cycle by immediate edges: the least goes first",
        &[(1, 2, true), (2, 1, true)],
        &[2, 1],
        &[1, 2],
    ),
    (
        "a component is ended before a lesser id is taken",
        &[(2, 3, false), (3, 2, false), (1, 2, false), (1, 0, false)],
        &[3, 2, 1, 0],
        &[0, 2, 3, 1],
    ),
    (
        "what leads out of the set is dropped",
        &[(1, 2, false), (2, 5, false), (1, 7, false)],
        &[1, 2],
        &[2, 1],
    ),
    (
        "an id that stands twice is taken once",
        &[(1, 2, false)],
        &[1, 2, 1],
        &[2, 1],
    ),
];

fn is_ordered(rt: &impl Abort, alloc: Global, case: &Case) {
    let deps = known(rt, alloc, case.1);
    let ids = ids_of(rt, alloc, case.2);
    let found = order(alloc, &deps, &ids).expect(rt, "memory");
    are_ids(rt, case.0, &found, case.3);
}

fn are_ordered(rt: &impl Abort, alloc: Global, cases: &[Case]) {
    for case in cases {
        is_ordered(rt, alloc, case);
    }
}

#[test]
fn components_are_ordered_as_the_rule_says(rt: HostRuntime) {
    are_ordered(&rt, rt.alloc(), &CASES);
}

fn is_noted_once(rt: &impl Abort, noted: &mut Order) {
    noted.note(&[txn(1), txn(0)]).expect(rt, "memory");
    let more = noted.note(&[txn(0), txn(2), txn(2)]);
    more.expect(rt, "memory");
    are_ids(rt, "the notes", noted.as_slice(), &[1, 0, 2]);
}

#[test]
fn each_transaction_is_noted_once(rt: HostRuntime) {
    is_noted_once(&rt, &mut Order::new(rt.alloc()));
}
