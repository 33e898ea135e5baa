//! Least orders and least cycles of pairs.
use crate::same::same;
use roc_base::TxnId;
use roc_precedence::{Pair, least_cycle, least_order};
use std::alloc::Global;
use std::process::Abort;

fn txn(seq: u32) -> TxnId {
    TxnId { coord: 0, seq }
}

// The ids of these numbers.
fn ids_of(rt: &impl Abort, alloc: Global, seqs: &[u32]) -> Vec<TxnId> {
    let mut ids = Vec::new(alloc);
    for seq in seqs {
        ids.push(txn(*seq)).expect(rt, "memory");
    }
    ids
}

// The pairs of these numbers, the earlier one first.
fn pairs_of(rt: &impl Abort, alloc: Global, seqs: &[(u32, u32)]) -> Vec<Pair> {
    let mut pairs = Vec::new(alloc);
    for (earlier, later) in seqs {
        let pair = Pair {
            later: txn(*later),
            earlier: txn(*earlier),
        };
        pairs.push(pair).expect(rt, "memory");
    }
    pairs
}

fn are_ids(rt: &impl Abort, found: &Option<Vec<TxnId>>, wanted: &[u32]) {
    match found {
        None => panic!(rt; "none is found"),
        Some(ids) => {
            same(rt, "how many", &ids.len(), &wanted.len());
            for (id, seq) in ids.iter().zip(wanted) {
                same(rt, "an id", id, &txn(*seq));
            }
        }
    }
}

// Ids, pairs of them, and the order or the cycle that is wanted.
type Case = (&'static [u32], &'static [(u32, u32)], &'static [u32]);

// By id where nothing is said; against the ids where it is; the least that is free first; pairs out of the set and repeated ids count
// for nothing.
const CASES: [Case; 4] = [
    (&[3, 1, 2], &[], &[1, 2, 3]),
    (&[1, 2, 3], &[(3, 1), (2, 1), (3, 2)], &[3, 2, 1]),
    (&[1, 2, 3, 4], &[(4, 1), (3, 2), (4, 1)], &[3, 2, 4, 1]),
    (&[2, 1, 2], &[(2, 5), (5, 1), (2, 1)], &[2, 1]),
];

fn order(rt: &impl Abort, alloc: Global, case: &Case) -> Option<Vec<TxnId>> {
    let ids = ids_of(rt, alloc, case.0);
    let pairs = pairs_of(rt, alloc, case.1);
    least_order(alloc, &ids, &pairs).expect(rt, "memory")
}

fn are_ordered(rt: &impl Abort, alloc: Global, cases: &[Case]) {
    for case in cases {
        are_ids(rt, &order(rt, alloc, case), case.2);
    }
}

#[test]
fn orders_keep_pairs(rt: HostRuntime) {
    are_ordered(&rt, rt.alloc(), &CASES);
}

// Cycles of three, and of one.
const CYCLES: [Case; 2] = [
    (&[1, 2, 3, 4], &[(1, 2), (2, 3), (3, 1)], &[]),
    (&[1, 2], &[(2, 2)], &[]),
];

fn have_no_order(rt: &impl Abort, alloc: Global, cases: &[Case]) {
    for case in cases {
        assert!(rt; order(rt, alloc, case).is_none());
    }
}

#[test]
fn cycles_have_no_order(rt: HostRuntime) {
    have_no_order(&rt, rt.alloc(), &CYCLES);
}

fn cycle(rt: &impl Abort, alloc: Global, case: &Case) -> Option<Vec<TxnId>> {
    let ids = ids_of(rt, alloc, case.0);
    let pairs = pairs_of(rt, alloc, case.1);
    least_cycle(alloc, &ids, &pairs).expect(rt, "memory")
}

// One, two and three ids; of two of one length the one with the lower first, or else the lower second; a shorter one behind a longer;
// from its least id, whichever pair is given first; not through an id that is not asked for.
const LEAST_CYCLES: [Case; 8] = [
    (&[1, 2], &[(1, 2), (2, 2)], &[2]),
    (&[1, 2, 3], &[(2, 1), (1, 2), (2, 3)], &[1, 2]),
    (&[1, 2, 3], &[(3, 1), (1, 2), (2, 3)], &[1, 2, 3]),
    (&[4, 3, 2, 1], &[(2, 4), (4, 2), (1, 3), (3, 1)], &[1, 3]),
    (&[1, 2, 3], &[(1, 3), (3, 1), (1, 2), (2, 1)], &[1, 2]),
    (
        &[1, 2, 3, 4, 5],
        &[(1, 2), (2, 3), (3, 1), (5, 4), (4, 5)],
        &[4, 5],
    ),
    (&[1, 2, 3, 4], &[(4, 3), (3, 2), (2, 4), (1, 4)], &[2, 4, 3]),
    (
        &[1, 2, 3],
        &[(1, 9), (9, 1), (3, 2), (2, 1), (1, 3)],
        &[1, 3, 2],
    ),
];

fn are_cycles(rt: &impl Abort, alloc: Global, cases: &[Case]) {
    for case in cases {
        are_ids(rt, &cycle(rt, alloc, case), case.2);
    }
}

#[test]
fn least_cycles_are_told(rt: HostRuntime) {
    are_cycles(&rt, rt.alloc(), &LEAST_CYCLES);
}

fn have_no_cycle(rt: &impl Abort, alloc: Global, cases: &[Case]) {
    for case in cases {
        assert!(rt; cycle(rt, alloc, case).is_none());
    }
}

#[test]
fn orders_have_no_cycle(rt: HostRuntime) {
    have_no_cycle(&rt, rt.alloc(), &CASES);
}
