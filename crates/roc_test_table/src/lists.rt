//! Lists that a table learns, decides, settles, forgets and takes back.
use roc_base::{Edge, Edges, NoMemory, Shard, TxnId};
use roc_depgraph::KnownList;
use roc_sequence::Sequence;
use roc_server_table::ListTable;
use std::alloc::Global;
use std::fmt::Debug;
use std::process::Abort;

fn txn(seq: u32) -> TxnId {
    TxnId { coord: 0, seq }
}

fn same<T: PartialEq + Debug>(rt: &impl Abort, what: &str, found: &T, wanted: &T) {
    assert_eq!(rt; *found, *wanted, "{}", what);
}

// A list that names the transactions of some sequence numbers, each at shard 3.
fn list_of(rt: &impl Abort, alloc: Global, from: &[u32]) -> Edges {
    let mut edges = Edges::new(alloc);
    for seq in from {
        let done = edges.unite(&[Edge::new(txn(*seq), true, false, Shard(3))]);
        done.expect(rt, "memory");
    }
    edges
}

// Learns the list of a transaction of which none is known.
fn learn(rt: &impl Abort, alloc: Global, table: &mut ListTable, of: u32, from: &[u32]) {
    let edges = list_of(rt, alloc, from);
    let of = txn(of);
    assert!(rt; table.list(of).is_none());
    let done = table.learn(&[KnownList { of, edges }], &[]);
    done.expect(rt, "memory");
}

// Takes back the list of a transaction that is not decided.
fn unlearn(rt: &impl Abort, alloc: Global, table: &mut ListTable, of: u32) {
    let (of, edges) = (txn(of), Edges::new(alloc));
    assert!(rt; !table.is_decided(of));
    table.unlearn(&[KnownList { of, edges }]);
}

// Decides what is decided newly.
fn decide(table: &mut ListTable) -> Result<Vec<TxnId>, NoMemory> {
    let ids = table.newly()?;
    table.decide(&ids);
    Ok(ids)
}

fn forget(rt: &impl Abort, table: &mut ListTable, of: u32) {
    let of = txn(of);
    assert!(rt; table.is_decided(of));
    table.forget(&[of]);
}

// The transactions are those of these sequence numbers, in this order.
fn are(rt: &impl Abort, ids: &[TxnId], seqs: &[u32]) {
    same(rt, "how many", &ids.len(), &seqs.len());
    for (id, seq) in ids.iter().zip(seqs) {
        same(rt, "a transaction", id, &txn(*seq));
    }
}

fn are_components(rt: &impl Abort, components: &[Sequence<TxnId>], wanted: &[&[u32]]) {
    same(rt, "how many", &components.len(), &wanted.len());
    for (component, seqs) in components.iter().zip(wanted) {
        are(rt, component.as_slice(), seqs);
    }
}

fn decides(rt: &impl Abort, table: &mut ListTable, seqs: &[u32]) {
    are(rt, &decide(table).expect(rt, "memory"), seqs);
}

// A list, and the components that are decided once it is known.
type Case = (u32, &'static [u32], &'static [&'static [u32]]);

// A list that comes before one that it names, one that names what stays unknown, and a ring.
const LEARNT: [Case; 5] = [
    (2, &[1], &[]),
    (1, &[], &[&[1], &[2]]),
    (3, &[1, 9], &[]),
    (6, &[2, 5], &[]),
    (5, &[6], &[&[5, 6]]),
];

fn decides_with(rt: &impl Abort, alloc: Global, table: &mut ListTable, case: &Case) {
    learn(rt, alloc, table, case.0, case.1);
    let ids = decide(table).expect(rt, "memory");
    let components = table.components(&ids).expect(rt, "memory");
    are_components(rt, &components, case.2);
    assert!(rt; table.is_decided(txn(case.0)) != case.2.is_empty());
}

fn decides_in_turn(rt: &impl Abort, alloc: Global, table: &mut ListTable, cases: &[Case]) {
    for case in cases {
        decides_with(rt, alloc, table, case);
    }
}

#[test]
fn a_list_decides_what_leads_to_it(rt: HostRuntime) {
    let alloc = rt.alloc();
    decides_in_turn(&rt, alloc, &mut ListTable::new(alloc), &LEARNT);
}

// What would be decided without a transaction is the one of this number.
fn waits_for(rt: &impl Abort, table: &mut ListTable, without: TxnId) {
    let ids = table.newly_without(without).expect(rt, "memory");
    let components = table.components_without(without, &ids);
    are_components(rt, &components.expect(rt, "memory"), &[&[1]]);
}

fn has_newly(rt: &impl Abort, table: &mut ListTable, seqs: &[u32]) {
    are(rt, &table.newly().expect(rt, "memory"), seqs);
}

fn is_settled(rt: &impl Abort, alloc: Global, table: &mut ListTable) {
    learn(rt, alloc, table, 1, &[9]);
    waits_for(rt, table, txn(9));
    has_newly(rt, table, &[]);
    table.settle(txn(9));
    has_newly(rt, table, &[1]);
}

#[test]
fn what_is_settled_is_waited_for_no_longer(rt: HostRuntime) {
    is_settled(&rt, rt.alloc(), &mut ListTable::new(rt.alloc()));
}

fn is_learnt_again(rt: &impl Abort, alloc: Global, table: &mut ListTable) {
    learn(rt, alloc, table, 1, &[]);
    decides(rt, table, &[1]);
    forget(rt, table, 1);
    learn(rt, alloc, table, 1, &[2]);
    decides(rt, table, &[]);
}

#[test]
fn a_forgotten_list_can_be_learnt_again(rt: HostRuntime) {
    is_learnt_again(&rt, rt.alloc(), &mut ListTable::new(rt.alloc()));
}

fn is_named_at(rt: &impl Abort, table: &ListTable, shard: u16) {
    same(rt, "where", &table.least_naming(txn(2), 64), &shard);
}

fn leads_to_one(rt: &impl Abort, table: &ListTable, list: &Edges) {
    are(
        rt,
        &table.led_to(list.as_slice()).expect(rt, "memory"),
        &[1],
    );
}

fn is_taken_back(rt: &impl Abort, alloc: Global, table: &mut ListTable) {
    learn(rt, alloc, table, 1, &[2]);
    is_named_at(rt, table, 3);
    unlearn(rt, alloc, table, 1);
    is_named_at(rt, table, 64);
    learn(rt, alloc, table, 1, &[]);
    leads_to_one(rt, table, &list_of(rt, alloc, &[1]));
}

#[test]
fn a_list_that_was_taken_back_is_unknown(rt: HostRuntime) {
    is_taken_back(&rt, rt.alloc(), &mut ListTable::new(rt.alloc()));
}
