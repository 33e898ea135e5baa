//! Lists, cells and known lists, in calls that no command makes.
use crate::same::{are_ids, same, same_items, txn};
use roc_base::{Edge, Edges, Key, NoMemory, Node, Nums, Shard};
use roc_depgraph::{Closure, Deps, Learnt};
use roc_rows::{Cell, Rows};
use roc_sequence::Sequence;
use std::alloc::{AllocError, Global};
use std::process::Abort;

fn filled(alloc: Global) -> Result<Sequence<u64>, AllocError> {
    let mut all = Sequence::from_slice(alloc, &[3u64, 1])?;
    all.push(4)?;
    all.extend_from_slice(&[1, 5])?;
    all.set(1, 9);
    Ok(all)
}

#[test]
fn a_sequence_holds_what_was_put_in(rt: HostRuntime) {
    let all = filled(rt.alloc()).expect(&rt, "memory");
    same_items(&rt, "the items", all.as_slice(), &[3, 9, 4, 1, 5]);
}

fn grow_beside_a_copy(rt: &impl Abort, nums: &mut Nums) {
    let copy = nums.clone().expect(rt, "memory");
    nums.extend_from_slice(&[0]).expect(rt, "memory");
    assert!(rt; copy != *nums);
    same_items(rt, "the numbers", nums.as_slice(), &[i64::MIN, 5, 0]);
}

#[test]
fn a_copy_of_numbers_stays_as_it_was(rt: HostRuntime) {
    let mut nums = Nums::from_slice(rt.alloc(), &[i64::MIN, 5]).expect(&rt, "memory");
    grow_beside_a_copy(&rt, &mut nums);
}

#[test]
fn ids_of_rows_are_ordered_as_lists(rt: HostRuntime) {
    let one = Key::from_slice(&[1]);
    let longer = Key::from_slice(&[1, -5]);
    let other = Key::from_slice(&[0, 7, 7, 7]);
    assert!(rt; other < one && one < longer && Key::from_slice(&[1, 0]) != one);
}

#[test]
fn servers_come_before_coordinators(rt: HostRuntime) {
    assert!(rt; Node::Server(Shard(63)) < Node::Coord(15));
    let told = format!(in rt.alloc(); "{NoMemory}").expect(&rt, "memory");
    assert!(rt; told.as_str() == "out of memory");
}

fn cell(place: i64, id: &[i64; 2]) -> Cell {
    Cell {
        table: 0,
        place,
        id: Key::from_slice(id),
        column: 1,
    }
}

// A cell's place, its id, and what it holds.
type Put = (i64, [i64; 2], i64);

const PUTS: [Put; 3] = [(2, [3, 4], 7), (-2, [9, 9], -1), (2, [3, -4], 8)];

const KEPT: [Put; 3] = [(-2, [9, 9], -1), (2, [3, -4], 8), (2, [3, 4], 7)];

fn put_all(rt: &impl Abort, rows: &mut Rows, puts: &[Put]) {
    for put in puts {
        let done = rows.set(cell(put.0, &put.1), put.2);
        done.expect(rt, "memory");
    }
}

fn are_listed(rt: &impl Abort, listed: &[(Cell, i64)], wanted: &[Put]) {
    same(rt, "how many", &listed.len(), &wanted.len());
    for (found, put) in listed.iter().zip(wanted) {
        same(rt, "a cell", &found.0, &cell(put.0, &put.1));
        same(rt, "its number", &found.1, &put.2);
    }
}

fn set_beside_a_copy(rt: &impl Abort, rows: &mut Rows) {
    rows.reserve(3).expect(rt, "memory");
    put_all(rt, rows, &PUTS);
    let copy = rows.try_clone().expect(rt, "memory");
    put_all(rt, rows, &[(2, [3, 4], 0)]);
    are_listed(rt, &copy.nonzero().expect(rt, "memory"), &KEPT);
}

#[test]
fn a_copy_of_cells_stays_as_it_was(rt: HostRuntime) {
    set_beside_a_copy(&rt, &mut Rows::new(rt.alloc()));
}

// A list that names the transactions of some sequence numbers.
fn list_of(rt: &impl Abort, alloc: Global, from: &[u32]) -> Edges {
    let mut edges = Edges::new(alloc);
    for seq in from {
        let done = edges.unite(&[Edge::new(txn(*seq), false, true, Shard(0))]);
        done.expect(rt, "memory");
    }
    edges
}

// A diamond 1 <- 2, 3 <- 4, a chain 5 <- 6 whose end is unknown, and a cycle 7 <-> 8.
const TAUGHT: [(u32, &[u32]); 7] = [
    (4, &[2, 3]),
    (3, &[1]),
    (6, &[5, 4]),
    (1, &[]),
    (2, &[1]),
    (7, &[8]),
    (8, &[7]),
];

fn learns(rt: &impl Abort, alloc: Global, deps: &mut Deps, of: u32, from: &[u32]) -> Learnt {
    let list = list_of(rt, alloc, from);
    deps.learn(txn(of), &list).expect(rt, "memory")
}

fn taught(rt: &impl Abort, alloc: Global) -> Deps {
    let mut deps = Deps::new(alloc);
    for (of, from) in TAUGHT {
        learns(rt, alloc, &mut deps, of, from);
    }
    deps
}

// A transaction, whether its closure is whole, and the ids that it lists.
type Case = (u32, bool, &'static [u32]);

const CLOSURES: [Case; 5] = [
    (1, true, &[1]),
    (4, true, &[1, 2, 3, 4]),
    (6, false, &[5]),
    (9, false, &[9]),
    (7, true, &[7, 8]),
];

fn is_closure(rt: &impl Abort, deps: &Deps, case: &Case) {
    match &deps.closure(txn(case.0)).expect(rt, "memory") {
        Closure::Whole(ids) => {
            assert!(rt; case.1);
            are_ids(rt, "a closure", ids, case.2);
        }
        Closure::Missing(ids) => {
            assert!(rt; !case.1);
            are_ids(rt, "a closure", ids, case.2);
        }
    }
}

fn are_closures(rt: &impl Abort, deps: &Deps, cases: &[Case]) {
    for case in cases {
        is_closure(rt, deps, case);
    }
}

#[test]
fn closures_follow_known_lists(rt: HostRuntime) {
    are_closures(&rt, &taught(&rt, rt.alloc()), &CLOSURES);
}

fn stays(rt: &impl Abort, alloc: Global, deps: &mut Deps) {
    let again = learns(rt, alloc, deps, 4, &[2, 3]);
    same(rt, "the same list", &again, &Learnt::Repeat);
    let other = learns(rt, alloc, deps, 4, &[2]);
    same(rt, "another list", &other, &Learnt::Differs);
}

#[test]
fn a_known_list_stays(rt: HostRuntime) {
    stays(&rt, rt.alloc(), &mut taught(&rt, rt.alloc()));
}
