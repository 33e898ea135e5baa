//! Plans of several groups, and groups that are no plan's.
use crate::same::{same, same_items};
use roc_base::{Nums, Shard};
use roc_conflict::promote;
use roc_lang_parse::parse;
use roc_lang_resolve::resolve;
use roc_merge::merge;
use roc_merge_groups::Groups;
use roc_plan::{Class, Input, Known, Plan};
use roc_plan_make::{PlanFault, make_plan};
use roc_program::Workload;
use std::alloc::Global;
use std::process::Abort;

/// m and n are contended, and l takes what m binds.
const TWO_GROUPS: &[u8] = b"shards 4;
table a { x } table b { y }
proc f(p, q) {
  now m at p { get u = a[0].x; }
  now n at p { set a[0].x = u + 1; out u; }
  later l at q + u { set b[0].y = u; out u + p; }
}
";

/// The workload of a text that is one.
pub(crate) fn workload(rt: &impl Abort, alloc: Global, text: &[u8]) -> Workload {
    let source = parse(alloc, text).expect(rt, "a text");
    resolve(alloc, source).expect(rt, "a workload")
}

/// The plan of a text that has one.
pub(crate) fn plan_of(rt: &impl Abort, alloc: Global, text: &[u8]) -> Plan {
    let workload = workload(rt, alloc, text);
    let classes = promote(alloc, &workload).expect(rt, "classes");
    let groups = merge(alloc, &workload, &classes).expect(rt, "groups");
    make_plan(alloc, workload, classes, groups).expect(rt, "a plan")
}

fn has_two_groups(rt: &impl Abort, plan: &Plan) {
    assert!(rt; plan.procedures() == 1 && plan.groups(0) == 2);
    same(rt, "the first class", &plan.class(0, 0), &Class::Immediate);
    let second = plan.class(0, 1);
    same(rt, "the second class", &second, &Class::Deferrable);
    same_items(rt, "the pieces", plan.pieces(0, 0), &[0, 1]);
    assert!(rt; plan.bound(0, 0) == 1 && plan.bound(0, 1) == 0);
    same_items(rt, "the outs", plan.outs(0, 1), &[1]);
    let input = Input { group: 0, at: 0 };
    same_items(rt, "the inputs", plan.inputs(0, 1), &[input]);
}

#[test]
fn readers_of_two_groups(rt: HostRuntime) {
    has_two_groups(&rt, &plan_of(&rt, rt.alloc(), TWO_GROUPS));
}

fn known(rt: &impl Abort, alloc: Global) -> Known {
    Known {
        args: Nums::from_slice(alloc, &[5, 7]).expect(rt, "memory"),
        inputs: Nums::from_slice(alloc, &[-9]).expect(rt, "memory"),
    }
}

fn has_place(rt: &impl Abort, plan: &Plan, known: &Known) {
    assert!(rt; plan.procedures() == 1 && plan.args(0) == 2 && plan.groups(0) == 2);
    assert!(rt; plan.inputs(0, 1).len() == 1);
    assert!(rt; known.args.as_slice().len() == 2 && known.inputs.as_slice().len() == 1);
    let place = plan.place(0, 1, known);
    same(rt, "the place", &place, &-2);
    same(rt, "its shard", &plan.shard_of(place), &Shard(2));
}

#[test]
fn a_place_follows_from_inputs(rt: HostRuntime) {
    let plan = plan_of(&rt, rt.alloc(), TWO_GROUPS);
    has_place(&rt, &plan, &known(&rt, rt.alloc()));
}

fn group_of(rt: &impl Abort, alloc: Global, piece: u16) -> Vec<u16> {
    [piece].to_vec(alloc).expect(rt, "memory")
}

// Each piece by itself.
fn groups_apart(rt: &impl Abort, alloc: Global) -> Groups {
    let mut groups = Vec::new(alloc);
    for piece in 0..3 {
        groups.push(group_of(rt, alloc, piece)).expect(rt, "memory");
    }
    Groups::from_lists(vec![in alloc; groups].expect(rt, "memory"))
}

fn fault_of(rt: &impl Abort, alloc: Global, groups: Groups) -> Option<PlanFault> {
    let workload = workload(rt, alloc, TWO_GROUPS);
    let classes = promote(alloc, &workload).expect(rt, "classes");
    make_plan(alloc, workload, classes, groups).err()
}

#[test]
fn contended_pieces_apart_are_unfit(rt: HostRuntime) {
    let found = fault_of(&rt, rt.alloc(), groups_apart(&rt, rt.alloc()));
    same(&rt, "the fault", &found, &Some(PlanFault::Unfit));
}
