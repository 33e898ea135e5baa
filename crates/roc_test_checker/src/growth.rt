//! Whether a workload is a grown one of another, and what is wrong first.
use crate::plans::plan_of;
use crate::same::same;
use roc_epoch::{GrowthFault, extends};
use roc_plan::Plan;
use std::alloc::Global;
use std::process::Abort;

/// The workload that others grow from, or do not.
const OLD: &[u8] = b"shards 2; table t { x, y } init t[0,1].x = 5;
proc add(n) { now p at 0 { get u = t[1].x; set t[1].x = u + n; } }";

struct Case {
    new: &'static [u8],
    fault: Option<GrowthFault>,
}

/// The same text, a table and a procedure more, and other lines and parentheses.
const GROWN: [Case; 3] = [
    Case {
        new: OLD,
        fault: None,
    },
    Case {
        new: b"shards 2; table t { x, y } table k { z } init t[0,1].x = 5;
proc add(n) { now p at 0 { get u = t[1].x; set t[1].x = u + n; } }
proc put(n) { later q at 0 { set k[0].z = n; } }",
        fault: None,
    },
    Case {
        new: b"shards 2; table t { x, y }
init t[0,1].x = 5;
proc add(n) {
  now p at 0 { get u = t[1].x; set t[1].x = (u + (n)); }
}",
        fault: None,
    },
];

/// A shard more and other tables, a column less and another value of a cell, a cell more, an argument renamed, what a `get` binds renamed,
/// and a procedure put before the old one.
const FAULTY: [Case; 6] = [
    Case {
        new: b"shards 3; table k { z }",
        fault: Some(GrowthFault::Shards),
    },
    Case {
        new: b"shards 2; table t { x } init t[0,1].x = 6;
proc add(n) { now p at 0 { get u = t[1].x; set t[1].x = u + n; } }",
        fault: Some(GrowthFault::Table),
    },
    Case {
        new: b"shards 2; table t { x, y } init t[0,1].x = 5; init t[0,2].x = 5;
proc add(n) { now p at 0 { get u = t[1].x; set t[1].x = u + n; } }",
        fault: Some(GrowthFault::Init),
    },
    Case {
        new: b"shards 2; table t { x, y } init t[0,1].x = 5;
proc add(m) { now p at 0 { get u = t[1].x; set t[1].x = u + m; } }",
        fault: Some(GrowthFault::Proc),
    },
    Case {
        new: b"shards 2; table t { x, y } init t[0,1].x = 5;
proc add(n) { now p at 0 { get v = t[1].x; set t[1].x = v + n; } }",
        fault: Some(GrowthFault::Proc),
    },
    Case {
        new: b"shards 2; table t { x, y } table k { z } init t[0,1].x = 5;
proc put(n) { later q at 0 { set k[0].z = n; } }
proc add(n) { now p at 0 { get u = t[1].x; set t[1].x = u + n; } }",
        fault: Some(GrowthFault::Proc),
    },
];

fn fault_of(old: &Plan, new: &Plan) -> Option<GrowthFault> {
    match extends(old, new) {
        Ok(_) => None,
        Err(fault) => Some(fault),
    }
}

fn are_told(rt: &impl Abort, alloc: Global, old: &Plan, cases: &[Case]) {
    for case in cases {
        let found = fault_of(old, &plan_of(rt, alloc, case.new));
        same(rt, "the fault", &found, &case.fault);
    }
}

#[test]
fn grown_workloads_are_taken(rt: HostRuntime) {
    are_told(&rt, rt.alloc(), &plan_of(&rt, rt.alloc(), OLD), &GROWN);
}

#[test]
fn faults_of_growth_are_told(rt: HostRuntime) {
    are_told(&rt, rt.alloc(), &plan_of(&rt, rt.alloc(), OLD), &FAULTY);
}
