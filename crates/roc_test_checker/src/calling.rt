//! How a program of one's own asks the checker. `crates/roc_check/CALLING.md` shows most of it.
use crate::same::same;
use roc_check::{CheckFault, check};
use roc_plan::{Class, Plan};
use std::alloc::Global;
use std::process::Abort;

// How many groups of the plan's procedures run when they start: the others wait for a commit.
fn immediate_groups(plan: &Plan) -> u64 {
    let mut found: u64 = 0;
    for proc in 0..plan.procedures() {
        for group in 0..plan.groups(proc) {
            if plan.class(proc, group) == Class::Immediate {
                found = found.saturating_add(1);
            }
        }
    }
    found
}

fn told_of_plan(plan: &Plan) -> &'static str {
    if immediate_groups(plan) == 0 {
        "every group may wait"
    } else {
        "some group runs when it starts"
    }
}

fn told_of_fault(fault: CheckFault) -> &'static str {
    match fault {
        CheckFault::Lang(_) => "the text is no workload",
        CheckFault::Scope(_) => "the text names what is not there",
        CheckFault::Apart { .. } => "two pieces may not be cut apart",
        CheckFault::Blocked { .. } => "a piece is between two that may not be cut apart",
        CheckFault::NoMemory => "memory ran out",
    }
}

// What to tell whoever wrote the text.
fn told(alloc: Global, text: &[u8]) -> &'static str {
    match check(alloc, text) {
        Ok(plan) => told_of_plan(&plan),
        Err(fault) => told_of_fault(fault),
    }
}

const TOLD: [(&[u8], &str); 4] = [
    (
        b"shards 1;\ntable t { x }\nproc f() { later a at 0 { set t[0].x = 1; } }\n",
        "every group may wait",
    ),
    (
        b"shards 1;\ntable t { x }\nproc f() { now a at 0 { set t[0].x = 1; } }\n",
        "some group runs when it starts",
    ),
    (b"shards 1;\ntable t { x\n", "the text is no workload"),
    (
        b"shards 2;\ntable t { x }\nproc f() { now a at 0 { set t[0].x = 1; } now b at 1 { set t[0].x = 2; } }\n",
        "two pieces may not be cut apart",
    ),
];

fn are_told(rt: &impl Abort, alloc: Global, cases: &[(&[u8], &str)]) {
    for case in cases {
        same(rt, "what is told", &told(alloc, case.0), &case.1);
    }
}

#[test]
fn a_text_is_judged(rt: HostRuntime) {
    are_told(&rt, rt.alloc(), &TOLD);
}
