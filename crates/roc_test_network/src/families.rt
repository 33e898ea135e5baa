//! A run with servers as children, and a check of what it is to start, stop, await and write.
use crate::datagrams::{Packet, TAG};
use crate::outside::{Failing, Outside, Seen, calls_of, have_seen, outside_of};
use crate::same::{same, same_items};
use crate::workloads::{Texts, cluster_of, plan_of};
use roc_io::ChildWait;
use roc_io_memory::{ChildStart, MemSpawner};
use roc_node_local::{LocalEnd, run_local};
use roc_sched::parse_requests;
use std::alloc::Global;
use std::process::Abort;

/// The turns of a run and of each server.
const TURNS: u32 = 3;

/// The words of a child's start.
pub(crate) type Words = [&'static str; 7];

/// What the children end with, and which start or wait fails, counted together from 1.
pub(crate) struct Children {
    pub statuses: &'static [Option<u8>],
    pub failing: Option<u64>,
}

/// The words of each start, and the number and the status of each child that is awaited, in order.
pub(crate) struct Family {
    pub started: &'static [Words],
    pub awaited: &'static [(u64, Option<u8>)],
}

/// The workload, the requests, what comes to coordinator 0 and what fails, and what is to come of it.
pub(crate) struct Case {
    pub texts: &'static Texts,
    pub requests: &'static [u8],
    pub arrivals: &'static [Packet],
    pub failing: Failing,
    pub children: Children,
    pub end: LocalEnd,
    pub family: Family,
    pub seen: Seen,
}

fn spawner_of(rt: &impl Abort, alloc: Global, children: &Children) -> MemSpawner {
    let statuses = Vec::from_slice(alloc, children.statuses).expect(rt, "memory");
    let failing = calls_of(rt, alloc, children.failing.unwrap_or(0));
    MemSpawner::new(alloc, statuses, failing)
}

fn is_started(rt: &impl Abort, name: &str, found: &ChildStart, wanted: &Words) {
    let words = found.words();
    same(rt, name, &words.len(), &wanted.len());
    for (word, wanted) in words.iter().zip(wanted) {
        same_items(rt, name, word.as_bytes(), wanted.as_bytes());
    }
}

fn are_started(rt: &impl Abort, name: &str, found: &[ChildStart], wanted: &[Words]) {
    same(rt, name, &found.len(), &wanted.len());
    for (start, words) in found.iter().zip(wanted) {
        is_started(rt, name, start, words);
    }
}

fn are_awaited(rt: &impl Abort, name: &str, found: &[ChildWait], wanted: &[(u64, Option<u8>)]) {
    same(rt, name, &found.len(), &wanted.len());
    for (wait, wanted) in found.iter().zip(wanted) {
        same(rt, name, &wait.child.number(), &wanted.0);
        same(rt, name, &wait.status, &wanted.1);
    }
}

fn run(
    rt: &impl Abort,
    alloc: Global,
    case: &Case,
    outside: &mut Outside,
    spawner: &mut MemSpawner,
) -> LocalEnd {
    let plan = plan_of(rt, alloc, case.texts);
    let cluster = cluster_of(rt, alloc, case.texts, &plan);
    assert!(rt; cluster.addrs().len() == usize::from(plan.workload().shards()));
    let requests = parse_requests(alloc, case.requests).expect(rt, "requests");
    run_local(
        alloc,
        &plan,
        TAG,
        "w.rcw",
        "c.toml",
        &cluster,
        &requests,
        &mut outside.link,
        spawner,
        TURNS,
        &mut outside.out,
    )
}

fn run_over(
    rt: &impl Abort,
    alloc: Global,
    case: &Case,
    outside: &mut Outside,
    spawner: &mut MemSpawner,
) {
    let name = case.seen.name;
    let end = run(rt, alloc, case, outside, spawner);
    same(rt, name, &end, &case.end);
    have_seen(rt, outside, &case.seen, b"");
    are_started(
        rt,
        name,
        spawner.started().expect(rt, "told"),
        case.family.started,
    );
    are_awaited(
        rt,
        name,
        spawner.awaited().expect(rt, "told"),
        case.family.awaited,
    );
}

/// Runs a case, and looks at what comes of it.
pub(crate) fn runs(rt: &impl Abort, alloc: Global, case: &Case) {
    let mut spawner = spawner_of(rt, alloc, &case.children);
    let mut outside = outside_of(rt, alloc, case.arrivals, &case.failing);
    run_over(rt, alloc, case, &mut outside, &mut spawner);
}
