//! Coordinators 0: what comes to one, and what is to come of it.
use crate::datagrams::{COMMITOK, Packet, STARTOK, STRANGE_START, TAG};
use crate::outside::{Failing, Outside, Seen, have_seen, outside_of};
use crate::same::same;
use crate::workloads::{COUNTER, FIRST_SHARD, cluster_of, plan_of};
use roc_node_submit::{SubmitEnd, submit_all};
use roc_sched::parse_requests;
use std::alloc::Global;
use std::process::Abort;

/// What comes to a coordinator for one addition.
pub(crate) const ANSWERS: [Packet; 3] = [
    (FIRST_SHARD, STRANGE_START),
    (FIRST_SHARD, STARTOK),
    (FIRST_SHARD, COMMITOK),
];

/// The requests for the counter, what comes, which call fails and the name of the log, if one is kept. Then what is to come of it, with what the
/// log holds.
pub(crate) struct Case {
    pub requests: &'static [u8],
    pub arrivals: &'static [Packet],
    pub failing: Failing,
    pub name: Option<&'static str>,
    pub turns: u32,
    pub end: SubmitEnd,
    pub seen: Seen,
    pub log: &'static [u8],
}

fn submit(rt: &impl Abort, alloc: Global, case: &Case, outside: &mut Outside) -> SubmitEnd {
    let plan = plan_of(rt, alloc, &COUNTER);
    let cluster = cluster_of(rt, alloc, &COUNTER, &plan);
    assert!(rt; cluster.addrs().len() == usize::from(plan.workload().shards()));
    let requests = parse_requests(alloc, case.requests).expect(rt, "requests");
    submit_all(
        alloc,
        &plan,
        TAG,
        0,
        &cluster,
        &requests,
        &mut outside.link,
        case.turns,
        &mut outside.out,
        case.name,
        &mut outside.book,
    )
}

fn submits_over(rt: &impl Abort, alloc: Global, case: &Case, outside: &mut Outside) {
    let end = submit(rt, alloc, case, outside);
    same(rt, case.seen.name, &end, &case.end);
    have_seen(rt, outside, &case.seen, case.log);
}

/// Submits the requests of a case, and looks at what comes of it.
pub(crate) fn submits(rt: &impl Abort, alloc: Global, case: &Case) {
    let mut outside = outside_of(rt, alloc, case.arrivals, &case.failing);
    submits_over(rt, alloc, case, &mut outside);
}
