//! Servers of shard 0: what comes to one, and what is to come of it.
use crate::datagrams::{Packet, TAG};
use crate::outside::{Failing, Outside, Seen, have_seen, outside_of};
use crate::same::same;
use crate::workloads::{Texts, cluster_of, plan_of};
use roc_base::Shard;
use roc_disk_memory::MemDisk;
use roc_io::Addr;
use roc_node_serve::{ServeEnd, serve};
use std::alloc::Global;
use std::process::Abort;

pub(crate) const CALLER: Addr = Addr {
    host: [10, 0, 0, 8],
    port: 9000,
};

pub(crate) const OTHER_CALLER: Addr = Addr {
    host: [10, 0, 0, 9],
    port: 9001,
};

/// What is served, whether refusals are counted, and what is kept besides: a journal or a log, of these names.
pub(crate) struct Setting {
    pub texts: &'static Texts,
    pub counts: bool,
    pub journal: Option<&'static str>,
    pub log: Option<&'static str>,
}

/// What comes to shard 0 and which call fails, and what is to come of it, with what the log holds then. A write that fails takes half of its piece.
pub(crate) struct Case {
    pub setting: &'static Setting,
    pub arrivals: &'static [Packet],
    pub failing: Failing,
    pub turns: u32,
    pub end: ServeEnd,
    pub seen: Seen,
    pub log: &'static [u8],
}

/// Serves for so many turns.
pub(crate) fn serve_first(
    rt: &impl Abort,
    alloc: Global,
    setting: &Setting,
    turns: u32,
    outside: &mut Outside,
    disk: &mut MemDisk,
) -> ServeEnd {
    let plan = plan_of(rt, alloc, setting.texts);
    let cluster = cluster_of(rt, alloc, setting.texts, &plan);
    let shards = usize::from(plan.workload().shards());
    assert!(rt; cluster.addrs().len() == shards);
    assert!(rt; shards > 0);
    serve(
        alloc,
        &plan,
        TAG,
        Shard(0),
        &cluster,
        setting.counts,
        &mut outside.link,
        turns,
        &mut outside.out,
        setting.journal,
        disk,
        setting.log,
        &mut outside.book,
    )
}

fn serves_over(
    rt: &impl Abort,
    alloc: Global,
    case: &Case,
    outside: &mut Outside,
    disk: &mut MemDisk,
) {
    let end = serve_first(rt, alloc, case.setting, case.turns, outside, disk);
    same(rt, case.seen.name, &end, &case.end);
    have_seen(rt, outside, &case.seen, case.log);
}

/// Serves a case, and looks at what comes of it.
pub(crate) fn serves(rt: &impl Abort, alloc: Global, case: &Case, disk: &mut MemDisk) {
    let mut outside = outside_of(rt, alloc, case.arrivals, &case.failing);
    serves_over(rt, alloc, case, &mut outside, disk);
}
