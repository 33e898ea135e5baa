//! Workloads of the tests, and clusters that run them.

use roc_check::check;
use roc_cluster::{Cluster, parse_cluster};
use roc_io::Addr;
use roc_plan::Plan;
use std::alloc::Global;
use std::process::Abort;

/// A workload and a cluster that runs it, as texts.
pub(crate) struct Texts {
    pub workload: &'static [u8],
    pub cluster: &'static [u8],
}

/// One counter on one shard.
pub(crate) const COUNTER: Texts = Texts {
    workload: b"shards 1;
table t { x }
proc add(n) { later a at 0 { get v = t[0].x; set t[0].x = v + n; out v; } }
",
    cluster: b"[[shard]]
number = 0
host = \"10.0.0.1\"
port = 7000
",
};

/// Accounts on two shards.
pub(crate) const BANK: Texts = Texts {
    workload: b"shards 2;
table acct { bal }
init acct[0,0].bal = 100;
init acct[1,0].bal = 50;
proc pay(f,t,n) {
  later take at f { get b = acct[0].bal; set acct[0].bal = b - n; out b; }
  later give at t { get d = acct[0].bal; set acct[0].bal = d + n; out d; }
}
proc add(p,n) { later a at p { get v = acct[0].bal; set acct[0].bal = v + n; out v; } }
",
    cluster: b"[[shard]]
number = 0
host = \"10.0.0.1\"
port = 7000

[[shard]]
number = 1
host = \"10.0.0.2\"
port = 7001
",
};

/// The address of shard 0 in each cluster.
pub(crate) const FIRST_SHARD: Addr = Addr {
    host: [10, 0, 0, 1],
    port: 7000,
};

/// The address of shard 1 of the accounts.
pub(crate) const SECOND_SHARD: Addr = Addr {
    host: [10, 0, 0, 2],
    port: 7001,
};

/// Any port of this machine.
pub(crate) const ANY: Addr = Addr {
    host: [0, 0, 0, 0],
    port: 0,
};

/// The plan of a workload.
pub(crate) fn plan_of(rt: &impl Abort, alloc: Global, texts: &Texts) -> Plan {
    check(alloc, texts.workload).expect(rt, "a plan")
}

/// The cluster that runs it, of so many shards as its plan has.
pub(crate) fn cluster_of(rt: &impl Abort, alloc: Global, texts: &Texts, plan: &Plan) -> Cluster {
    parse_cluster(alloc, texts.cluster, plan.workload().shards()).expect(rt, "a cluster")
}
