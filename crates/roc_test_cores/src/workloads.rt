//! Workloads of the tests.
use roc_check::check;
use roc_plan::Plan;
use std::alloc::Global;
use std::process::Abort;

/// One counter on one shard.
pub(crate) const COUNTER: &[u8] = b"shards 1;
table t { x }
proc add(n) { later a at 0 { get v = t[0].x; set t[0].x = v + n; out v; } }
";

/// Two pieces that may run apart.
pub(crate) const TWINS: &[u8] = b"shards 1;
table t { x }
table u { y }
proc two(n) {
  later a at 0 { set t[0].x = n; }
  later b at 0 { set u[0].y = n; }
}
";

/// A counter on the first of two shards, and a view of a counter at a place.
pub(crate) const LOOKED_AT: &[u8] = b"shards 2;
table t { x }
proc add(n) { later a at 0 { get v = t[0].x; set t[0].x = v + n; out v; } }
proc look(p) view { later a at p { get v = t[0].x; out v; } }
";

/// The plan of a text.
pub(crate) fn plan_of(rt: &impl Abort, alloc: Global, text: &[u8]) -> Plan {
    check(alloc, text).expect(rt, "a plan")
}
