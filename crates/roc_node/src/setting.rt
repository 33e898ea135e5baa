//! What stays the same while a node runs.

use roc_cluster::Cluster;
use roc_plan::Plan;
use roc_wire::Header;

/// What stays the same while a node runs: the plan, the addresses of the shards, what stands before each message that it sends, and
/// whether the node keeps a log.
#[derive(Clone, Copy)]
pub struct Setting<'a> {
    pub plan: &'a Plan,
    pub cluster: &'a Cluster,
    pub header: &'a Header,
    pub logs: bool,
}
