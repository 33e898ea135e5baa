//! What stays the same while a node runs that may go over to a grown workload.

use roc_cluster::Cluster;
use roc_epoch::Next;
use roc_plan::Plan;
use roc_wire::Header;

/// What stays the same while a node runs: the plan of the first file, the file that comes next, the addresses of the shards, and what stands before each
/// message of the first file that the node sends, which is that file's tag and who the node is.
#[derive(Clone, Copy)]
pub struct GrownSetting<'a> {
    pub plan: &'a Plan,
    pub next: &'a Next,
    pub cluster: &'a Cluster,
    pub header: &'a Header,
}
