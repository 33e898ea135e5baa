//! Stops for the servers of a cluster.
ghost use Rattle.std.specs.Prelude.{◌≡◌, map, IfOk};
ghost use Rattle.roc_io.specs.Call.{link_view};
ghost use Rattle.roc_io.specs.Cause.{HasCause};
ghost use Rattle.roc_io.specs.Link.{sending};
ghost use Rattle.roc_io.specs.Observed.{AddsUnless};
ghost use Rattle.roc_node.specs.Moves.{Moves};
ghost use Rattle.roc_node_submit.specs.SubmitEnd.{any_address};
ghost use Rattle.roc_node_local.specs.Stops.{SendsStops, stop_bytes, stops_failed, stops_unbound, thrice_to, thrice_to_each};

use roc_base::{NoMemory, Node};
use roc_cluster::Cluster;
use roc_io::{Addr, Bound, Link};
use roc_msg::Msg;
use roc_wire::{Header, encode};
use std::alloc::Global;

/// How often a server is told to stop, since a datagram can be lost.
const IN_A_ROW: u32 = 3;

/// Any port of this machine.
pub(crate) const ANY: Addr = Addr {
    host: [0; 4],
    port: 0,
};

/// How `send_stops` ends.
#[derive(Clone, Copy, Debug, PartialEq, Eq)]
pub enum StopEnd {
    /// The stops were given to the link.
    Done,
    /// The link could not be bound.
    LinkFault,
    /// There was no memory for the datagram; the link was not bound.
    NoMemory,
}

/// The datagram that stops a server of nodes with this tag.
pub(crate) fn stop_bytes(alloc: Global, tag: [u8; 8]) -> Result<Vec<u8>, NoMemory>
    ensures { IfOk result (λ bytes. bytes.items ≡ stop_bytes tag) }
{
    let header = Header {
        tag,
        from: Node::Coord(0),
    };
    encode(alloc, &header, &Msg::Stop)
}

fn send_thrice<L: Link>(link: &mut L, to: Addr, bytes: &[u8])
    ensures given { Moves (link_view L.Link link.old) (link_view L.Link link.new) (map sending (thrice_to bytes.now to)) }
    ensures faults { L.faults link.new ≡ L.faults link.old }
    ensures bound { L.bound link.new ≡ L.bound link.old }
    ensures arrivals { L.arrivals link.new ≡ L.arrivals link.old }
{
    for _ in 0..IN_A_ROW {
        link.send(to, bytes);
    }
}

/// Sends these bytes to the server of each shard, in order, three times in a row. What the link does not take is counted as lost.
pub(crate) fn send_to_each<L: Link>(link: &mut L, cluster: &Cluster, bytes: &[u8])
    ensures given { Moves (link_view L.Link link.old) (link_view L.Link link.new) (map sending (thrice_to_each bytes.now cluster.now)) }
    ensures faults { L.faults link.new ≡ L.faults link.old }
    ensures bound { L.bound link.new ≡ L.bound link.old }
    ensures arrivals { L.arrivals link.new ≡ L.arrivals link.old }
{
    for addr in cluster.addrs() {
        send_thrice(link, *addr, bytes);
    }
}

/// Binds a link to any port, and sends the server of each shard of a cluster, in order, three stops in a row as coordinator 0. Those that
/// the link does not take are counted by `lost` alone.
pub fn send_stops<L: Link>(alloc: Global, tag: [u8; 8], cluster: &Cluster, link: &mut L) -> StopEnd
    ensures sends { SendsStops result tag cluster.now (link_view L.Link link.old) (link_view L.Link link.new) }
    ensures cause { HasCause (stops_failed result) (L.faults link.old) (L.faults link.new) }
    ensures bound { AddsUnless (stops_unbound result) (L.bound link.old) (L.bound link.new) any_address }
    ensures arrivals { L.arrivals link.new ≡ L.arrivals link.old }
{
    let bytes = match stop_bytes(alloc, tag) {
        Ok(bytes) => bytes,
        Err(NoMemory) => return StopEnd::NoMemory,
    };
    match link.bind(ANY) {
        Bound::Ok => {
            send_to_each(link, cluster, &bytes);
            StopEnd::Done
        }
        Bound::Failed => StopEnd::LinkFault,
    }
}
