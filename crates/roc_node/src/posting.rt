//! Messages on their way.
ghost use Rattle.std.specs.Prelude.{◌≡◌, ◌<◌, ◌++◌, length, IfOk, OnOk};
ghost use Rattle.roc_wire.specs.Fits.{FitsHeader};
ghost use Rattle.roc_node.specs.Posting.{address_for, packet_to, packets_for};

use crate::Heard;
use roc_base::{NoMemory, Node, Shard};
use roc_cluster::Cluster;
use roc_io::{Addr, Datagram};
use roc_log::has_spelling;
use roc_msg::Outgoing;
use roc_wire::{Header, encode};
use std::alloc::Global;

// Where a message to a node goes, if anywhere, in a cluster of so many shards.
fn address_for(cluster: &Cluster, shards: u8, heard: &Heard, to: Node) -> Option<Addr>
    requires { length cluster.now ≡ shards }
    ensures { result ≡ address_for cluster.now heard.now to }
{
    match to {
        Node::Server(Shard(number)) => {
            if number < shards {
                Some(cluster.addr(Shard(number)))
            } else {
                None
            }
        }
        Node::Coord(number) => heard.addr(number),
    }
}

// Adds the datagram of a message, if it is sent.
fn push_packet(
    alloc: Global,
    packets: &mut Vec<Datagram>,
    header: &Header,
    out: &Outgoing,
    addr: Option<Addr>,
) -> Result<(), NoMemory>
    requires { FitsHeader header.now }
    ensures { OnOk result (packets.new.items ≡ packets.old.items ++ packet_to header.now out.now addr) }
{
    match addr {
        Some(addr) => {
            if has_spelling(&out.msg) {
                let bytes = encode(alloc, header, &out.msg)?;
                packets.push(Datagram::new(addr, bytes))?;
            }
            Ok(())
        }
        None => Ok(()),
    }
}

/// The datagrams that messages of this sender are sent as, in order, in a cluster of so many shards. A message that goes nowhere, or has
/// no spelling, is none.
pub fn post(
    alloc: Global,
    header: &Header,
    cluster: &Cluster,
    shards: u8,
    heard: &Heard,
    outs: &[Outgoing],
) -> Result<Vec<Datagram>, NoMemory>
    requires header { FitsHeader header.now }
    requires cluster { length cluster.now ≡ shards }
    ensures { IfOk result (λ packets. packets.items ≡ packets_for header.now cluster.now heard.now outs.now) }
{
    let mut packets = Vec::new(alloc);
    for out in outs {
        let addr = address_for(cluster, shards, heard, out.to);
        push_packet(alloc, &mut packets, header, out, addr)?;
    }
    Ok(packets)
}
