//! Serving a shard whose node may go over to a grown workload.
ghost use Rattle.std.specs.Prelude.{◌≡◌, ◌<◌, false, length, Some, IfOk, slice_get};
ghost use Rattle.roc_base.specs.declared.node.Node.TheVariants as node;
ghost use Rattle.roc_io.specs.Call.{link_call, sink_call};
ghost use Rattle.roc_io.specs.Cause.{HasCause};
ghost use Rattle.roc_io.specs.declared.link.Addr.{Addr};
ghost use Rattle.roc_node.specs.NodeLine.{node_lines_text, end_lines};
ghost use Rattle.roc_node_serve.specs.Pieces.{ClosesInPiece, WritesInPieces};
ghost use Rattle.roc_node_serve.specs.ServeEnd.{first_text, is_end_of_journal, serve_book_failed, serve_link_failed, serve_sink_failed};
ghost use Rattle.roc_wire.specs.Fits.{FitsHeader};
ghost use Rattle.roc_grown_node.specs.Setting.{grown_node_setting, grown_setting_of};
ghost use Rattle.roc_grown_serve.specs.GrownRun.{first_grown_node};
ghost use Rattle.roc_grown_serve.specs.ServesGrowing.{ServesGrowing};
ghost use Rattle.roc_grown_serve.specs.Inner.GrownTurn.{ClosesServe, IsReady, bare};

use crate::server_node::GrownServerNode;
use crate::server_turns::{RunEnd, run_turns};
use roc_base::{NoMemory, Node, Shard};
use roc_cluster::Cluster;
use roc_epoch::Next;
use roc_grown::GrownServer;
use roc_grown_node::GrownSetting;
use roc_io::{Bound, Link, Sink, Written};
use roc_node::{Counts, Heard, NodeLine, append_end, append_line};
use roc_node_serve::ServeEnd;
use roc_plan::Plan;
use roc_wire::Header;
use std::alloc::Global;

/// Serves a shard with a server of the plan, whose workload has the tag, that goes over to the next file once each of its coordinators has told that it is
/// drained: binds the shard's address, writes that it serves, takes turns until a stop comes or so many were taken, and writes what came of them; with `counts`
/// also how often each word was the cause to skip a datagram or to ignore a message.
///
/// A turn is one receive. The datagrams of a turn are sent behind it, and before the next one. A stop is one with the tag of the file that the server runs.
/// What the next file's plan is and how many coordinators it has is not judged here.
pub fn serve_growing<L: Link, S: Sink>(
    alloc: Global,
    plan: &Plan,
    tag: [u8; 8],
    next: &Next,
    shard: Shard,
    cluster: &Cluster,
    counts: bool,
    link: &mut L,
    turns: u32,
    out: &mut S,
) -> ServeEnd
    requires cluster { length cluster.now ≡ plan.now.program.shards }
    requires shard { shard.0 < plan.now.program.shards }
    // A fault has its cause, and no other end comes where a count rose.
    ensures link_cause { HasCause (serve_link_failed result) (L.faults link.old) (L.faults link.new) }
    ensures sink_cause { HasCause (serve_sink_failed result) (S.faults out.old) (S.faults out.new) }
    // There is no journal and no log.
    ensures unkept { is_end_of_journal result ≡ false }
    ensures unlogged { serve_book_failed result ≡ false }
    // The first line goes out in one write, and all last lines in one.
    ensures pieces { WritesInPieces shard counts (S.pieces out.old) (S.pieces out.new) result }
    // What the node's run gives over the arrivals is what was sent and written.
    ensures serves { (own : Addr) → slice_get cluster.now shard.0 ≡ Some own
        → ServesGrowing (grown_node_setting plan.now tag next.now (node.Server shard) cluster.now) (first_grown_node plan.now shard) shard own turns counts
        (record { link = link_call L.Link link.old link.new; out = sink_call S.Sink out.old out.new }) result }
{
    let header = own_header(plan, tag, shard);
    let setting = GrownSetting {
        plan,
        next,
        cluster,
        header: &header,
    };
    match first_node(alloc, plan, shard) {
        Err(_) => ServeEnd::NoMemory,
        Ok(mut server_node) => serve_from(
            alloc,
            setting,
            shard,
            &mut server_node,
            counts,
            link,
            turns,
            out,
        ),
    }
}

// Serves from what a node keeps before any turn.
fn serve_from<L: Link, S: Sink>(
    alloc: Global,
    setting: GrownSetting<'_>,
    shard: Shard,
    server_node: &mut GrownServerNode,
    counts: bool,
    link: &mut L,
    turns: u32,
    out: &mut S,
) -> ServeEnd
    requires cluster { length setting.cluster.now ≡ setting.plan.now.program.shards }
    requires shard { shard.0 < setting.plan.now.program.shards }
    requires header { FitsHeader setting.header.now }
    requires ready { IsReady (grown_setting_of setting) server_node.old }
    ensures link_cause { HasCause (serve_link_failed result) (L.faults link.old) (L.faults link.new) }
    ensures sink_cause { HasCause (serve_sink_failed result) (S.faults out.old) (S.faults out.new) }
    ensures pieces { WritesInPieces shard counts (S.pieces out.old) (S.pieces out.new) result }
    ensures unkept { is_end_of_journal result ≡ false }
    ensures unlogged { serve_book_failed result ≡ false }
    ensures serves { (own : Addr) → slice_get setting.entry.cluster.now shard.0 ≡ Some own
        → ServesGrowing (grown_setting_of setting.entry) (bare server_node.old) shard own turns counts
        (record { link = link_call L.Link link.old link.new; out = sink_call S.Sink out.old out.new }) result }
{
    let first = match first_text(alloc, shard) {
        Ok(first) => first,
        Err(_) => return ServeEnd::NoMemory,
    };
    match link.bind(setting.cluster.addr(shard)) {
        Bound::Failed => return ServeEnd::LinkFault,
        Bound::Ok => {}
    }
    match out.write(&first) {
        Written::Failed => return ServeEnd::SinkFault,
        Written::Ok => {}
    }
    match run_turns(alloc, setting, server_node, link, turns) {
        RunEnd::Over(stopped) => close(alloc, shard, stopped, counts, &server_node.counts, out),
        RunEnd::NoMemory => ServeEnd::NoMemory,
        RunEnd::LinkFault => ServeEnd::LinkFault,
    }
}

// What stands before each message of the first file that a server sends.
fn own_header(plan: &Plan, tag: [u8; 8], shard: Shard) -> Header
    requires { shard.0 < plan.now.program.shards }
    ensures is { result ≡ record { tag = tag; from = node.Server shard } }
    ensures fits { FitsHeader result }
{
    let _shards = plan.workload().shards();
    Header {
        tag,
        from: Node::Server(shard),
    }
}

// What a server's node keeps before any turn.
fn first_node(alloc: Global, plan: &Plan, shard: Shard) -> Result<GrownServerNode, NoMemory>
    ensures { IfOk result (λ server_node. bare server_node ≡ first_grown_node plan.now shard) }
{
    match GrownServer::new(alloc, plan, shard) {
        Ok(server) => Ok(GrownServerNode {
            server,
            heard: Heard::new(),
            counts: Counts::new(),
        }),
        Err(NoMemory) => Err(NoMemory),
    }
}

// The text of the first line.
fn first_text(alloc: Global, shard: Shard) -> Result<Vec<u8>, NoMemory>
    ensures { IfOk result (λ text. text.items ≡ first_text shard) }
{
    let mut text = Vec::new(alloc);
    append_line(alloc, &mut text, NodeLine::Serving(shard))?;
    Ok(text)
}

// Writes the last lines.
fn close<S: Sink>(
    alloc: Global,
    shard: Shard,
    stopped: bool,
    counts: bool,
    counted: &Counts,
    out: &mut S,
) -> ServeEnd
    ensures cause { HasCause (serve_sink_failed result) (S.faults out.old) (S.faults out.new) }
    ensures link { serve_link_failed result ≡ false }
    ensures unkept { is_end_of_journal result ≡ false }
    ensures unlogged { serve_book_failed result ≡ false }
    ensures closes { ClosesServe result (node_lines_text (end_lines shard stopped counts counted.now)) (S.taken out.old) (S.taken out.new) }
    ensures pieces { ClosesInPiece result (node_lines_text (end_lines shard stopped counts counted.now)) (S.pieces out.old) (S.pieces out.new) }
{
    let mut text = Vec::new(alloc);
    if append_end(alloc, &mut text, shard, stopped, counts, counted).is_err() {
        return ServeEnd::NoMemory;
    }
    match out.write(&text) {
        Written::Ok => ServeEnd::Done,
        Written::Failed => ServeEnd::SinkFault,
    }
}
