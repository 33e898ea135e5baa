//! Submitting requests before and behind the moment when a coordinator goes over to a grown workload.
ghost use Rattle.std.specs.Prelude.{◌≡◌, ◌≤◌, ◌++◌, false, length, map, OnOk};
ghost use Rattle.roc_base.specs.declared.node.Node.TheVariants as node;
ghost use Rattle.roc_epoch.specs.Grown.{IsGrownFrom};
ghost use Rattle.roc_grown.specs.Coord.{first_grown_coord};
ghost use Rattle.roc_grown_node.specs.Setting.{grown_node_setting};
ghost use Rattle.roc_grown_submit.specs.GrownCoordRun.{are_all_answered};
ghost use Rattle.roc_grown_submit.specs.GrownEnd.{grown_closing_text, SubmitsGrowing, BindsAndSubmitsGrowing};
ghost use Rattle.roc_grown_submit.specs.GrownPieces.{WritesGrownInPieces};
ghost use Rattle.roc_grown_submit.specs.Inner.GrownTurn.{bare_node, ClosesGrown, ClosesGrownInPiece};
ghost use Rattle.roc_io.specs.Call.{link_call, link_view, sink_call};
ghost use Rattle.roc_io.specs.Cause.{HasCause};
ghost use Rattle.roc_node.specs.NodeLine.{node_line_text, node_lines_text};
ghost use Rattle.roc_node_submit.specs.SubmitEnd.{submit_link_failed, submit_sink_failed, submit_book_failed};

use crate::coord_node::CoordNode;
use crate::turns::{submit_half, take_half};
use roc_base::{NoMemory, Node, TxnId};
use roc_cluster::Cluster;
use roc_epoch::Next;
use roc_epoch::laws::grown_programs_call_alike;
use roc_grown::GrownCoord;
use roc_grown_node::GrownSetting;
use roc_io::{Addr, Bound, Link, Sink, Written};
use roc_node::{NodeLine, append_line};
use roc_node_submit::SubmitEnd;
use roc_plan::Plan;
use roc_sched::Request;
use roc_wire::Header;
use std::alloc::Global;

/// What submitting does over a link that is bound. Before each turn it drains, where all of `requests` are submitted and answered, and submits requests, in
/// order, while any is left and fewer than sixteen are unanswered; those of `later` once the coordinator has gone over to `next`. It ends when all are answered,
/// or after so many turns, and writes who is unanswered and the counts. Where none is `later` it drains and ends at once, without waiting for the servers. A
/// request that the coordinator refuses is left, with all behind it, so that the end is not `Done`.
///
/// A turn is one receive. What its drain and its submissions send goes out before that, and what comes of the receive behind it, before the next turn. Behind
/// the last turn it neither drains nor submits. What is due is written first, and then sent.
pub fn submit_growing_turns<L: Link, S: Sink>(
    alloc: Global,
    plan: &Plan,
    tag: [u8; 8],
    next: &Next,
    coord: u16,
    cluster: &Cluster,
    requests: &[Request],
    later: &[Request],
    link: &mut L,
    turns: u32,
    out: &mut S,
) -> SubmitEnd
    requires cluster { length cluster.now ≡ plan.now.program.shards }
    requires coord { coord ≤ 15 }
    requires grown { IsGrownFrom plan.now.program next.now.plan.program }
    // A fault has its cause, and no other end comes where a count rose.
    ensures link_cause { HasCause (submit_link_failed result) (L.faults link.old) (L.faults link.new) }
    ensures sink_cause { HasCause (submit_sink_failed result) (S.faults out.old) (S.faults out.new) }
    // There is no log that could fail.
    ensures unlogged { submit_book_failed result ≡ false }
    ensures bound { L.bound link.new ≡ L.bound link.old }
    // All lines of the submissions before a turn go out in one write, the line of a reply in one, and all last lines in one; where no line comes, there is
    // no write.
    ensures pieces { WritesGrownInPieces (grown_node_setting plan.now tag next.now (node.Coord coord) cluster.now) coord requests.now later.now (S.pieces out.old) (S.pieces out.new) result }
    // What the node's run gives over the arrivals is what was sent and written.
    ensures submits { SubmitsGrowing (grown_node_setting plan.now tag next.now (node.Coord coord) cluster.now) coord requests.now later.now turns
        (record { old = link_view L.Link link.old; new = link_view L.Link link.new; out = sink_call S.Sink out.old out.new })
        result }
{
    grown_programs_call_alike();
    let header = Header {
        tag,
        from: Node::Coord(coord),
    };
    let setting = GrownSetting {
        plan,
        next,
        cluster,
        header: &header,
    };
    let mut coord_node = open_coord_node(alloc, coord);
    let mut buffer = Vec::new(alloc);
    for _ in 0..turns {
        match submit_half(alloc, setting, &mut coord_node, requests, later, link, out) {
            Ok(()) => {}
            Err(end) => return end,
        }
        if are_all_answered(&coord_node, requests, later) {
            return close(alloc, &coord_node, requests, later, out);
        }
        match take_half(alloc, setting, &mut coord_node, link, &mut buffer, out) {
            Ok(()) => {}
            Err(end) => return end,
        }
    }
    close(alloc, &coord_node, requests, later, out)
}

// What a coordinator keeps before any turn.
fn open_coord_node(alloc: Global, coord: u16) -> CoordNode
    ensures { result ≡ record { coord = first_grown_coord coord; first = 0; second = 0; answered = 0 } }
{
    CoordNode {
        coord: GrownCoord::new(alloc, coord),
        first: 0,
        second: 0,
        answered: 0,
    }
}

// Whether no request of either file is left and none is unanswered.
fn are_all_answered(coord_node: &CoordNode, requests: &[Request], later: &[Request]) -> bool
    requires first { coord_node.now.first ≤ length requests.now }
    requires second { coord_node.now.second ≤ length later.now }
    ensures { result ≡ are_all_answered (bare_node coord_node.now requests.now later.now) }
{
    if !requests[coord_node.first..].is_empty() {
        return false;
    }
    if !later[coord_node.second..].is_empty() {
        return false;
    }
    coord_node.coord.unanswered().is_empty()
}

// Adds the last lines: who is unanswered, and the counts.
fn push_closing(
    alloc: Global,
    text: &mut Vec<u8>,
    coord_node: &CoordNode,
    requests: &[Request],
    later: &[Request],
) -> Result<(), NoMemory>
    requires first { coord_node.now.first ≤ length requests.now }
    requires second { coord_node.now.second ≤ length later.now }
    ensures { OnOk result (text.new.items ≡ text.old.items ++ grown_closing_text (bare_node coord_node.now requests.now later.now)) }
{
    let unanswered = coord_node.coord.unanswered();
    push_unanswered(alloc, text, unanswered)?;
    let left = requests[coord_node.first..].len() as u64;
    let later_left = later[coord_node.second..].len() as u64;
    let line = NodeLine::EndSubmit {
        answered: coord_node.answered,
        unanswered: unanswered.len() as u64,
        unsubmitted: left + later_left,
    };
    append_line(alloc, text, line)
}

fn push_unanswered(alloc: Global, text: &mut Vec<u8>, ids: &[TxnId]) -> Result<(), NoMemory>
    ensures { OnOk result (text.new.items ≡ text.old.items ++ node_lines_text (map NodeLine.Unanswered ids.now)) }
{
    for id in ids {
        push_one(alloc, text, *id)?;
    }
    Ok(())
}

fn push_one(alloc: Global, text: &mut Vec<u8>, id: TxnId) -> Result<(), NoMemory>
    ensures { OnOk result (text.new.items ≡ text.old.items ++ node_line_text (NodeLine.Unanswered id)) }
{
    append_line(alloc, text, NodeLine::Unanswered(id))
}

// Writes the last lines.
fn close<S: Sink>(
    alloc: Global,
    coord_node: &CoordNode,
    requests: &[Request],
    later: &[Request],
    out: &mut S,
) -> SubmitEnd
    requires first { coord_node.now.first ≤ length requests.now }
    requires second { coord_node.now.second ≤ length later.now }
    ensures cause { HasCause (submit_sink_failed result) (S.faults out.old) (S.faults out.new) }
    ensures link { submit_link_failed result ≡ false }
    ensures unlogged { submit_book_failed result ≡ false }
    ensures closes { ClosesGrown result (bare_node coord_node.now requests.now later.now) (S.taken out.old) (S.taken out.new) }
    ensures pieces { ClosesGrownInPiece result (bare_node coord_node.now requests.now later.now) (S.pieces out.old) (S.pieces out.new) }
{
    let mut text = Vec::new(alloc);
    if push_closing(alloc, &mut text, coord_node, requests, later).is_err() {
        return SubmitEnd::NoMemory;
    }
    match out.write(&text) {
        Written::Failed => SubmitEnd::SinkFault,
        Written::Ok => {
            if are_all_answered(coord_node, requests, later) {
                SubmitEnd::Done
            } else {
                SubmitEnd::Unanswered
            }
        }
    }
}

/// Submits requests as a coordinator that goes over to `next` behind `requests` and submits those of `later` then: binds any free port, and takes turns until
/// each request is answered, or so many were taken. Of `next` it reads no count of coordinators but where it judges who sent a datagram.
pub fn submit_growing<L: Link, S: Sink>(
    alloc: Global,
    plan: &Plan,
    tag: [u8; 8],
    next: &Next,
    coord: u16,
    cluster: &Cluster,
    requests: &[Request],
    later: &[Request],
    link: &mut L,
    turns: u32,
    out: &mut S,
) -> SubmitEnd
    requires cluster { length cluster.now ≡ plan.now.program.shards }
    requires coord { coord ≤ 15 }
    requires grown { IsGrownFrom plan.now.program next.now.plan.program }
    ensures link_cause { HasCause (submit_link_failed result) (L.faults link.old) (L.faults link.new) }
    ensures sink_cause { HasCause (submit_sink_failed result) (S.faults out.old) (S.faults out.new) }
    // There is no log that could fail.
    ensures unlogged { submit_book_failed result ≡ false }
    // What goes out in one write.
    ensures pieces { WritesGrownInPieces (grown_node_setting plan.now tag next.now (node.Coord coord) cluster.now) coord requests.now later.now (S.pieces out.old) (S.pieces out.new) result }
    ensures submits { BindsAndSubmitsGrowing (grown_node_setting plan.now tag next.now (node.Coord coord) cluster.now) coord requests.now later.now turns
        (record { link = link_call L.Link link.old link.new; out = sink_call S.Sink out.old out.new })
        result }
{
    let any = Addr {
        host: [0, 0, 0, 0],
        port: 0,
    };
    match link.bind(any) {
        Bound::Failed => SubmitEnd::LinkFault,
        Bound::Ok => submit_growing_turns(
            alloc, plan, tag, next, coord, cluster, requests, later, link, turns, out,
        ),
    }
}
