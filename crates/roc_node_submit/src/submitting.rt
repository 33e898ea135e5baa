//! Submitting requests.
ghost use Rattle.std.specs.Prelude.{◌≡◌, ◌≤◌, ◌++◌, false, [], None, Option, List, ℕ, length, map, option_map, OnOk};
ghost use Rattle.roc_base.specs.declared.node.Node.TheVariants as node;
ghost use Rattle.roc_io.specs.Call.{link_call, link_view, sink_call};
ghost use Rattle.roc_io.specs.Cause.{HasCause};
ghost use Rattle.roc_coord.specs.State.{first_coord};
ghost use Rattle.roc_node.specs.NodeEvent.{node_setting};
ghost use Rattle.roc_node.specs.NodeLine.{node_line_text, node_lines_text};
ghost use Rattle.roc_node_submit.specs.CoordRun.{is_answered};
ghost use Rattle.roc_log.specs.LogLine.{node_line_text as log_first_line};
ghost use Rattle.roc_node_submit.specs.Inner.CoordTurn.{coord_node_state_of, Begins, ClosesSubmitInPiece, ClosesSubmit, half_book_failed, half_link_failed, half_sink_failed};
ghost use Rattle.roc_node_submit.specs.Pieces.{WritesTurnsInPieces};
ghost use Rattle.roc_node_submit.specs.SubmitEnd.{closing_text, Submits, BindsAndSubmits, BeginsLog, first_logged, submit_link_failed, submit_sink_failed, submit_book_failed};
ghost use Rattle.roc_book.specs.Call.{BookView, book_call, book_view};

use crate::SubmitEnd;
use crate::coord_node::CoordNode;
use crate::coord_turns::{submit_half, take_half};
use roc_base::{NoMemory, Node, TxnId};
use roc_book::{Book, Opened};
use roc_cluster::Cluster;
use roc_coord::Coord;
use roc_io::{Addr, Bound, Link, Sink, Written};
use roc_log::append_node;
use roc_node::{NodeLine, Setting, append_line};
use roc_plan::Plan;
use roc_sched::Request;
use roc_wire::Header;
use std::alloc::Global;

/// What submitting does over a link that is bound, with a book that is open and has the first line of the log, if one is kept: before each turn it
/// submits requests, in order, while any is left and fewer than sixteen are unanswered; it ends when all are answered, or after so many turns, and
/// writes who is unanswered and the counts. A request that the coordinator refuses is left, with all behind it, so that the end is not `Done`.
///
/// A turn is one receive. What its submissions send goes out before that, and what comes of the receive behind it, before the next turn. What is due
/// goes into the log first, in one piece; then it is written, and then sent.
pub fn submit_turns<L: Link, S: Sink, B: Book>(
    alloc: Global,
    plan: &Plan,
    tag: [u8; 8],
    coord: u16,
    cluster: &Cluster,
    requests: &[Request],
    link: &mut L,
    turns: u32,
    out: &mut S,
    logs: bool,
    book: &mut B,
) -> SubmitEnd
    requires cluster { length cluster.now ≡ plan.now.program.shards }
    requires coord { coord ≤ 15 }
    // A fault has its cause, and no other end comes where a count rose.
    ensures link_cause { HasCause (submit_link_failed result) (L.faults link.old) (L.faults link.new) }
    ensures sink_cause { HasCause (submit_sink_failed result) (S.faults out.old) (S.faults out.new) }
    ensures book_cause { HasCause (submit_book_failed result) (B.faults book.old) (B.faults book.new) }
    ensures bound { L.bound link.new ≡ L.bound link.old }
    // Without a log the book is not touched.
    ensures book_stays { logs ≡ false → book.new ≡ book.old }
    // All lines of the submissions before a turn go out in one write, the line of what it received in one, and all last lines in one; where there
    // are none, there is no write.
    ensures pieces { WritesTurnsInPieces (node_setting plan.now tag (node.Coord coord) cluster.now) coord requests.now (S.pieces out.old) (S.pieces out.new) result }
    // What the node's run gives over the arrivals is what was sent and written, and what the log has, whatever name it was begun under.
    ensures submits { (log : Option (List ℕ)) → (begun : BookView)
        → BeginsLog logs log (first_logged (node_setting plan.now tag (node.Coord coord) cluster.now)) begun (book_view B.Book book.old)
        → Submits (node_setting plan.now tag (node.Coord coord) cluster.now) coord requests.now turns log
        (record { old = link_view L.Link link.old; new = link_view L.Link link.new; out = sink_call S.Sink out.old out.new })
        (record { old = begun; new = book_view B.Book book.new })
        result }
{
    let header = Header {
        tag,
        from: Node::Coord(coord),
    };
    let setting = Setting {
        plan,
        cluster,
        header: &header,
        logs,
    };
    let mut coord_node = open_coord_node(alloc, coord);
    let mut buffer = Vec::new(alloc);
    for _ in 0..turns {
        if is_answered(&coord_node, requests) {
            return close(alloc, &coord_node, requests, out);
        }
        match submit_half(alloc, setting, &mut coord_node, requests, link, out, book) {
            Ok(()) => {}
            Err(end) => return end,
        }
        match take_half(
            alloc,
            setting,
            &mut coord_node,
            link,
            &mut buffer,
            out,
            book,
        ) {
            Ok(()) => {}
            Err(end) => return end,
        }
    }
    close(alloc, &coord_node, requests, out)
}

// What a coordinator keeps before any turn.
fn open_coord_node(alloc: Global, coord: u16) -> CoordNode
    ensures { result ≡ record { coord = first_coord coord; next = 0; answered = 0 } }
{
    CoordNode {
        coord: Coord::new(alloc, coord),
        next: 0,
        answered: 0,
    }
}

// Whether no request is left and none is unanswered.
fn is_answered(coord_node: &CoordNode, requests: &[Request]) -> bool
    requires { coord_node.now.next ≤ length requests.now }
    ensures { result ≡ is_answered (coord_node_state_of coord_node.now requests.now [] [] [] []) }
{
    if !requests[coord_node.next..].is_empty() {
        return false;
    }
    coord_node.coord.unanswered().is_empty()
}

// Adds the last lines: who is unanswered, and the counts.
fn push_closing(
    alloc: Global,
    text: &mut Vec<u8>,
    coord_node: &CoordNode,
    requests: &[Request],
) -> Result<(), NoMemory>
    requires { coord_node.now.next ≤ length requests.now }
    ensures { OnOk result (text.new.items ≡ text.old.items ++ closing_text (coord_node_state_of coord_node.now requests.now [] [] [] [])) }
{
    let unanswered = coord_node.coord.unanswered();
    push_unanswered(alloc, text, unanswered)?;
    let line = NodeLine::EndSubmit {
        answered: coord_node.answered,
        unanswered: unanswered.len() as u64,
        unsubmitted: requests[coord_node.next..].len() as u64,
    };
    append_line(alloc, text, line)?;
    Ok(())
}

fn push_unanswered(alloc: Global, text: &mut Vec<u8>, ids: &[TxnId]) -> Result<(), NoMemory>
    ensures { OnOk result (text.new.items ≡ text.old.items ++ node_lines_text (map NodeLine.Unanswered ids.now)) }
{
    for id in ids {
        push_one(alloc, text, *id)?;
    }
    Ok(())
}

fn push_one(alloc: Global, text: &mut Vec<u8>, id: TxnId) -> Result<(), NoMemory>
    ensures { OnOk result (text.new.items ≡ text.old.items ++ node_line_text (NodeLine.Unanswered id)) }
{
    append_line(alloc, text, NodeLine::Unanswered(id))
}

// Writes the last lines.
fn close<S: Sink>(
    alloc: Global,
    coord_node: &CoordNode,
    requests: &[Request],
    out: &mut S,
) -> SubmitEnd
    requires { coord_node.now.next ≤ length requests.now }
    ensures cause { HasCause (submit_sink_failed result) (S.faults out.old) (S.faults out.new) }
    ensures link { submit_link_failed result ≡ false }
    ensures book { submit_book_failed result ≡ false }
    ensures closes { ClosesSubmit result (coord_node_state_of coord_node.now requests.now [] [] [] []) (S.taken out.old) (S.taken out.new) }
    ensures pieces { ClosesSubmitInPiece result (coord_node_state_of coord_node.now requests.now [] [] [] []) (S.pieces out.old) (S.pieces out.new) }
{
    let mut text = Vec::new(alloc);
    if push_closing(alloc, &mut text, coord_node, requests).is_err() {
        return SubmitEnd::NoMemory;
    }
    match out.write(&text) {
        Written::Failed => SubmitEnd::SinkFault,
        Written::Ok => {
            if is_answered(coord_node, requests) {
                SubmitEnd::Done
            } else {
                SubmitEnd::Unanswered
            }
        }
    }
}

// Opens the book under the name of the log, and writes the first line, if a log is kept. The line is made before the book is opened.
fn begin_log<B: Book>(
    alloc: Global,
    coord: u16,
    log: Option<&str>,
    book: &mut B,
) -> Result<(), SubmitEnd>
    ensures cause { HasCause (half_book_failed result) (B.faults book.old) (B.faults book.new) }
    ensures link { half_link_failed result ≡ false }
    ensures sink { half_sink_failed result ≡ false }
    ensures stays { log.entry ≡ None → book.new ≡ book.old }
    ensures begins { Begins result (option_map (λ name. name.now) log.entry) (log_first_line (node.Coord coord)) (book_view B.Book book.old) (book_view B.Book book.new) }
{
    let name = match log {
        Some(name) => name,
        None => return Ok(()),
    };
    let mut text = Vec::new(alloc);
    if append_node(alloc, &mut text, Node::Coord(coord)).is_err() {
        return Err(SubmitEnd::NoMemory);
    }
    match book.open(name) {
        Opened::Ok => {}
        Opened::Failed => return Err(SubmitEnd::BookFault),
    }
    match book.write(&text) {
        Written::Ok => Ok(()),
        Written::Failed => Err(SubmitEnd::BookFault),
    }
}

/// Submits requests as a coordinator: opens the book, where a log is kept, and writes its first line; binds any free port; and takes turns until each
/// request is answered, or so many were taken.
pub fn submit_all<L: Link, S: Sink, B: Book>(
    alloc: Global,
    plan: &Plan,
    tag: [u8; 8],
    coord: u16,
    cluster: &Cluster,
    requests: &[Request],
    link: &mut L,
    turns: u32,
    out: &mut S,
    log: Option<&str>,
    book: &mut B,
) -> SubmitEnd
    requires cluster { length cluster.now ≡ plan.now.program.shards }
    requires coord { coord ≤ 15 }
    ensures link_cause { HasCause (submit_link_failed result) (L.faults link.old) (L.faults link.new) }
    ensures sink_cause { HasCause (submit_sink_failed result) (S.faults out.old) (S.faults out.new) }
    ensures book_cause { HasCause (submit_book_failed result) (B.faults book.old) (B.faults book.new) }
    // Without a log the book is not touched.
    ensures book_stays { log.entry ≡ None → book.new ≡ book.old }
    // What goes out in one write.
    ensures pieces { WritesTurnsInPieces (node_setting plan.now tag (node.Coord coord) cluster.now) coord requests.now (S.pieces out.old) (S.pieces out.new) result }
    ensures submits { BindsAndSubmits (node_setting plan.now tag (node.Coord coord) cluster.now) coord requests.now turns (option_map (λ name. name.now) log.entry)
        (record { link = link_call L.Link link.old link.new; out = sink_call S.Sink out.old out.new }) (book_call B.Book book.old book.new)
        result }
{
    match begin_log(alloc, coord, log, book) {
        Ok(()) => {}
        Err(end) => return end,
    }
    let any = Addr {
        host: [0, 0, 0, 0],
        port: 0,
    };
    match link.bind(any) {
        Bound::Failed => SubmitEnd::LinkFault,
        Bound::Ok => submit_turns(
            alloc,
            plan,
            tag,
            coord,
            cluster,
            requests,
            link,
            turns,
            out,
            log.is_some(),
            book,
        ),
    }
}
