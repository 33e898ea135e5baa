//! The turns of a coordinator's node.
ghost use Rattle.std.specs.Prelude.{◌≡◌, ◌≤◌, ℕ, List, Bool, false, [], length, OnOk};
ghost use Rattle.roc_io.specs.Call.{link_view};
ghost use Rattle.roc_io.specs.Cause.{HasCause};
ghost use Rattle.roc_io.specs.Sink.{write_failed, Takes, WritesPiece};
ghost use Rattle.roc_book.specs.Call.{book_view};
ghost use Rattle.roc_coord.specs.Fits.{CoordFits};
ghost use Rattle.roc_wire.specs.Fits.{FitsHeader};
ghost use Rattle.roc_node.specs.Setting.{setting_of};
ghost use Rattle.roc_node_submit.specs.Inner.CoordTurn.{GainsBy, HalfSubmits, HalfTakes, PutsOut, TakesOneHalf, due_failed, half_book_failed, half_link_failed, half_sink_failed, if_logged, seen};

use crate::SubmitEnd;
use crate::coord_node::{CoordNode, TurnOutput, make_submissions, take_datagram, take_silence};
use roc_book::Book;
use roc_io::{Arrival, Link, Sink, Written, send_all};
use roc_node::Setting;
use roc_sched::Request;
use std::alloc::Global;

// Writes a piece of the log, unless it is empty.
fn write_log<B: Book>(book: &mut B, piece: &[u8]) -> Written
    ensures cause { HasCause (write_failed result) (B.faults book.old) (B.faults book.new) }
    ensures gains { (logs : Bool) → (log : List ℕ) → piece.now ≡ if_logged logs log → GainsBy result logs (book_view B.Book book.old) (book_view B.Book book.new) log }
    ensures stays { piece.now ≡ [] → book.new ≡ book.old }
{
    if piece.is_empty() {
        return Written::Ok;
    }
    book.write(piece)
}

// Writes a text in one piece, unless it is empty.
fn write_text<S: Sink>(out: &mut S, text: &[u8]) -> Written
    ensures cause { HasCause (write_failed result) (S.faults out.old) (S.faults out.new) }
    ensures taken { Takes result (S.taken out.old) (S.taken out.new) text.now }
    ensures pieces { WritesPiece result (S.pieces out.old) (S.pieces out.new) text.now }
{
    if text.is_empty() {
        return Written::Ok;
    }
    out.write(text)
}

// Puts out what is due: into the log first, then onto the sink, and then over the link, until one fails.
fn put_out<L: Link, S: Sink, B: Book>(
    output: &TurnOutput,
    link: &mut L,
    out: &mut S,
    book: &mut B,
) -> Result<(), SubmitEnd>
    ensures link_cause { HasCause (half_link_failed result) (L.faults link.old) (L.faults link.new) }
    ensures sink_cause { HasCause (half_sink_failed result) (S.faults out.old) (S.faults out.new) }
    ensures book_cause { HasCause (half_book_failed result) (B.faults book.old) (B.faults book.new) }
    ensures puts { (logs : Bool) → (log : List ℕ) → output.now.log.items ≡ if_logged logs log
        → PutsOut result logs output.now log (seen L.Link S.Sink B.Book link.old out.old book.old) (seen L.Link S.Sink B.Book link.new out.new book.new) }
    ensures stays { output.now.log.items ≡ [] → book.new ≡ book.old }
    ensures bound { L.bound link.new ≡ L.bound link.old }
{
    match write_log(book, &output.log) {
        Written::Ok => {}
        Written::Failed => return Err(SubmitEnd::BookFault),
    }
    match write_text(out, &output.text) {
        Written::Ok => {
            send_all(link, &output.sends);
            Ok(())
        }
        Written::Failed => Err(SubmitEnd::SinkFault),
    }
}

/// The submissions before a turn.
pub fn submit_half<L: Link, S: Sink, B: Book>(
    alloc: Global,
    setting: Setting<'_>,
    coord_node: &mut CoordNode,
    requests: &[Request],
    link: &mut L,
    out: &mut S,
    book: &mut B,
) -> Result<(), SubmitEnd>
    requires fits { CoordFits setting.plan.now coord_node.old.coord }
    requires header { FitsHeader setting.header.now }
    requires cluster { length setting.cluster.now ≡ setting.plan.now.program.shards }
    requires next { coord_node.old.next ≤ length requests.now }
    ensures link_cause { HasCause (half_link_failed result) (L.faults link.old) (L.faults link.new) }
    ensures sink_cause { HasCause (half_sink_failed result) (S.faults out.old) (S.faults out.new) }
    ensures book_cause { HasCause (half_book_failed result) (B.faults book.old) (B.faults book.new) }
    ensures submits { HalfSubmits result (setting_of setting.entry) setting.entry.logs requests.now coord_node.old coord_node.new
        (seen L.Link S.Sink B.Book link.old out.old book.old) (seen L.Link S.Sink B.Book link.new out.new book.new) }
    ensures stays { setting.entry.logs ≡ false → book.new ≡ book.old }
    ensures fits { CoordFits setting.entry.plan.now coord_node.new.coord }
    ensures next { coord_node.new.next ≤ length requests.now }
    ensures bound { L.bound link.new ≡ L.bound link.old }
{
    match make_submissions(alloc, setting, coord_node, requests) {
        Ok(output) => put_out(&output, link, out, book),
        Err(_) => Err(SubmitEnd::NoMemory),
    }
}

// One receive, and what the core makes of it.
fn one_event<L: Link>(
    alloc: Global,
    setting: Setting<'_>,
    coord_node: &mut CoordNode,
    link: &mut L,
    buffer: &mut Vec<u8>,
) -> Result<TurnOutput, SubmitEnd>
    requires fits { CoordFits setting.plan.now coord_node.old.coord }
    requires header { FitsHeader setting.header.now }
    requires cluster { length setting.cluster.now ≡ setting.plan.now.program.shards }
    ensures cause { HasCause (due_failed result) (L.faults link.old) (L.faults link.new) }
    ensures takes { TakesOneHalf result (setting_of setting.entry) setting.entry.logs coord_node.old coord_node.new
        (link_view L.Link link.old) (link_view L.Link link.new) }
    ensures fits { CoordFits setting.entry.plan.now coord_node.new.coord }
    ensures bound { L.bound link.new ≡ L.bound link.old }
{
    match link.receive(buffer) {
        Arrival::Datagram { from: _ } => {
            match take_datagram(alloc, setting, coord_node, buffer) {
                Ok(output) => Ok(output),
                Err(_) => Err(SubmitEnd::NoMemory),
            }
        }
        Arrival::Quiet => match take_silence(alloc, setting, coord_node) {
            Ok(output) => Ok(output),
            Err(_) => Err(SubmitEnd::NoMemory),
        },
        Arrival::NoMemory => Err(SubmitEnd::NoMemory),
        Arrival::Failed => Err(SubmitEnd::LinkFault),
    }
}

/// The receive of a turn, and what the node makes of it.
pub fn take_half<L: Link, S: Sink, B: Book>(
    alloc: Global,
    setting: Setting<'_>,
    coord_node: &mut CoordNode,
    link: &mut L,
    buffer: &mut Vec<u8>,
    out: &mut S,
    book: &mut B,
) -> Result<(), SubmitEnd>
    requires fits { CoordFits setting.plan.now coord_node.old.coord }
    requires header { FitsHeader setting.header.now }
    requires cluster { length setting.cluster.now ≡ setting.plan.now.program.shards }
    ensures link_cause { HasCause (half_link_failed result) (L.faults link.old) (L.faults link.new) }
    ensures sink_cause { HasCause (half_sink_failed result) (S.faults out.old) (S.faults out.new) }
    ensures book_cause { HasCause (half_book_failed result) (B.faults book.old) (B.faults book.new) }
    ensures takes { HalfTakes result (setting_of setting.entry) setting.entry.logs coord_node.old coord_node.new
        (seen L.Link S.Sink B.Book link.old out.old book.old) (seen L.Link S.Sink B.Book link.new out.new book.new) }
    ensures stays { setting.entry.logs ≡ false → book.new ≡ book.old }
    ensures fits { CoordFits setting.entry.plan.now coord_node.new.coord }
    ensures next { OnOk result (coord_node.new.next ≡ coord_node.old.next) }
    ensures bound { L.bound link.new ≡ L.bound link.old }
{
    match one_event(alloc, setting, coord_node, link, buffer) {
        Ok(output) => put_out(&output, link, out, book),
        Err(end) => Err(end),
    }
}
